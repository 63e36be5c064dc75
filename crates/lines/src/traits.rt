// The two traits of a kind of line: how it is stored, and how it changes.
ghost use Rattle.std.specs.Prelude.{◌≡◌, ℕ, if◌then◌else◌, Some, None};
ghost use Rattle.lines.specs.Bytes.{put, room};
ghost use Rattle.lines.specs.Changing.{Outcome, KeepsRule, answered, judged};
ghost use Rattle.lines.specs.Coding.{Coding, Lawful};

use crate::changes::Change;
use crate::faults::LineFault;

// A kind of value with a type code and a payload that has one reading. Joining images asks no more of a line.
pub trait Coded: Copy {
    ghost coding: { Coding Self };

    fn type_code() -> u8
        ensures { result ≡ coding.code };

    // How many bytes a payload has, 1 to 26.
    fn width() -> usize
        ensures { result ≡ coding.width };

    fn keeps_rule(&self) -> bool
        ensures { result ≡ coding.keeps self.now };

    // Writes the payload at the front of `out` and answers its width; none, with nothing written, where it does not fit.
    fn write_payload(&self, out: &mut [u8]) -> Option<usize>
        ensures answer { result ≡ room (coding.payload self.now) out.old }
        ensures after { out.new ≡ put (coding.payload self.now) out.old };

    // The line whose payload is `bytes`, all of them; none, if no line that keeps its rule is written so.
    fn read_payload(bytes: &[u8]) -> Option<Self>
        ensures { result ≡ coding.reading bytes.now };

    // The line, if it keeps its rule.
    fn kept(self) -> Option<Self>
        ensures { result ≡ (if coding.keeps self then Some self else None) }
    {
        self.keeps_rule().then_some(self)
    }

    ghost lawful: { Lawful coding };
}

// A kind of line that changes.
pub trait Line: Coded {
    // From the old line, a change's kind and its amount.
    ghost changed: { Self → ℕ → ℕ → Outcome Self };

    // The line after the change, or why there is none. The change's line number is only for the fault.
    fn change(&self, change: Change) -> Result<Self, LineFault>
        ensures { result ≡ answered change.line (changed self.now change.kind change.amount) };

    ghost kept: { KeepsRule Self.Coded.coding.keeps changed };
}

// The result of a change of line `number`, if there is one and it keeps its rule.
pub fn judged<C: Coded>(res: Option<C>, number: u16) -> Result<C, LineFault>
    ensures { result ≡ answered number (judged C.Coded.coding.keeps res) }
{
    res.and_then(C::kept).ok_or(LineFault::AgainstRule(number))
}
