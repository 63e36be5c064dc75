// The keeper as an interface.
ghost use Rattle.std.specs.Prelude.{◌≡◌, ℕ, ◌≤◌, Bool, List, length, take, drop};
ghost use Rattle.std.specs.Option.{option_map};
ghost use Rattle.records.specs.Commands.{changes_of};
ghost use Rattle.logs.specs.Logs.{Untouched};
ghost use Rattle.keepers.specs.Calls.{begins, changes, commits, abandons, looks, calls, turns, gives, waiting, Unmoved};
ghost use Rattle.keepers.specs.Meanings.{Meaning, at_seat, size, opened};

use crate::faults::KeeperFault;
use crate::given::Given;
use crate::stages::Stage;
use lines::changes::Change;
use lines::traits::Line;
use records::commands::Command;

// Holds lines while commands run in sixteen seats and the lines of a point are given out.
//
// A keeper of which nothing is known is safe to call, and a refusal leaves it as it was. What a call answers and means is said of a valid one: a new keeper is valid, and every call keeps it so.
//
// The clauses `same` and `spare` stand at each call and not in one word for both: a caller cites either alone, and the word would only send its reader to another file.
pub trait Keeper<'a>: Sized {
    type Line: Line;

    // What the keeper holds of one line, in memory that is lent to it.
    type Cell: Copy;

    ghost limit: { ℕ };

    ghost quiet: { Bool };

    ghost meaning: { Self → Meaning Self.Line };

    ghost blank: { Self.Line → Self.Cell };

    // The lent memory past the lines, which no call touches.
    ghost spare: { Self → List Self.Cell };

    ghost Valid: { Self → Type 0 };

    // The most lines that such a keeper holds, at most 1,024.
    fn limit() -> usize
        ensures value { result ≡ limit }
        ensures most { result ≤ 1024 };

    // Whether it refuses begin in Called.
    fn is_quiet() -> bool
        ensures { result ≡ quiet };

    // A cell to make memory of. Opening writes those that it uses anew.
    fn blank(line: Self::Line) -> Self::Cell
        ensures { result ≡ blank line };

    // A keeper of the opening list's first lines: as many as the list's lawful front, the memory and the limit allow.
    fn open(opening: &[Self::Line], memory: &'a mut [Self::Cell]) -> Self
        ensures valid { Valid result }
        ensures state { meaning result ≡ opened (take (size Self.Line.Coded.coding.keeps opening.now (length memory.old) limit) opening.now) }
        ensures spare { spare result ≡ drop (size Self.Line.Coded.coding.keeps opening.now (length memory.old) limit) memory.old };

    // Opens a seat.
    fn begin(&mut self, seat: u8) -> Result<(), KeeperFault>
        ensures state { Valid self.old → Valid self.new × (begins quiet seat (meaning self.old) ≡ (result, meaning self.new)) }
        ensures same { Untouched result self.old self.new }
        ensures spare { spare self.new ≡ spare self.old };

    // Changes a line at once, for this seat alone, and holds it for the seat.
    fn change(&mut self, seat: u8, change: Change) -> Result<(), KeeperFault>
        ensures state { Valid self.old → Valid self.new × (changes Self.Line.Line.changed seat change (meaning self.old) ≡ (result, meaning self.new)) }
        ensures same { Untouched result self.old self.new }
        ensures spare { spare self.new ≡ spare self.old };

    // Makes the seat's changes last, and shuts it.
    fn commit(&mut self, seat: u8) -> Result<(), KeeperFault>
        ensures state { Valid self.old → Valid self.new × (commits Self.Line.Line.changed seat (meaning self.old) ≡ (result, meaning self.new)) }
        ensures same { Untouched result self.old self.new }
        ensures spare { spare self.new ≡ spare self.old };

    // Puts the seat's lines back, and shuts it.
    fn abandon(&mut self, seat: u8) -> Result<(), KeeperFault>
        ensures state { Valid self.old → Valid self.new × (abandons seat (meaning self.old) ≡ (result, meaning self.new)) }
        ensures same { Untouched result self.old self.new }
        ensures spare { spare self.new ≡ spare self.old };

    // Leads out of Rest.
    fn call(&mut self) -> Result<(), KeeperFault>
        ensures state { Valid self.old → Valid self.new × (calls (meaning self.old) ≡ (result, meaning self.new)) }
        ensures same { Untouched result self.old self.new }
        ensures spare { spare self.new ≡ spare self.old };

    // One stage on, or refused while it waits.
    fn turn(&mut self) -> Result<(), KeeperFault>
        ensures state { Valid self.old → Valid self.new × (turns (meaning self.old) ≡ (result, meaning self.new)) }
        ensures same { Untouched result self.old self.new }
        ensures spare { spare self.new ≡ spare self.old };

    // Gives out the next point line; none outside Taking or past the last.
    fn give(&mut self) -> Option<Given<Self::Line>>
        ensures state { Valid self.old → Valid self.new × (gives (meaning self.old) ≡ (result, meaning self.new)) }
        ensures same { Unmoved result self.old self.new }
        ensures spare { spare self.new ≡ spare self.old };

    // A line with committed changes only.
    fn look(&self, line: u16) -> Result<Self::Line, KeeperFault>
        ensures { Valid self.now → result ≡ looks line (meaning self.now) };

    // How many lines there are.
    fn count(&self) -> usize
        ensures { result ≡ length (meaning self.now).lines };

    fn stage(&self) -> Stage
        ensures { result ≡ (meaning self.now).stage };

    // The command of a seat so far, if it is open.
    fn command(&self, seat: u8) -> Option<Command>
        ensures { option_map changes_of result ≡ option_map (λ h. h.changes) (at_seat (meaning self.now) seat) };

    // What a turn waits for, if it does: the fault that it is refused with.
    fn waits(&self) -> Option<KeeperFault>
        ensures { Valid self.now → result ≡ waiting (meaning self.now) };
}
