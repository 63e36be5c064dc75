// Two images are joined into one newer image.
ghost use Rattle.std.specs.Prelude.{◌≡◌, ◌+◌, ◌≤◌, length, IfSome, Ok};
ghost use Rattle.records.specs.Framing.{bytes_of};
ghost use Rattle.records.specs.ImageLines.{line_record};
ghost use Rattle.images.specs.Images.{writing, lines_bytes};
ghost use Rattle.joins.specs.Joining.{joined, join_read, within, lengthed, laid_in, JoinLaw, Grouping};
ghost use Rattle.joins.specs.Merging.{merged_left, overlay, heads_join, joined_head, Sides, WhereRead, WhereJoined, Laid};

use crate::faults::JoinFault;
use crate::merged::Merged;
use images::reader::{END_LEN, HEAD_LEN, Image, PAYLOAD_AT};
use lines::traits::Coded;
use records::frames::{Record, write_record};
use records::heads::{Head, Mode};
use records::images::{EndRecord, HeadRecord, LineRecord};

// Writes the record of a value from `at` on and answers the offset behind it; none where there is no room for it.
fn put<R: Record>(out: &mut [u8], at: usize, value: &R::Value) -> Option<usize>
    requires { at ≤ length out.old }
    ensures within { IfSome result (λ end. end ≤ length out.new) }
    ensures put { Laid (bytes_of R.layout value.now) out.old at out.new result }
{
    let len = write_record::<R>(&mut out[at..], value)?;
    Some(at + len)
}

// Two images that were read.
#[derive(Clone, Copy)]
struct Pair<'a> {
    earlier: Image<'a>,
    later: Image<'a>,
}

impl<'a> Pair<'a> {
    // Whether the later image goes on from the earlier one.
    fn heads_join(self) -> bool
        ensures { result ≡ heads_join self.entry.earlier.head self.entry.later.head }
    {
        let earlier = self.earlier.head;
        let later = self.later.head;
        earlier.n == later.n && later.mode == Mode::Partial && later.from == earlier.point
    }

    // The head of the join.
    fn head(self) -> Head
        ensures { result ≡ joined_head self.entry.earlier.head self.entry.later.head }
    {
        Head {
            point: self.later.head.point,
            ..self.earlier.head
        }
    }

    // The lines of the join.
    fn lines<C: Coded>(self) -> Merged<'a, C>
        ensures few { length (merged_left C.Coded.coding result) ≤ self.entry.earlier.count + self.entry.later.count }
        ensures lines { WhereRead C.Coded.coding self.entry (λ a b. merged_left C.Coded.coding result ≡ overlay a.lines b.lines) }
    {
        Merged {
            earlier: self.earlier.lines::<C>(),
            later: self.later.lines::<C>(),
        }
    }

    // How many lines the join has.
    fn count<C: Coded>(self) -> usize
        ensures few { result ≤ self.entry.earlier.count + self.entry.later.count }
        ensures lines { WhereJoined C.Coded.coding self.entry (λ c. result ≡ length c.lines) }
    {
        self.lines::<C>().count()
    }

    // Writes the lines of the join from `start` on, each behind the one before, and answers the offset behind them; none where
    // there is no room for one.
    fn write_lines<C: Coded>(self, out: &mut [u8], start: usize) -> Option<usize>
        requires { start ≤ length out.old }
        ensures within { IfSome result (λ end. end ≤ length out.new) }
        ensures put { WhereJoined C.Coded.coding self.entry (λ c. Laid (lines_bytes C.Coded.coding c.lines) out.old start out.new result) }
    {
        let mut at = start;
        for line in self.lines::<C>() {
            at = put::<LineRecord<C>>(out, at, &line)?;
        }
        Some(at)
    }

    // Writes the join at the front of `out` and answers its length; none where there is no room for a record. `count` is how
    // many lines it has.
    fn write<C: Coded>(self, out: &mut [u8], count: u16) -> Option<usize>
        ensures { WhereJoined C.Coded.coding self.entry (λ c. count ≡ length c.lines → Laid (writing C.Coded.coding c) out.old 0 out.new result) }
    {
        let start = put::<HeadRecord>(out, 0, &self.head())?;
        let at = self.write_lines::<C>(out, start)?;
        put::<EndRecord>(out, at, &count)
    }

    // Joins the two. A refusal writes nothing.
    fn join<C: Coded>(self, out: &mut [u8]) -> Result<usize, JoinFault>
        requires { Sides C.Coded.coding self }
        ensures answer { WhereRead C.Coded.coding self.entry (λ a b. result ≡ lengthed (within (length out.old) (join_read C.Coded.coding (Ok a) (Ok b)))) }
        ensures after { WhereRead C.Coded.coding self.entry (λ a b. out.new ≡ laid_in out.old (within (length out.old) (join_read C.Coded.coding (Ok a) (Ok b)))) }
    {
        if !self.heads_join() {
            return Err(JoinFault::Apart(self.later.head.point));
        }
        let count = self.count::<C>();
        let size = HEAD_LEN + count * (PAYLOAD_AT + C::width()) + END_LEN;
        if out.len() < size {
            return Err(JoinFault::Short(size));
        }
        // An image has few lines, so that the cast loses nothing; and now all records find room.
        self.write::<C>(out, count as u16)
            .ok_or(JoinFault::Short(size))
    }
}

// Joins an earlier image of lines of the kind C and a later one that goes on from it, into one image at the front of `out`, and answers
// its length. A refusal writes nothing.
pub fn join<C: Coded>(earlier: &[u8], later: &[u8], out: &mut [u8]) -> Result<usize, JoinFault>
    ensures answer { result ≡ lengthed (within (length out.old) (joined C.Coded.coding earlier.now later.now)) }
    ensures after { out.new ≡ laid_in out.old (within (length out.old) (joined C.Coded.coding earlier.now later.now)) }
    ensures lawful { JoinLaw C.Coded.coding earlier.now later.now result out.new }
    ensures grouping { Grouping C.Coded.coding }
{
    let earlier = Image::read::<C>(earlier).map_err(JoinFault::Earlier)?;
    let later = Image::read::<C>(later).map_err(JoinFault::Later)?;
    Pair { earlier, later }.join::<C>(out)
}
