// Entries as records.
ghost use Rattle.std.specs.Prelude.{◌≡◌, ◌≤◌, true, length, IfSome};
ghost use Rattle.lines.specs.Bytes.{put, room};
ghost use Rattle.logs.specs.RecordRuns.{byte_cost, entry_bytes, entry_fits, read_entry};

use crate::entries::Entry;
use records::entries::{CommandRecord, MarkRecord};
use records::frames::{read_record, write_record};

// Writes the entry's record at the front of `out` and answers its length; none, with nothing written, where it does not fit.
pub fn write_entry(out: &mut [u8], entry: Entry) -> Option<usize>
    ensures answer { result ≡ room (entry_bytes entry) out.old }
    ensures after { out.new ≡ put (entry_bytes entry) out.old }
    ensures fits { entry_fits entry ≡ true }
{
    match entry {
        Entry::Command(command) => write_record::<CommandRecord>(out, &command),
        Entry::Mark(point) => write_record::<MarkRecord>(out, &point),
    }
}

// The entry whose record `bytes` begin with, and the record's length.
#[tactic(auto, unfolding(crate::specs::RecordRuns::read_entry))]
pub fn read_entry(bytes: &[u8]) -> Option<(Entry, usize)>
    ensures answer { result ≡ read_entry bytes.now }
    ensures len { IfSome result (λ p. p.1 ≡ byte_cost p.0) }
    ensures inside { IfSome result (λ p. p.1 ≤ length bytes.now) }
{
    if let Some((command, len)) = read_record::<CommandRecord>(bytes) {
        return Some((Entry::Command(command), len));
    }
    let (point, len) = read_record::<MarkRecord>(bytes)?;
    Some((Entry::Mark(point), len))
}
