// One pass over the records at the front of bytes.
ghost use Rattle.std.specs.Prelude.{◌≡◌, length};
ghost use Rattle.logs.specs.Logs.{spent};
ghost use Rattle.logs.specs.RecordRuns.{entries_in, byte_cost, LongestRun};

use crate::entries::Entry;
use crate::entry_records::read_entry;

// The entries of the longest run of whole lawful log records at the front of bytes, each with the length of its record.
#[derive(Drop)]
pub(crate) struct Records<'a>(pub(crate) &'a [u8]);

impl<'a> Iterator for Records<'a> {
    ghost use Rattle.std.specs.Iterator.{YieldsFirst, item_count};
    ghost use Rattle.logs.specs.Scans.{records_left};

    type Item = (Entry, usize);

    ghost next_gives = { YieldsFirst records_left };

    ghost remaining = { item_count records_left };

    #[tactic(auto, using(crate::proofs::Runs::entries_none))]
    fn next(&mut self) -> Option<(Entry, usize)> {
        let (entry, len) = read_entry(self.0)?;
        self.0 = &self.0[len..];
        Some((entry, len))
    }
}

// A run of whole lawful log records: how many, and how many bytes they take.
#[derive(Clone, Copy)]
pub struct Run {
    pub count: usize,
    pub len: usize,
}

// The longest run at the front of `bytes`.
pub fn scan(bytes: &[u8]) -> Run
    ensures count { result.count ≡ length (entries_in bytes.now) }
    ensures len { result.len ≡ spent byte_cost (entries_in bytes.now) }
    ensures longest { LongestRun bytes.now (entries_in bytes.now) }
{
    let mut run = Run { count: 0, len: 0 };
    for (_, len) in Records(bytes) {
        run.count += 1;
        run.len += len;
    }
    run
}
