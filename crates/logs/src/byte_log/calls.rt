// The calls of the byte log.
ghost use Rattle.std.specs.Prelude.{◌≡◌, ℕ, ◌≤◌, min, take, is_ok, if◌then◌else◌, Some, None};
ghost use Rattle.lines.specs.Bytes.{overwritten};
ghost use Rattle.logs.specs.ByteLaws.{byte_log-lawful};
ghost use Rattle.logs.specs.ByteLogs.{byte_capacity, byte_log, opened, checked, fitting};
ghost use Rattle.logs.specs.Logs.{append, verdict, emptied, Untouched};
ghost use Rattle.logs.specs.RecordRuns.{byte_cost, entry_bytes};

use super::ByteLog;
use crate::entries::Entry;
use crate::entry_records::write_entry;
use crate::faults::LogFault;
use crate::scans::{Records, scan};
use crate::traits::Log;

const MOST: usize = 65_536;

// The first `u` bytes of the memory, of which a log may use 65,536 at most.
fn usable(memory: &[u8], u: usize) -> &[u8]
    ensures { result.now ≡ take (min u (byte_capacity memory.now)) memory.now }
{
    &memory[..u.min(memory.len()).min(MOST)]
}

impl<'a> ByteLog<'a> {
    // How many entries the first `u` bytes hold, or where they are no log. `u` is cut to the capacity.
    pub fn check(memory: &[u8], u: usize) -> Result<usize, LogFault>
        ensures { result ≡ checked memory.now u }
    {
        let bytes = usable(memory, u);
        let run = scan(bytes);
        if run.len == bytes.len() {
            Ok(run.count)
        } else {
            Err(LogFault::Unlawful(run.len))
        }
    }

    // A log over the memory. It holds the longest run of whole lawful log records at the front of the first `u` bytes.
    pub fn open(memory: &'a mut [u8], u: usize) -> ByteLog<'a>
        ensures state { byte_log result ≡ opened memory.old u }
        ensures memory { result.memory.now ≡ memory.old }
    {
        let run = scan(usable(memory, u));
        ByteLog {
            memory,
            used: run.len,
            count: run.count,
        }
    }

    // How many bytes the records take. Opened again over the same memory and this length, the log holds the same entries;
    // and cut at any byte before, just those whose records lie wholly before the cut.
    pub fn len(&self) -> usize
        ensures value { result ≡ self.now.used }
        ensures reopens { opened self.now.memory.now result ≡ byte_log self.now }
        ensures cuts { (u : ℕ) → u ≤ result → (opened self.now.memory.now u).entries ≡ fitting u (byte_log self.now).entries }
    {
        self.bytes().len()
    }

    // The bytes that are used: the log's records.
    fn bytes(&self) -> &[u8]
        ensures { result.now ≡ take self.now.used self.now.memory.now }
    {
        &self.memory[..self.used]
    }
}

impl<'a> Log for ByteLog<'a> {
    ghost cost = { byte_cost };

    ghost meaning = { byte_log };

    ghost lawful = { byte_log-lawful };

    fn append(&mut self, entry: Entry) -> Result<(), LogFault>
        ensures answer { result ≡ verdict byte_cost (byte_log self.old) entry }
        ensures state { byte_log self.new ≡ append byte_cost (byte_log self.old) entry }
        ensures same { Untouched result self.old self.new }
        ensures memory { self.new.memory.now ≡ (if is_ok result then overwritten self.old.memory.now self.old.used (entry_bytes entry) else self.old.memory.now) }
    {
        let end = self.memory.len().min(MOST);
        let Some(len) = write_entry(&mut self.memory[self.used..end], entry) else {
            return Err(LogFault::Full(self.count));
        };
        self.used += len;
        self.count += 1;
        Ok(())
    }

    #[tactic(auto, unfolding(crate::specs::RecordRuns::entries_in))]
    fn empty(&mut self)
        ensures state { byte_log self.new ≡ emptied (byte_log self.old) }
        ensures memory { self.new.memory.now ≡ self.old.memory.now }
    {
        self.used = 0;
        self.count = 0;
    }

    fn get(&self, i: usize) -> Option<Entry> {
        let (entry, _) = Records(self.bytes()).nth(i)?;
        Some(entry)
    }

    fn count(&self) -> usize {
        self.count
    }
}
