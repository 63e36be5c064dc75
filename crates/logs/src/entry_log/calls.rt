// The calls of the entry log.
ghost use Rattle.std.specs.Prelude.{◌≡◌, is_ok, if◌then◌else◌, slice_set};
ghost use Rattle.logs.specs.Logs.{append, verdict, emptied, Untouched};
ghost use Rattle.logs.specs.EntryLogs.{one_each, entry_log, entry_log_lawful, opened};

use super::EntryLog;
use crate::entries::Entry;
use crate::faults::LogFault;
use crate::traits::Log;

const MOST: usize = 4096;

impl<'a> EntryLog<'a> {
    // An empty log over the memory.
    pub fn open(memory: &'a mut [Entry]) -> EntryLog<'a>
        ensures state { entry_log result ≡ opened memory.old }
        ensures memory { result.memory.now ≡ memory.old }
    {
        EntryLog { memory, count: 0 }
    }
}

impl<'a> Log for EntryLog<'a> {
    ghost cost = { one_each };

    ghost meaning = { entry_log };

    ghost lawful = { entry_log_lawful };

    #[tactic(auto, using(crate::proofs::EntrySteps::entry_steps))]
    fn append(&mut self, entry: Entry) -> Result<(), LogFault>
        ensures answer { result ≡ verdict one_each (entry_log self.old) entry }
        ensures state { entry_log self.new ≡ append one_each (entry_log self.old) entry }
        ensures same { Untouched result self.old self.new }
        ensures memory { self.new.memory.now ≡ (if is_ok result then slice_set self.old.memory.now self.old.count entry else self.old.memory.now) }
    {
        let at = self.count;
        if at >= self.memory.len().min(MOST) {
            return Err(LogFault::Full(at));
        }
        self.memory[at] = entry;
        self.count = at + 1;
        Ok(())
    }

    fn empty(&mut self)
        ensures state { entry_log self.new ≡ emptied (entry_log self.old) }
        ensures memory { self.new.memory.now ≡ self.old.memory.now }
    {
        self.count = 0;
    }

    fn get(&self, i: usize) -> Option<Entry> {
        self.memory[..self.count].get(i).copied()
    }

    fn count(&self) -> usize {
        self.count
    }
}
