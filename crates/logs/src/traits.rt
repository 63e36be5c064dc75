// The log as an interface.
ghost use Rattle.std.specs.Prelude.{◌≡◌, ℕ, length};
ghost use Rattle.std.specs.List.{slice_get};
ghost use Rattle.logs.specs.declared.entries.Entry.{Entry as AnyEntry};
ghost use Rattle.logs.specs.Logs.{Log as LogMeaning, Lawful, append, verdict, emptied, Untouched};

use crate::entries::Entry;
use crate::faults::LogFault;

// A list of entries, oldest first, with a capacity. Each entry costs some of it.
pub trait Log {
    ghost cost: { AnyEntry → ℕ };

    ghost meaning: { Self → LogMeaning };

    // What each make of log owes.
    ghost lawful: { Lawful cost meaning };

    // Adds an entry at the end, or refuses it where it does not fit.
    fn append(&mut self, entry: Entry) -> Result<(), LogFault>
        ensures answer { result ≡ verdict cost (meaning self.old) entry }
        ensures state { meaning self.new ≡ append cost (meaning self.old) entry }
        ensures same { Untouched result self.old self.new };

    // Drops all entries, and writes no memory.
    fn empty(&mut self)
        ensures state { meaning self.new ≡ emptied (meaning self.old) };

    // The entry at place i, from 0, if there is one.
    fn get(&self, i: usize) -> Option<Entry>
        ensures { result ≡ slice_get (meaning self.now).entries i };

    fn count(&self) -> usize
        ensures { result ≡ length (meaning self.now).entries };
}
