// Making a command, change by change, and looking into it.
ghost use Rattle.std.specs.Prelude.{◌≡◌, false, [], length, nat_lt, is_ok};
ghost use Rattle.std.specs.List.{slice_get};
ghost use Rattle.records.specs.declared.commands.Command.{Command as AnyCommand};
ghost use Rattle.records.specs.Commands.{changes_of, pushed};

use super::{Command, CommandFull};
use lines::changes::Change;

// How many changes a command may have.
const MOST: usize = 4;

const NO_CHANGE: Change = Change {
    line: 0,
    kind: 0,
    amount: 0,
};

impl Command {
    // The command with no change. A default's promise could say it too, and would read longer at each call.
    pub fn new() -> Command
        ensures { changes_of result ≡ [] }
    {
        Command {
            changes: [NO_CHANGE; 4],
            len: 0,
        }
    }

    // Adds a change at the end; or there are four, and nothing is added.
    pub fn push(&mut self, change: Change) -> Result<(), CommandFull>
        ensures answer { is_ok result ≡ nat_lt (length (changes_of self.old)) 4 }
        ensures after { changes_of self.new ≡ pushed (changes_of self.old) change }
        ensures refused { is_ok result ≡ false → self.new ≡ self.old }
    {
        if self.len >= MOST {
            return Err(CommandFull);
        }
        self.changes[self.len] = change;
        self.len += 1;
        Ok(())
    }

    pub fn len(&self) -> usize
        ensures { result ≡ length (changes_of self.now) }
    {
        self.as_slice().len()
    }

    // The change at a place, if there is one.
    pub fn get(&self, i: usize) -> Option<Change>
        ensures { result ≡ slice_get (changes_of self.now) i }
    {
        self.as_slice().get(i).copied()
    }

    // The changes in order. Commands with the same changes are equal values.
    pub fn as_slice(&self) -> &[Change]
        ensures changes { result.now ≡ changes_of self.now }
        ensures alone { (c : AnyCommand) → changes_of c ≡ result.now → c ≡ self.now }
    {
        &self.changes[0..self.len]
    }
}
