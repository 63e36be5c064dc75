// What a log holds.
use records::commands::Command;

// A command that was committed, or the mark of a point.
#[derive(Clone, Copy, PartialEq, Eq)]
pub enum Entry {
    Command(Command),
    Mark(u32),
}
