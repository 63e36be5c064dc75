// Where commands run.
ghost use Rattle.std.specs.Prelude.{◌≡◌, length};

use crate::stages::Stage;
use records::commands::Command;

mod calls;

// What an open seat holds: the stage in which its command began, and the changes so far.
#[derive(Clone, Copy)]
pub struct Open {
    pub began: Stage,
    pub command: Command,
}

// Seats 0 to 15, each open or not: as many as there are, by value, since nothing is allocated. Clauses see them by `hands`; as a model it would hide of two equal keepers what their commands hold past the changes so far.
#[derive(Clone, Copy)]
pub struct Seats {
    each: [Option<Open>; 16],
    ghost sixteen: { length each ≡ 16 },
}
