// What all methods of keeping share: seats, holds, before lines, and the walk over a command's lines.
#![tactic(auto)]

pub mod cells;
pub mod stores;
