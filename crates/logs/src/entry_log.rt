// The entry log: whole entries in lent memory.
ghost use Rattle.std.specs.Prelude.{◌≤◌, length};

use crate::entries::Entry;

mod calls;

// The first `count` entries of the memory are the log's. It uses 4,096 at most; what lies beyond is never touched.
// A log allocates nothing: the memory is lent, so how much of it is used stands beside it.
#[derive(Drop)]
pub struct EntryLog<'a> {
    memory: &'a mut [Entry],
    count: usize,
    ghost inside: { count ≤ length memory.now },
    ghost few: { count ≤ 4096 },
}
