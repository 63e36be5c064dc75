// The byte log: records in lent memory.
ghost use Rattle.std.specs.Prelude.{◌≡◌, ◌≤◌, length, take};
ghost use Rattle.logs.specs.RecordRuns.{entries_in, written};

mod calls;

// The first `used` bytes of the memory are the log's: `count` whole records. It uses 65,536 bytes at most; what lies beyond is never touched.
// A log allocates nothing: the memory is lent, so how much of it is used stands beside it.
#[derive(Drop)]
pub struct ByteLog<'a> {
    memory: &'a mut [u8],
    used: usize,
    count: usize,
    ghost inside: { used ≤ length memory.now },
    ghost few: { used ≤ 65536 },
    ghost whole: { written (entries_in (take used memory.now)) ≡ take used memory.now },
    ghost counted: { count ≡ length (entries_in (take used memory.now)) },
}
