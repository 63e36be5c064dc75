// What joins give, their refusals in order, and the memory that they are made in.
use crate::wide::WideLine;
use images::faults::Unlawful;
use joins::faults::JoinFault;
use joins::join::join;
use kinds::stocks::StockLine;
use lines::traits::Coded;
use records::frames::{Record, write_record};
use records::heads::{Head, Mode};
use records::image_lines::ImageLine;
use records::images::{EndRecord, HeadRecord, LineRecord};
use std::alloc::{AllocError, Global};
use std::test::Fail;

// Room for each image of these tests but the longest.
const SIZE: usize = 120;

// An image in memory of its own: an array with its length, so that it is copied and cut like any value.
#[derive(Clone, Copy)]
struct Stored {
    memory: [u8; SIZE],
    len: usize,
}

impl Stored {
    fn bytes(&self) -> &[u8] {
        &self.memory[0..self.len.min(SIZE)]
    }

    // The image without so many of its last bytes.
    fn cut(self, by: usize) -> Stored {
        Stored {
            len: self.len.saturating_sub(by),
            ..self
        }
    }
}

// Writes a record from `at` on and answers the offset behind it.
fn put<R: Record>(out: &mut [u8], at: usize, value: &R::Value) -> Option<usize> {
    let len = write_record::<R>(out.get_mut(at..)?, value)?;
    at.checked_add(len)
}

// Writes an image, one record behind the other, and answers how many bytes it takes, if there is room. It need not be lawful.
fn write_image<C: Coded>(out: &mut [u8], head: Head, lines: &[ImageLine<C>]) -> Option<usize> {
    let mut at = put::<HeadRecord>(out, 0, &head)?;
    for line in lines {
        at = put::<LineRecord<C>>(out, at, line)?;
    }
    put::<EndRecord>(out, at, &u16::try_from(lines.len()).ok()?)
}

fn full_head<C: Coded>(n: u16, point: u32) -> Head {
    Head {
        code: C::type_code(),
        mode: Mode::Full,
        n,
        from: 0,
        point,
    }
}

fn partial_head<C: Coded>(n: u16, from: u32, point: u32) -> Head {
    Head {
        mode: Mode::Partial,
        from,
        ..full_head::<C>(n, point)
    }
}

fn made<C: Coded>(head: Head, lines: &[ImageLine<C>]) -> Stored {
    let mut memory = [0u8; SIZE];
    let len = write_image(&mut memory, head, lines).unwrap_or(0);
    Stored { memory, len }
}

fn full<C: Coded>(n: u16, point: u32, lines: &[ImageLine<C>]) -> Stored {
    made(full_head::<C>(n, point), lines)
}

fn partial<C: Coded>(n: u16, from: u32, point: u32, lines: &[ImageLine<C>]) -> Stored {
    made(partial_head::<C>(n, from, point), lines)
}

fn stock(number: u16, on_hand: u32) -> ImageLine<StockLine> {
    let line = StockLine {
        on_hand,
        reserved: 0,
    };
    ImageLine { number, line }
}

// Whether memory is as it was before a join.
fn untouched(memory: &[u8]) -> bool {
    memory.iter().all(|b| *b == 7)
}

// Two images joined; no bytes, where they are refused.
fn joined<C: Coded>(earlier: &Stored, later: &Stored) -> Stored {
    let mut memory = [7u8; SIZE];
    let len = join::<C>(earlier.bytes(), later.bytes(), &mut memory).unwrap_or(0);
    Stored { memory, len }
}

// Whether two images join into a third, with the memory behind it untouched.
fn gives<C: Coded>(earlier: &Stored, later: &Stored, wanted: &Stored) -> bool {
    let result = joined::<C>(earlier, later);
    result.bytes() == wanted.bytes() && untouched(&result.memory[result.len.min(SIZE)..])
}

// Why two images are not joined in so many bytes of memory; none, where they are, or where the memory changed.
fn refusal<C: Coded>(earlier: &Stored, later: &Stored, room: usize) -> Option<JoinFault> {
    let mut memory = [7u8; SIZE];
    let answer = join::<C>(
        earlier.bytes(),
        later.bytes(),
        &mut memory[0..room.min(SIZE)],
    );
    answer.err().filter(|_| untouched(&memory))
}

// A full image of two stock lines at point 1, a partial one from there to 2 that has the second, and the two joined: all in bytes.
const EARLIER: [u8; 50] = *b"\
    \x10\x00\x01\x00\x02\x00\x02\x00\x00\x00\x00\x00\x01\x00\x00\x00\
    \x0e\x00\x02\x00\x00\x00\x03\x00\x00\x00\x02\x00\x00\x00\
    \x0e\x00\x02\x00\x01\x00\x05\x00\x00\x00\x05\x00\x00\x00\
    \x06\x00\x03\x00\x02\x00";

const LATER: [u8; 36] = *b"\
    \x10\x00\x01\x00\x02\x01\x02\x00\x01\x00\x00\x00\x02\x00\x00\x00\
    \x0e\x00\x02\x00\x01\x00\x09\x00\x00\x00\x00\x00\x00\x00\
    \x06\x00\x03\x00\x01\x00";

const RESULT: [u8; 50] = *b"\
    \x10\x00\x01\x00\x02\x00\x02\x00\x00\x00\x00\x00\x02\x00\x00\x00\
    \x0e\x00\x02\x00\x00\x00\x03\x00\x00\x00\x02\x00\x00\x00\
    \x0e\x00\x02\x00\x01\x00\x09\x00\x00\x00\x00\x00\x00\x00\
    \x06\x00\x03\x00\x02\x00";

// Memory that is longer by ten bytes, just long enough, and one byte too short.
#[test]
fn rooms(rt: HostRuntime) {
    let mut memory = [7u8; 60];
    assert!(rt; join::<StockLine>(&EARLIER, &LATER, &mut memory) == Ok(50));
    assert!(rt; memory[0..50] == RESULT[0..50]);
    assert!(rt; untouched(&memory[50..60]));
    let mut memory = [7u8; 50];
    assert!(rt; join::<StockLine>(&EARLIER, &LATER, &mut memory) == Ok(50));
    assert!(rt; memory == RESULT);
    let mut memory = [7u8; 49];
    let answer = join::<StockLine>(&EARLIER, &LATER, &mut memory);
    assert!(rt; answer == Err(JoinFault::Short(50)));
    assert!(rt; untouched(&memory));
}

// The later line wins, and the lines of either are kept.
#[test]
fn lines_of_both(rt: HostRuntime) {
    let earlier = full(3, 1, &[stock(0, 10), stock(1, 11), stock(2, 12)]);
    let later = partial(3, 1, 4, &[stock(1, 21)]);
    let wanted = full(3, 4, &[stock(0, 10), stock(1, 21), stock(2, 12)]);
    assert!(rt; gives::<StockLine>(&earlier, &later, &wanted));
    let earlier = partial(5, 1, 2, &[stock(1, 11), stock(3, 13)]);
    let later = partial(5, 2, 3, &[stock(0, 20), stock(3, 23), stock(4, 24)]);
    let wanted = partial(
        5,
        1,
        3,
        &[stock(0, 20), stock(1, 11), stock(3, 23), stock(4, 24)],
    );
    assert!(rt; gives::<StockLine>(&earlier, &later, &wanted));
}

// One image with no line, both, and a book that has none.
#[test]
fn no_lines(rt: HostRuntime) {
    let lines = [stock(1, 11), stock(3, 13)];
    let empty = partial::<StockLine>(5, 1, 2, &[]);
    let behind = partial(5, 2, 3, &lines);
    assert!(rt; gives::<StockLine>(&empty, &behind, &partial(5, 1, 3, &lines)));
    let before = partial(5, 0, 1, &lines);
    assert!(rt; gives::<StockLine>(&before, &empty, &partial(5, 0, 2, &lines)));
    let next = partial::<StockLine>(5, 2, 9, &[]);
    let wanted = partial::<StockLine>(5, 1, 9, &[]);
    assert!(rt; gives::<StockLine>(&empty, &next, &wanted));
    let none = full::<StockLine>(0, 1, &[]);
    let later = partial::<StockLine>(0, 1, 2, &[]);
    assert!(rt; gives::<StockLine>(&none, &later, &full::<StockLine>(0, 2, &[])));
    assert!(rt; refusal::<StockLine>(&none, &later, 21) == Some(JoinFault::Short(22)));
}

// Where all is wrong the earlier image is told first, then the later, then that they are apart, then the memory.
#[test]
fn refusals_in_order(rt: HostRuntime) {
    let earlier = full(2, 1, &[stock(0, 10), stock(1, 11)]);
    let apart = partial(2, 3, 4, &[stock(1, 21)]);
    let later = partial(2, 1, 4, &[stock(1, 21)]);
    let first = refusal::<StockLine>(&earlier.cut(1), &apart.cut(1), 0);
    assert!(rt; first == Some(JoinFault::Earlier(Unlawful { offset: 44 })));
    let second = refusal::<StockLine>(&earlier, &apart.cut(1), 0);
    assert!(rt; second == Some(JoinFault::Later(Unlawful { offset: 30 })));
    assert!(rt; refusal::<StockLine>(&earlier, &apart, 0) == Some(JoinFault::Apart(4)));
    assert!(rt; refusal::<StockLine>(&earlier, &later, 0) == Some(JoinFault::Short(50)));
    assert!(rt; refusal::<StockLine>(&earlier, &later, 49) == Some(JoinFault::Short(50)));
    // the same images as ones of another kind of line
    let other = refusal::<kinds::accounts::Account>(&earlier, &later, SIZE);
    assert!(rt; other == Some(JoinFault::Earlier(Unlawful { offset: 0 })));
}

// Another number of lines, a full image for a later one, and one that goes on from before or behind the earlier's point.
#[test]
fn apart(rt: HostRuntime) {
    let earlier = partial(2, 1, 3, &[stock(0, 10)]);
    let more = partial(3, 3, 5, &[stock(0, 20)]);
    assert!(rt; refusal::<StockLine>(&earlier, &more, SIZE) == Some(JoinFault::Apart(5)));
    let whole = full(2, 6, &[stock(0, 20), stock(1, 21)]);
    assert!(rt; refusal::<StockLine>(&earlier, &whole, SIZE) == Some(JoinFault::Apart(6)));
    let before = partial(2, 2, 7, &[stock(0, 20)]);
    assert!(rt; refusal::<StockLine>(&earlier, &before, SIZE) == Some(JoinFault::Apart(7)));
    let behind = partial(2, 4, 8, &[stock(0, 20)]);
    assert!(rt; refusal::<StockLine>(&earlier, &behind, SIZE) == Some(JoinFault::Apart(8)));
    assert!(rt; refusal::<StockLine>(&whole, &earlier, SIZE) == Some(JoinFault::Apart(3)));
}

// (a b) c and a (b c), behind a full image and behind a partial one; and where c does not go on from b, neither.
#[test]
fn groupings(rt: HostRuntime) {
    let b = partial(4, 1, 2, &[stock(0, 20), stock(2, 22)]);
    let c = partial(4, 2, 5, &[stock(2, 32), stock(3, 33)]);
    let a = full(
        4,
        1,
        &[stock(0, 10), stock(1, 11), stock(2, 12), stock(3, 13)],
    );
    let wanted = full(
        4,
        5,
        &[stock(0, 20), stock(1, 11), stock(2, 32), stock(3, 33)],
    );
    assert!(rt; gives::<StockLine>(&joined::<StockLine>(&a, &b), &c, &wanted));
    assert!(rt; gives::<StockLine>(&a, &joined::<StockLine>(&b, &c), &wanted));
    let a = partial(4, 0, 1, &[stock(2, 12)]);
    let wanted = partial(4, 0, 5, &[stock(0, 20), stock(2, 32), stock(3, 33)]);
    assert!(rt; gives::<StockLine>(&joined::<StockLine>(&a, &b), &c, &wanted));
    assert!(rt; gives::<StockLine>(&a, &joined::<StockLine>(&b, &c), &wanted));
    let c = partial(4, 3, 5, &[stock(2, 32)]);
    let ab = joined::<StockLine>(&a, &b);
    assert!(rt; refusal::<StockLine>(&ab, &c, SIZE) == Some(JoinFault::Apart(5)));
    assert!(rt; refusal::<StockLine>(&b, &c, SIZE) == Some(JoinFault::Apart(5)));
}

const CEILING: u64 = 1_000_000_000_000_000_000;

fn wide(number: u16, first: u64) -> ImageLine<WideLine> {
    let line = WideLine {
        first,
        second: CEILING,
        third: CEILING,
        fourth: 9_999,
    };
    ImageLine { number, line }
}

// Line records of 32 bytes, the longest that there are.
#[test]
fn widest(rt: HostRuntime) {
    let earlier = full(2, 1, &[wide(0, 10), wide(1, 11)]);
    let later = partial(2, 1, 2, &[wide(1, CEILING)]);
    let wanted = full(2, 2, &[wide(0, 10), wide(1, CEILING)]);
    assert_eq!(rt; wanted.len, 86);
    assert!(rt; gives::<WideLine>(&earlier, &later, &wanted));
    assert!(rt; refusal::<WideLine>(&earlier, &later, 85) == Some(JoinFault::Short(86)));
    let broken = partial(2, 1, 2, &[wide(0, 20), wide(1, 1_000_000_000_000_000_001)]);
    let answer = refusal::<WideLine>(&earlier, &broken, SIZE);
    assert!(rt; answer == Some(JoinFault::Later(Unlawful { offset: 48 })));
}

// The length of an image of 1,024 lines that are as wide as can be: no image is longer.
const LONGEST: usize = 32_790;

fn longest_image(heap: Global, head: Head, first: u64) -> Result<Vec<u8>, AllocError> {
    let lines: Vec<ImageLine<WideLine>> = (0..head.n)
        .map(|number| wide(number, first))
        .collect(heap)?;
    let mut bytes = vec![in heap; 0u8; LONGEST]?;
    let _len = write_image(bytes.as_mut_slice(), head, lines.as_slice());
    Ok(bytes)
}

// Every line is in both images, so that the result has the later's.
#[test]
fn longest(rt: HostRuntime) -> Result<(), Fail> {
    let heap = rt.alloc();
    let earlier = longest_image(heap, full_head::<WideLine>(1_024, 1), 10)?;
    let later = longest_image(heap, partial_head::<WideLine>(1_024, 1, 2), 20)?;
    let wanted = longest_image(heap, full_head::<WideLine>(1_024, 2), 20)?;
    let mut memory = vec![in heap; 7u8; LONGEST]?;
    let answer = join::<WideLine>(earlier.as_slice(), later.as_slice(), memory.as_mut_slice());
    assert!(rt; answer == Ok(LONGEST));
    assert!(rt; memory.as_slice() == wanted.as_slice());
    let mut short = vec![in heap; 7u8; LONGEST - 1]?;
    let answer = join::<WideLine>(earlier.as_slice(), later.as_slice(), short.as_mut_slice());
    assert!(rt; answer == Err(JoinFault::Short(LONGEST)));
    assert!(rt; untouched(short.as_slice()));
    Ok(())
}
