// An image is read in one pass, and then hands out its lines.
ghost use Rattle.std.specs.Prelude.{◌≡◌, ◌+◌, ◌^◌, ◌<◌, ◌≤◌, length, drop};
ghost use Rattle.std.specs.List.{slice_get};
ghost use Rattle.std.specs.Option.{option_map};
ghost use Rattle.images.specs.Parts.{WhereLawful, seen, outlined, handed, handing, part_of, line_in_part};
ghost use Rattle.images.specs.Walks.{lines_at, lines_left};
ghost use Rattle.images.specs.Reading.{head_allowed, in_turn, end_of, lines_from, counted, reading, OneImage};

use crate::faults::Unlawful;
use crate::line_walk::Lines;
use lines::numbers::Number;
use lines::traits::Coded;
use records::frames::read_record;
use records::heads::{Head, Mode};
use records::image_lines::ImageLine;
use records::images::{EndRecord, HeadRecord, LineRecord};
use std::marker::PhantomData;

// No book has more lines.
const MOST: u16 = 1024;

// The length of a head record, where in a line record the payload begins, and the length of an end record.
pub const HEAD_LEN: usize = 16;

pub const PAYLOAD_AT: usize = 6;

pub const END_LEN: usize = 6;

// An image that was read, by what its head says and how many lines it has, so that line k is found without another pass.
#[derive(Clone, Copy)]
pub struct Image<'a> {
    pub bytes: &'a [u8],
    pub head: Head,
    pub count: u16,
}

// A line's payload as a part of the image, and the offset at which it stands there.
#[derive(Clone, Copy, PartialEq, Eq)]
pub struct Part<'a> {
    pub number: u16,
    pub offset: usize,
    pub payload: &'a [u8],
}

impl<'a> Image<'a> {
    // Reads an image of lines of the kind C, in one pass.
    pub fn read<C: Coded>(bytes: &'a [u8]) -> Result<Image<'a>, Unlawful>
        ensures answer { seen result ≡ outlined C.Coded.coding bytes.now (reading C.Coded.coding bytes.now) }
        ensures one { OneImage C.Coded.coding bytes.now }
    {
        match read_record::<HeadRecord>(bytes) {
            Some((head, len)) if head_allowed::<C>(head) => {
                let count = count_lines::<C>(bytes, head, len)?;
                Ok(Image { bytes, head, count })
            }
            _ => Err(Unlawful { offset: 0 }),
        }
    }

    // The part of line k, counted from 0 as the lines stand in the image.
    pub fn part<C: Coded>(self, k: usize) -> Option<Part<'a>>
        ensures answer { option_map handed result ≡ part_of C.Coded.coding self.entry.bytes.now self.entry.count k }
        ensures lawful { WhereLawful C.Coded.coding self.entry (λ c. option_map handed result ≡ option_map (handing C.Coded.coding k) (slice_get c.lines k)) }
    {
        if k >= usize::from(self.count) {
            return None;
        }
        let len = PAYLOAD_AT + C::width();
        let at = HEAD_LEN + k * len;
        let line = self.bytes.get(at..at + len)?;
        Some(Part {
            number: u16::read(&line[4..PAYLOAD_AT])?,
            offset: at + PAYLOAD_AT,
            payload: &line[PAYLOAD_AT..],
        })
    }

    // Line k itself: its part goes on to the kind's reader.
    pub fn line<C: Coded>(self, k: usize) -> Option<ImageLine<C>>
        ensures answer { result ≡ line_in_part C.Coded.coding (part_of C.Coded.coding self.entry.bytes.now self.entry.count k) }
        ensures lawful { WhereLawful C.Coded.coding self.entry (λ c. result ≡ slice_get c.lines k) }
    {
        let part = self.part::<C>(k)?;
        let line = C::read_payload(part.payload)?;
        Some(ImageLine {
            number: part.number,
            line,
        })
    }

    // All lines, in order.
    pub fn lines<C: Coded>(self) -> Lines<'a, C>
        ensures answer { lines_left C.Coded.coding result ≡ lines_at C.Coded.coding self.entry.bytes.now self.entry.count self.entry.count 0 }
        ensures lawful { WhereLawful C.Coded.coding self.entry (λ c. lines_left C.Coded.coding result ≡ c.lines) }
    {
        Lines {
            image: self,
            passed: 0,
            kind: PhantomData,
        }
    }
}

// Whether a lawful image can begin so.
fn head_allowed<C: Coded>(head: Head) -> bool
    ensures { result ≡ head_allowed C.Coded.coding head }
{
    let from_allowed = match head.mode {
        Mode::Full => head.from == 0,
        Mode::Partial => head.from < head.point,
    };
    head.code == C::type_code() && head.n <= MOST && head.point >= 1 && from_allowed
}

// Whether the line of that number can come next; `low` is the number behind the last one.
fn in_turn(head: Head, low: u16, number: u16) -> bool
    ensures { result ≡ in_turn head low number }
{
    let follows = match head.mode {
        Mode::Full => number == low,
        Mode::Partial => number >= low,
    };
    number < head.n && follows
}

// Whether an image can end at `at`, after `count` lines, and does; `rest` is what it holds from there on.
fn check_end(rest: &[u8], head: Head, count: u16, at: usize) -> Result<(), Unlawful>
    requires { at + length rest.now < 2 ^ 64 }
    ensures { result ≡ end_of head count at rest.now }
{
    let all_there = head.mode == Mode::Partial || count == head.n;
    match read_record::<EndRecord>(rest) {
        Some((told, len)) if told == count && all_there => {
            if len == rest.len() {
                Ok(())
            } else {
                Err(Unlawful { offset: at + len })
            }
        }
        _ => Err(Unlawful { offset: at }),
    }
}

// How many lines there are from `start` on, up to a lawful end.
fn count_lines<C: Coded>(bytes: &[u8], head: Head, start: usize) -> Result<u16, Unlawful>
    requires inside { start ≤ length bytes.now }
    requires few { head.n ≤ 1024 }
    ensures { result ≡ counted (lines_from C.Coded.coding head head.n 0 0 start (drop start bytes.now)) }
{
    // A loop with what it has passed beside it, since each line is judged by the number before it, and a refusal is told by the offset.
    let mut offset = start;
    let mut low = 0;
    let mut count = 0;
    while let Some((line, len)) = read_record::<LineRecord<C>>(&bytes[offset..]) {
        if !in_turn(head, low, line.number) {
            return Err(Unlawful { offset });
        }
        low = line.number + 1;
        count += 1;
        offset += len;
    }
    check_end(&bytes[offset..], head, count, offset)?;
    Ok(count)
}
