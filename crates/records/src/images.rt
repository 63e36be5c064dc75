// The records of an image: its head, its lines and its end.
ghost use Rattle.std.specs.Prelude.{true};
ghost use Rattle.records.specs.Heads.{head_record};
ghost use Rattle.records.specs.ImageLines.{line_record};
ghost use Rattle.records.specs.Numbers.{end_record};

use crate::frames::{Kind, Record};
use crate::heads::Head;
use crate::image_lines::ImageLine;
use lines::numbers::{Number, write_front};
use lines::traits::Coded;
use std::marker::PhantomData;

pub struct HeadRecord;

impl Record for HeadRecord {
    type Value = Head;

    ghost layout = { head_record };

    ghost allowed = { λ _. true };

    fn kind() -> Kind {
        Kind::Head
    }

    fn body_len(head: &Head) -> usize {
        head.body().len()
    }

    fn write_body(head: &Head, out: &mut [u8]) -> Option<usize> {
        write_front(&head.body(), out)
    }

    fn read_body(bytes: &[u8]) -> Option<Head> {
        Head::of_body(bytes)
    }
}

// A line of the kind C, with its number. A line that breaks its rule is not to be written.
pub struct LineRecord<C> {
    line: PhantomData<C>,
}

impl<C: Coded> Record for LineRecord<C> {
    type Value = ImageLine<C>;

    ghost layout = { line_record C.Coded.coding };

    ghost allowed = { λ l. C.Coded.coding.keeps l.line };

    fn kind() -> Kind {
        Kind::Line
    }

    fn body_len(_line: &ImageLine<C>) -> usize {
        2 + C::width()
    }

    fn write_body(line: &ImageLine<C>, out: &mut [u8]) -> Option<usize> {
        line.write_body(out)
    }

    fn read_body(bytes: &[u8]) -> Option<ImageLine<C>> {
        ImageLine::of_body(bytes)
    }
}

// The end; its value is the number of line records before it.
pub struct EndRecord;

impl Record for EndRecord {
    type Value = u16;

    ghost layout = { end_record };

    ghost allowed = { λ _. true };

    fn kind() -> Kind {
        Kind::End
    }

    fn body_len(count: &u16) -> usize {
        count.to_le_bytes().len()
    }

    fn write_body(count: &u16, out: &mut [u8]) -> Option<usize> {
        count.write(out)
    }

    fn read_body(bytes: &[u8]) -> Option<u16> {
        u16::read(bytes)
    }
}
