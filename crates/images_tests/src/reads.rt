// Each refusal of the reader at each of its offsets, every damage of one byte, and the parts that are handed out.
use images::reader::{Image, Part};
use kinds::stocks::StockLine;
use std::test::Fail;

// A full image of two stock lines at point 1: 3 pieces with 2 reserved, and 5 with all reserved.
// The head stands at 0, the lines at 16 and 30, the end at 44.
const FULL: [u8; 50] = *b"\
    \x10\x00\x01\x00\x02\x00\x02\x00\x00\x00\x00\x00\x01\x00\x00\x00\
    \x0e\x00\x02\x00\x00\x00\x03\x00\x00\x00\x02\x00\x00\x00\
    \x0e\x00\x02\x00\x01\x00\x05\x00\x00\x00\x05\x00\x00\x00\
    \x06\x00\x03\x00\x02\x00";

// A partial image from point 1 to 2 with lines 1 and 3 of five, its records at the same offsets.
const PARTIAL: [u8; 50] = *b"\
    \x10\x00\x01\x00\x02\x01\x05\x00\x01\x00\x00\x00\x02\x00\x00\x00\
    \x0e\x00\x02\x00\x01\x00\x03\x00\x00\x00\x02\x00\x00\x00\
    \x0e\x00\x02\x00\x03\x00\x05\x00\x00\x00\x05\x00\x00\x00\
    \x06\x00\x03\x00\x02\x00";

// The offset at which bytes are refused; none, where they are an image.
fn refused_at(bytes: &[u8]) -> Option<usize> {
    Image::read::<StockLine>(bytes)
        .err()
        .map(|fault| fault.offset)
}

// The same of an image with one byte changed.
fn changed(mut image: [u8; 50], at: usize, value: u8) -> Option<usize> {
    if let Some(byte) = image.get_mut(at) {
        *byte = value;
    }
    refused_at(&image)
}

#[test]
fn heads(rt: HostRuntime) {
    assert_eq!(rt; refused_at(&[]), Some(0));
    let damaged = [
        // length, record kind, type code, mode
        (0, 17),
        (2, 2),
        (4, 1),
        (5, 2),
        // a full image from 1, and one at point 0
        (8, 1),
        (12, 0),
    ];
    for (at, value) in damaged {
        assert_eq!(rt; changed(FULL, at, value), Some(0));
    }
    // a partial image from its own point, and from a later one
    assert_eq!(rt; changed(PARTIAL, 8, 2), Some(0));
    assert_eq!(rt; changed(PARTIAL, 8, 3), Some(0));
    assert_eq!(rt; changed(PARTIAL, 8, 0), None);
}

// A book has 1,024 lines at most. The image is partial and has none of them.
#[test]
fn most_lines(rt: HostRuntime) {
    let mut image = *b"\
        \x10\x00\x01\x00\x02\x01\x00\x04\x01\x00\x00\x00\x02\x00\x00\x00\
        \x06\x00\x03\x00\x00\x00";
    assert_eq!(rt; refused_at(&image), None);
    image[6] = 1;
    assert_eq!(rt; refused_at(&image), Some(0));
}

#[test]
fn lines_of_full_images(rt: HostRuntime) {
    assert_eq!(rt; refused_at(&FULL), None);
    let damaged = [
        // another length, another record kind
        (16, 13, 16),
        (16, 15, 16),
        (32, 3, 30),
        // line 0 is skipped, line 0 comes again, line 2 of two
        (20, 1, 16),
        (34, 0, 30),
        (34, 2, 30),
        // more pieces reserved than there are
        (26, 4, 16),
        (36, 4, 30),
    ];
    for (at, value, wanted) in damaged {
        assert_eq!(rt; changed(FULL, at, value), Some(wanted));
    }
}

#[test]
fn lines_of_partial_images(rt: HostRuntime) {
    assert_eq!(rt; refused_at(&PARTIAL), None);
    let damaged = [
        // any first number, and any above the one before
        (20, 0, None),
        (34, 2, None),
        (34, 4, None),
        // the number before, one below it, and line 5 of five
        (34, 1, Some(30)),
        (34, 0, Some(30)),
        (34, 5, Some(30)),
        (20, 5, Some(16)),
    ];
    for (at, value, wanted) in damaged {
        assert_eq!(rt; changed(PARTIAL, at, value), wanted);
    }
}

#[test]
fn ends(rt: HostRuntime) {
    // length, record kind, fewer and more lines than there are
    assert_eq!(rt; changed(FULL, 44, 5), Some(44));
    assert_eq!(rt; changed(FULL, 46, 2), Some(44));
    assert_eq!(rt; changed(FULL, 48, 1), Some(44));
    assert_eq!(rt; changed(PARTIAL, 48, 3), Some(44));
    // a full image of three lines ends before its third
    assert_eq!(rt; changed(FULL, 6, 3), Some(44));
    // one byte behind the end, and a second end
    let mut longer = [0u8; 56];
    longer[0..50].copy_from_slice(&FULL);
    assert_eq!(rt; refused_at(&longer[0..51]), Some(50));
    longer[50..56].copy_from_slice(&FULL[44..50]);
    assert_eq!(rt; refused_at(&longer), Some(50));
}

// Where a record is cut that record is told, and where one is missing the length.
#[test]
fn cuts(rt: HostRuntime) {
    for len in 0usize..50 {
        let wanted = match len {
            0..16 => 0,
            16..30 => 16,
            30..44 => 30,
            _ => 44,
        };
        assert_eq!(rt; refused_at(&FULL[0..len]), Some(wanted));
        assert_eq!(rt; refused_at(&PARTIAL[0..len]), Some(wanted));
    }
}

// Where FULL is refused once a byte of it is another; none, where it is another image then.
fn full_damaged(at: usize, value: u8) -> Option<usize> {
    match (at, value) {
        // a partial image with all lines; another point
        (5, 1) | (12, 1..) | (13..16, _) => None,
        // a book with fewer lines, and with more
        (6, 0) => Some(16),
        (6, 1) => Some(30),
        (6, _) | (7, 1..4) => Some(44),
        _ => either_damaged(at, value),
    }
}

// The same of PARTIAL.
fn partial_damaged(at: usize, value: u8) -> Option<usize> {
    match (at, value) {
        // a book with more lines; another point before, another of its own
        (6, 4..) | (7, 1..4) | (8, 0) | (12, 2..) | (13..16, _) => None,
        (6, 0..2) => Some(16),
        (6, _) => Some(30),
        // another line, as long as the numbers rise
        (20, 0..3) | (34, 2..5) => None,
        (20, 3..5) => Some(30),
        _ => either_damaged(at, value),
    }
}

// What the two have in common: a damaged record is refused, but for pieces that keep the rule.
fn either_damaged(at: usize, value: u8) -> Option<usize> {
    match (at, value) {
        (0..16, _) => Some(0),
        (22, 2..) | (23, _) | (24, 0..153) | (26, 0..4) => None,
        (16..30, _) => Some(16),
        (36, 5..) | (37, _) | (38, 0..153) | (40, 0..6) => None,
        (30..44, _) => Some(30),
        _ => Some(44),
    }
}

// Every byte of an image changed to every other value.
#[test]
fn damages(rt: HostRuntime) {
    for at in 0usize..50 {
        for value in 0u8..=255 {
            if value != FULL[at] {
                assert_eq!(rt; changed(FULL, at, value), full_damaged(at, value));
            }
            if value != PARTIAL[at] {
                assert_eq!(rt; changed(PARTIAL, at, value), partial_damaged(at, value));
            }
        }
    }
}

#[test]
fn parts(rt: HostRuntime) -> Result<(), Fail> {
    let Ok(image) = Image::read::<StockLine>(&PARTIAL) else {
        return Err(Fail::new("not read"));
    };
    assert_eq!(rt; image.count, 2);
    let first = Part {
        number: 1,
        offset: 22,
        payload: &PARTIAL[22..30],
    };
    let last = Part {
        number: 3,
        offset: 36,
        payload: &PARTIAL[36..44],
    };
    assert!(rt; image.part::<StockLine>(0) == Some(first));
    assert!(rt; image.part::<StockLine>(1) == Some(last));
    assert!(rt; image.part::<StockLine>(2).is_none());
    assert!(rt; image.line::<StockLine>(2).is_none());
    let Some(last) = image.line::<StockLine>(1) else {
        return Err(Fail::new("no line"));
    };
    assert_eq!(rt; last.number, 3);
    let wanted = StockLine {
        on_hand: 5,
        reserved: 5,
    };
    assert!(rt; last.line == wanted);
    Ok(())
}

// The lines one by one, at a concrete kind.
#[test]
fn lines_in_order(rt: HostRuntime) -> Result<(), Fail> {
    let Ok(image) = Image::read::<StockLine>(&PARTIAL) else {
        return Err(Fail::new("not read"));
    };
    let numbers = image.lines::<StockLine>().map(|found| found.number);
    assert!(rt; numbers.eq([1, 3]));
    assert_eq!(rt; image.lines::<StockLine>().count(), 2);
    Ok(())
}
