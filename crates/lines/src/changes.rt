// A change as a value.

// One change of one line. Which kinds there are, and what the amount counts, is the line's own affair: so the kind is a number here, and the kind of line
// converts it or refuses it.
#[derive(Clone, Copy, PartialEq, Eq)]
pub struct Change {
    pub line: u16,
    pub kind: u8,
    pub amount: u32,
}

// A number that is the code of no change of a kind of line.
#[derive(Clone, Copy, PartialEq, Eq)]
pub struct UnknownKind {
    pub code: u8,
}
