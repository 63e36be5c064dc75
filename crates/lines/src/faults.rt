// Why a change is turned away, and what a caller is told of any refusal.
ghost use Rattle.std.specs.Prelude.{◌≡◌, Some};
ghost use Rattle.lines.specs.Faults.{refusal, told, layer_name, refusal_text};

use std::fmt;

// Which part of the engine turned a call away.
#[derive(Clone, Copy)]
pub enum Layer {
    Book,
    Keeper,
    Line,
    Image,
    Log,
}

impl fmt::Display for Layer {
    ghost output = { λ layer. Some (layer_name layer) };

    fn fmt<W: fmt::Write>(&self, f: &mut fmt::Formatter<W>) -> fmt::Result {
        f.write_str(match self {
            Layer::Book => "book",
            Layer::Keeper => "keeper",
            Layer::Line => "line",
            Layer::Image => "image",
            Layer::Log => "log",
        })
    }
}

// A refusal as a support desk hears it, one for all layers: so its number is a number, and the enum of each layer's faults converts to it. What `place` counts
// (a seat, a line, an offset) goes with the number.
#[derive(Clone, Copy)]
pub struct Refusal {
    pub number: u8,
    pub layer: Layer,
    pub place: usize,
}

impl Refusal {
    pub fn new(number: u8, layer: Layer, place: usize) -> Refusal
        ensures { result ≡ told number layer place }
    {
        Refusal {
            number,
            layer,
            place,
        }
    }
}

// The number, the layer and the place.
impl fmt::Display for Refusal {
    ghost output = { λ r. Some (refusal_text r) };

    fn fmt<W: fmt::Write>(&self, f: &mut fmt::Formatter<W>) -> fmt::Result {
        write!(f, "{} {} {}", self.number, self.layer, self.place)
    }
}

// Why a change is refused; each holds the number of the line that the change names.
#[derive(Clone, Copy, PartialEq, Eq)]
pub enum LineFault {
    // There is no line of that number.
    NoSuchLine(u16),
    // The kind of line has no such change.
    UnknownChange(u16),
    // The result would break the line's rule, or make a number negative that cannot be.
    AgainstRule(u16),
}

impl From<LineFault> for Refusal {
    ghost from_gives = { λ fault r. r ≡ refusal fault };

    fn from(fault: LineFault) -> Refusal {
        match fault {
            LineFault::NoSuchLine(line) => Refusal::new(2, Layer::Book, usize::from(line)),
            LineFault::UnknownChange(line) => Refusal::new(5, Layer::Line, usize::from(line)),
            LineFault::AgainstRule(line) => Refusal::new(24, Layer::Line, usize::from(line)),
        }
    }
}
