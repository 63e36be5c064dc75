// Why lines are not rebuilt.
ghost use Rattle.std.specs.Prelude.{◌≡◌};
ghost use Rattle.book.specs.Faults.{rebuild_refusal};

use images::faults::Unlawful;
use lines::faults::{Layer, LineFault, Refusal};

#[derive(Clone, Copy)]
pub enum RebuildFault {
    // The bytes are no lawful image.
    Image(Unlawful),
    // The image is partial; holds its point.
    Partial(u32),
    // The memory is too short; holds how many lines there are.
    Short(usize),
    // The log has no mark of the image's point, which it holds.
    NoMark(u32),
    // A logged change is refused: in which entry, and what the line answered.
    Refused(usize, LineFault),
}

impl From<RebuildFault> for Refusal {
    ghost from_gives = { λ fault r. r ≡ rebuild_refusal fault };

    // No From widens a u32 to a usize, so that a point is cast, of which the check shows that it loses nothing.
    fn from(fault: RebuildFault) -> Refusal {
        match fault {
            RebuildFault::Image(unlawful) => unlawful.into(),
            RebuildFault::Partial(point) => Refusal::new(7, Layer::Image, point as usize),
            RebuildFault::Short(lines) => Refusal::new(4, Layer::Image, lines),
            RebuildFault::NoMark(point) => Refusal::new(7, Layer::Image, point as usize),
            RebuildFault::Refused(entry, _) => Refusal::new(8, Layer::Book, entry),
        }
    }
}
