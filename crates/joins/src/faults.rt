// Why two images are not joined.
ghost use Rattle.std.specs.Prelude.{◌≡◌};
ghost use Rattle.joins.specs.Faults.{join_refusal};

use images::faults::Unlawful;
use lines::faults::{Layer, Refusal};

#[derive(Clone, Copy, PartialEq, Eq)]
pub enum JoinFault {
    // The earlier one is no image.
    Earlier(Unlawful),
    // The later one is none.
    Later(Unlawful),
    // The later one does not go on from the earlier; holds the later's point.
    Apart(u32),
    // The memory is too short for the result; holds how many bytes that has.
    Short(usize),
}

impl From<JoinFault> for Refusal {
    ghost from_gives = { λ fault r. r ≡ join_refusal fault };

    fn from(fault: JoinFault) -> Refusal {
        match fault {
            JoinFault::Earlier(fault) | JoinFault::Later(fault) => Refusal::from(fault),
            // No From widens a u32 to a usize, so that it is a cast, of which the check shows that it loses nothing.
            JoinFault::Apart(point) => Refusal::new(7, Layer::Image, point as usize),
            JoinFault::Short(needed) => Refusal::new(4, Layer::Image, needed),
        }
    }
}
