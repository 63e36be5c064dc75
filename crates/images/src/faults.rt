// Why an image is turned away.
ghost use Rattle.std.specs.Prelude.{◌≡◌};
ghost use Rattle.images.specs.Faults.{unlawful_refusal};

use lines::faults::{Layer, Refusal};

// Bytes that are no image. Holds the offset of the first record that no lawful image has after those before it, or of a missing one.
#[derive(Clone, Copy, PartialEq, Eq)]
pub struct Unlawful {
    pub offset: usize,
}

impl From<Unlawful> for Refusal {
    ghost from_gives = { λ fault r. r ≡ unlawful_refusal fault };

    fn from(fault: Unlawful) -> Refusal {
        Refusal::new(6, Layer::Image, fault.offset)
    }
}
