// Why a keeper turns a call away.
ghost use Rattle.std.specs.Prelude.{◌≡◌};
ghost use Rattle.keepers.specs.declared.faults.KeeperFault.TheVariants.{Line as OfLine};
ghost use Rattle.keepers.specs.Faults.{refusal};

use crate::stages::Stage;
use lines::faults::{Layer, LineFault, Refusal};

#[derive(Clone, Copy)]
pub enum KeeperFault {
    // There are sixteen seats, 0 to 15; holds the seat.
    NoSuchSeat(u8),
    // Begin in a seat that is open.
    SeatOpen(u8),
    // Change, commit or abandon in a seat that is not open.
    SeatNotOpen(u8),
    // The line is held by another seat; holds the line.
    Held(u16),
    // A seat has four changes at most.
    FifthChange(u8),
    // A quiet keeper begins nothing in Called; holds the seat.
    Quiet(u8),
    // A call outside Rest.
    NotAtRest(Stage),
    // A turn waits for this seat, the lowest such.
    WaitsForSeat(usize),
    // A turn waits until so many lines are given out.
    WaitsForLines(usize),
    // A turn in Rest.
    AtRest,
    // What the line itself answers.
    Line(LineFault),
}

impl From<LineFault> for KeeperFault {
    ghost from_gives = { λ fault r. r ≡ OfLine fault };

    fn from(value: LineFault) -> KeeperFault {
        KeeperFault::Line(value)
    }
}

impl From<KeeperFault> for Refusal {
    ghost from_gives = { λ fault r. r ≡ refusal fault };

    fn from(fault: KeeperFault) -> Refusal {
        match fault {
            KeeperFault::NoSuchSeat(seat) => Refusal::new(1, Layer::Book, usize::from(seat)),
            KeeperFault::SeatOpen(seat) => Refusal::new(20, Layer::Keeper, usize::from(seat)),
            KeeperFault::SeatNotOpen(seat) => Refusal::new(21, Layer::Keeper, usize::from(seat)),
            KeeperFault::Held(line) => Refusal::new(22, Layer::Keeper, usize::from(line)),
            KeeperFault::FifthChange(seat) => Refusal::new(23, Layer::Keeper, usize::from(seat)),
            KeeperFault::Quiet(seat) => Refusal::new(25, Layer::Keeper, usize::from(seat)),
            KeeperFault::NotAtRest(stage) => Refusal::new(27, Layer::Book, usize::from(stage)),
            KeeperFault::WaitsForSeat(seat) => Refusal::new(28, Layer::Keeper, seat),
            KeeperFault::WaitsForLines(lines) => Refusal::new(28, Layer::Keeper, lines),
            KeeperFault::AtRest => Refusal::new(29, Layer::Book, 0),
            KeeperFault::Line(fault) => Refusal::from(fault),
        }
    }
}
