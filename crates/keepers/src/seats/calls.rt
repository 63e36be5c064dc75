// The calls of seats.
ghost use Rattle.std.specs.Prelude.{◌≡◌, ◌<◌, ◌≤◌, replicate, None, slice_index_or, slice_set, MatchResult};
ghost use Rattle.keepers.specs.declared.faults.KeeperFault.TheVariants.{NoSuchSeat};
ghost use Rattle.keepers.specs.Calls.{lowest, awaits};
ghost use Rattle.keepers.specs.Hands.{hand_of, hands};
ghost use Rattle.keepers.specs.Stages.{awaited};

use super::{Open, Seats};
use crate::faults::KeeperFault;
use crate::stages::Stage;

const SEATS: usize = 16;

impl Default for Seats {
    ghost is_default = { λ seats. hands seats ≡ replicate 16 None };

    // All shut.
    fn default() -> Seats {
        Seats {
            each: [None; SEATS],
        }
    }
}

impl Seats {
    // What a seat holds, if it is there and open.
    pub fn get(&self, seat: u8) -> Option<Open>
        ensures { hand_of result ≡ slice_index_or (hands self.now) seat None }
    {
        self.each.get(usize::from(seat)).copied().flatten()
    }

    // The same of a seat that a caller names; there are seats 0 to 15.
    pub fn at(&self, seat: u8) -> Result<Option<Open>, KeeperFault>
        ensures { MatchResult result (λ held. (seat < 16) × (hand_of held ≡ slice_index_or (hands self.now) seat None)) (λ fault. (16 ≤ seat) × (fault ≡ NoSuchSeat seat)) }
    {
        let held = self.each.get(usize::from(seat)).copied();
        held.ok_or(KeeperFault::NoSuchSeat(seat))
    }

    // Opens or shuts a seat; one that is not there stays so. Written by index: what is written through a slice's `get_mut` is not known to the check.
    pub fn put(&mut self, seat: u8, value: Option<Open>)
        ensures { hands self.new ≡ slice_set (hands self.old) seat (hand_of value) }
    {
        let s = usize::from(seat);
        if s < SEATS {
            self.each[s] = value;
        }
    }

    // The lowest seat that a turn in this stage waits for, if there is one.
    pub fn awaited(&self, stage: Stage) -> Option<usize>
        ensures { result ≡ lowest (awaits stage) (hands self.now) }
    {
        self.each.iter().position(|seat| is_awaited(stage, *seat))
    }
}

fn is_awaited(stage: Stage, seat: Option<Open>) -> bool
    ensures { result ≡ awaits stage (hand_of seat) }
{
    seat.is_some_and(|open| waits_for(stage, open.began))
}

// Whether a turn in `stage` waits for a seat that began in `began`. By cases of the stage, as its definition has them.
fn waits_for(stage: Stage, began: Stage) -> bool
    ensures { result ≡ awaited stage began }
{
    match stage {
        Stage::Rest | Stage::Taking => false,
        Stage::Called => began != Stage::Called,
        Stage::Pointed => began == Stage::Called,
        Stage::Closing => matches!(began, Stage::Pointed | Stage::Taking),
    }
}
