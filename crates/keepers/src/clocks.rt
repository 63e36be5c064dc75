// What all cells share.
ghost use Rattle.std.specs.Prelude.{◌≡◌, is_ok, if◌then◌else◌};
ghost use Rattle.keepers.specs.Clocks.{start, ticked};
ghost use Rattle.keepers.specs.Stages.{stepped, verdict};

use crate::faults::KeeperFault;
use crate::stages::{Stage, Step};

// What the methods are defined by, bit by bit: the stage; whether the number of points passed is odd; and a sense that turns over at the end of each round, against which a method may read a bit of a cell.
#[derive(Clone, Copy)]
pub struct Clock {
    pub stage: Stage,
    pub odd: bool,
    pub sense: bool,
}

impl Default for Clock {
    ghost is_default = { λ clock. clock ≡ start };

    // In Rest, with no point passed.
    fn default() -> Clock {
        Clock {
            stage: Stage::Rest,
            odd: false,
            sense: false,
        }
    }
}

impl Clock {
    // One stage on, as the stage goes. On the turn from Called one more point is passed; at the end of a round the sense turns over.
    pub fn step(&mut self, step: Step) -> Result<(), KeeperFault>
        ensures answer { result ≡ verdict (stepped step self.old.stage) }
        ensures state { self.new ≡ (if is_ok result then ticked self.old else self.old) }
    {
        let was = self.stage;
        self.stage.step(step)?;
        self.odd = self.odd != (was == Stage::Called);
        self.sense = self.sense != (was == Stage::Closing);
        Ok(())
    }
}
