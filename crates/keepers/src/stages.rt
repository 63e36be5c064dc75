// The five stages, from one image to the next.
ghost use Rattle.std.specs.Prelude.{◌≡◌};
ghost use Rattle.keepers.specs.Stages.{number, stepped, settled, verdict};
ghost use Rattle.logs.specs.Logs.{Untouched};

use crate::faults::KeeperFault;

#[derive(Clone, Copy, PartialEq, Eq)]
pub enum Stage {
    Rest,
    Called,
    Pointed,
    Taking,
    Closing,
}

// What moves a stage on.
#[derive(Clone, Copy)]
pub enum Step {
    Call,
    Turn,
}

// 0 to 4, in their order.
impl From<Stage> for usize {
    ghost from_gives = { λ stage n. n ≡ number stage };

    fn from(stage: Stage) -> usize {
        match stage {
            Stage::Rest => 0,
            Stage::Called => 1,
            Stage::Pointed => 2,
            Stage::Taking => 3,
            Stage::Closing => 4,
        }
    }
}

impl Stage {
    // One stage on: a call leads out of Rest, turns lead round to it again. The machine rewrites itself in place, so that there is no stage that a caller forgets to put back.
    pub fn step(&mut self, step: Step) -> Result<(), KeeperFault>
        ensures answer { result ≡ verdict (stepped step self.old) }
        ensures state { self.new ≡ settled self.old (stepped step self.old) }
        ensures same { Untouched result self.old self.new }
    {
        match (*self, step) {
            (Stage::Rest, Step::Call) => *self = Stage::Called,
            (Stage::Called, Step::Turn) => *self = Stage::Pointed,
            (Stage::Pointed, Step::Turn) => *self = Stage::Taking,
            (Stage::Taking, Step::Turn) => *self = Stage::Closing,
            (Stage::Closing, Step::Turn) => *self = Stage::Rest,
            (Stage::Rest, Step::Turn) => return Err(KeeperFault::AtRest),
            (stage, Step::Call) => return Err(KeeperFault::NotAtRest(stage)),
        }
        Ok(())
    }
}
