// Why a log turns a call away.
ghost use Rattle.std.specs.Prelude.{◌≡◌};
ghost use Rattle.logs.specs.Faults.{refusal};

use lines::faults::{Layer, Refusal};

#[derive(Clone, Copy, PartialEq, Eq)]
pub enum LogFault {
    // There is no room for the entry; holds how many entries there are.
    Full(usize),
    // Bytes that are no log; holds the offset of the first record that is cut or unlawful.
    Unlawful(usize),
}

impl From<LogFault> for Refusal {
    ghost from_gives = { λ fault r. r ≡ refusal fault };

    fn from(fault: LogFault) -> Refusal {
        match fault {
            LogFault::Full(entries) => Refusal::new(26, Layer::Log, entries),
            LogFault::Unlawful(offset) => Refusal::new(6, Layer::Log, offset),
        }
    }
}
