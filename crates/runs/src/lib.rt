// Runs of a book, as whoever keeps the transcript sees them: definitions over events, and what is proved of them so far; see specs/.
#![tactic(auto)]

ghost use Rattle.runs.specs.Laws.{LogLaw};

use lines::traits::Line;

// Of every kind of line, setting, opening list, log and list of calls: the book goes where its transcript leads. Nothing is computed; the theorem is its contract.
pub fn log_law_stands<L: Line>() -> bool
    ensures { LogLaw L }
{
    true
}
