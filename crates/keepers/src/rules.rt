// The rules of one cell, which are all that the methods of keeping differ in.
ghost use Rattle.std.specs.Prelude.{◌≡◌, Bool, Option as Perhaps};
ghost use Rattle.keepers.specs.declared.clocks.Clock.{Clock as AnyClock};
ghost use Rattle.keepers.specs.declared.stages.Stage.{Stage as AnyStage};
ghost use Rattle.keepers.specs.Methods.{Method, Lawful};

use crate::clocks::Clock;
use crate::given::Given;
use crate::stages::Stage;
use lines::traits::Line;

// The most lines that a method may keep; each says for itself how many it does.
pub const MOST_LINES: usize = 1024;

// What a cell keeps of its line beside its holder and its before line, and the method's rules on it. A rule takes of clock and stage of beginning what its definition takes,
// which for most is the clock alone.
pub trait Rules: Copy {
    type Line: Line;

    ghost method: { Method Self.Line Self };

    // What the rules rely on in a cell, and keep: see `Lawful`.
    ghost sound: { AnyClock → Bool → Perhaps AnyStage → Self.Line → Self → Type 0 };

    // The most lines that the method keeps.
    fn limit() -> usize
        ensures { result ≡ method.limit };

    // Whether it refuses begin in Called.
    fn is_quiet() -> bool
        ensures { result ≡ method.quiet };

    // Whether the point writes cells.
    fn sweeps() -> bool
        ensures { result ≡ method.sweeps };

    // A cell at opening.
    fn fresh(line: Self::Line) -> Self
        ensures { result ≡ method.fresh line };

    // A command's first change of the line, to `line`; the command began in `began`.
    fn first(self, clock: Clock, began: Stage, line: Self::Line) -> Self
        ensures { result ≡ method.first clock began self line };

    // Its further changes of that line.
    fn later(self, clock: Clock, line: Self::Line) -> Self
        ensures { result ≡ method.later clock self line };

    // The command that holds the line is committed.
    fn commit(self, clock: Clock, began: Stage) -> Self
        ensures { result ≡ method.commit clock began self };

    // It is abandoned; `before` is the line as it was.
    fn abandon(self, clock: Clock, began: Stage, before: Self::Line) -> Self
        ensures { result ≡ method.abandon clock began self before };

    // What giving out answers.
    fn gives(self, clock: Clock) -> Given<Self::Line>
        ensures { result ≡ method.gives clock self };

    // The cell after it.
    fn given(self, clock: Clock) -> Self
        ensures { result ≡ method.given clock self };

    // The cell at the point.
    fn pointed(self) -> Self
        ensures { result ≡ method.pointed self };

    // The line with every change made.
    fn live(self) -> Self::Line
        ensures { result ≡ method.live self };

    ghost lawful: { Lawful method sound };
}
