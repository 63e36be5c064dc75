// A cell of Ping-Pong, and its rules.
ghost use Rattle.std.specs.Prelude.{◌≡◌};
ghost use Rattle.ping_pong.specs.PingPong.{ping_pong, Sound, origin, put};
ghost use Rattle.ping_pong.specs.Laws.{ping_pong-lawful};

use keepers::clocks::Clock;
use keepers::given::Given;
use keepers::pairs::Two;
use keepers::rules::{MOST_LINES, Rules};
use keepers::stages::Stage;
use lines::traits::Line;
use store::stores::Store;

// A keeper by this method.
pub type PingPong<'a, L> = Store<'a, Shadowed<L>>;

// The line with every change made; a shadow for each parity of the number of points passed, and their marks; the mark that stood before the holder's first
// change; and the line as it was when it was last given out.
#[derive(Clone, Copy)]
pub struct Shadowed<L> {
    pub live: L,
    pub shadows: Two<L>,
    pub marks: Two<bool>,
    pub was: bool,
    pub base: L,
}

impl<L: Line> Shadowed<L> {
    // Writes the live line and the shadow of that parity, whose mark becomes `mark`.
    fn put(self, odd: bool, line: L, mark: bool, was: bool) -> Shadowed<L>
        ensures { result ≡ put self odd line mark was }
    {
        Shadowed {
            live: line,
            shadows: self.shadows.with(odd, line),
            marks: self.marks.with(odd, mark),
            was,
            ..self
        }
    }

    // The line as it was at the last point, while that is still to be given out.
    fn origin(self, clock: Clock) -> L
        ensures { result ≡ origin clock self }
    {
        if self.marks.get(!clock.odd) {
            self.shadows.get(!clock.odd)
        } else {
            self.base
        }
    }
}

impl<L: Line> Rules for Shadowed<L> {
    type Line = L;

    ghost method = { ping_pong L };

    ghost sound = { Sound };

    ghost lawful = { ping_pong-lawful L };

    fn limit() -> usize {
        MOST_LINES
    }

    fn is_quiet() -> bool {
        true
    }

    fn sweeps() -> bool {
        false
    }

    fn fresh(line: L) -> Shadowed<L> {
        Shadowed {
            live: line,
            shadows: Two::both(line),
            marks: Two::both(false),
            was: false,
            base: line,
        }
    }

    fn first(self, clock: Clock, _began: Stage, line: L) -> Shadowed<L> {
        self.put(clock.odd, line, true, self.marks.get(clock.odd))
    }

    fn later(self, clock: Clock, line: L) -> Shadowed<L> {
        self.put(clock.odd, line, true, self.was)
    }

    fn commit(self, _clock: Clock, _began: Stage) -> Shadowed<L> {
        self
    }

    fn abandon(self, clock: Clock, _began: Stage, before: L) -> Shadowed<L> {
        self.put(clock.odd, before, self.was, self.was)
    }

    fn gives(self, clock: Clock) -> Given<L> {
        Given {
            line: self.origin(clock),
            named: self.marks.get(!clock.odd),
        }
    }

    fn given(self, clock: Clock) -> Shadowed<L> {
        Shadowed {
            marks: self.marks.with(!clock.odd, false),
            base: self.origin(clock),
            ..self
        }
    }

    fn pointed(self) -> Shadowed<L> {
        self
    }

    fn live(self) -> L {
        self.live
    }
}
