// A cell of CALC, and its rules.
ghost use Rattle.std.specs.Prelude.{◌≡◌};
ghost use Rattle.calc.specs.Calc.{calc, Sound, is_done, with_live, with_done, left, let_go};
ghost use Rattle.calc.specs.Laws.{calc-lawful};

use keepers::clocks::Clock;
use keepers::given::Given;
use keepers::pairs::Two;
use keepers::rules::{MOST_LINES, Rules};
use keepers::stages::Stage;
use lines::traits::Line;
use store::stores::Store;

// A keeper by this method.
pub type Calc<'a, L> = Store<'a, Backed<L>>;

// The line with every change made; the point line, where that differs from it; a bit that tells, read against the book's sense, whether the cell is done with the point; and the named bits.
#[derive(Clone, Copy)]
pub struct Backed<L> {
    pub live: L,
    pub saved: Option<L>,
    pub done: bool,
    pub named: Two<bool>,
}

impl<L: Line> Backed<L> {
    // Whether the cell is done with the point.
    fn is_done(self, clock: Clock) -> bool
        ensures { result ≡ is_done clock self }
    {
        self.done != clock.sense
    }

    fn with_live(self, line: L) -> Backed<L>
        ensures { result ≡ with_live self line }
    {
        Backed { live: line, ..self }
    }

    fn with_done(self, clock: Clock) -> Backed<L>
        ensures { result ≡ with_done clock self }
    {
        Backed {
            done: !clock.sense,
            ..self
        }
    }

    // Whether a command that began in Called leaves a cell that is not done.
    fn is_left(self, clock: Clock, began: Stage) -> bool
        ensures { result ≡ left clock began self }
    {
        began == Stage::Called && !self.is_done(clock)
    }

    // The cell as a command leaves it that began in Called, by commit or abandon: nothing stays saved if that was before the point,
    // and behind it the cell is done.
    fn let_go(self, clock: Clock, began: Stage) -> Backed<L>
        ensures { result ≡ let_go clock began self }
    {
        if !self.is_left(clock, began) {
            return self;
        }
        match clock.stage {
            Stage::Called => Backed {
                saved: None,
                ..self
            },
            Stage::Pointed => self.with_done(clock),
            _ => self,
        }
    }
}

impl<L: Line> Rules for Backed<L> {
    type Line = L;

    ghost method = { calc L };

    ghost sound = { Sound };

    ghost lawful = { calc-lawful L };

    fn limit() -> usize {
        MOST_LINES
    }

    fn is_quiet() -> bool {
        false
    }

    fn sweeps() -> bool {
        false
    }

    fn fresh(line: L) -> Backed<L> {
        Backed {
            live: line,
            saved: None,
            done: false,
            named: Two::both(false),
        }
    }

    fn first(self, clock: Clock, began: Stage, line: L) -> Backed<L> {
        let changed = self.with_live(line);
        if self.is_done(clock) {
            return changed;
        }
        let backed = Backed {
            saved: Some(self.live),
            ..changed
        };
        match began {
            Stage::Called => backed,
            Stage::Pointed | Stage::Taking => backed.with_done(clock),
            _ => changed,
        }
    }

    fn later(self, _clock: Clock, line: L) -> Backed<L> {
        self.with_live(line)
    }

    fn commit(self, clock: Clock, began: Stage) -> Backed<L> {
        Backed {
            named: self.named.with(clock.odd, true),
            ..self.let_go(clock, began)
        }
    }

    fn abandon(self, clock: Clock, began: Stage, before: L) -> Backed<L> {
        self.let_go(clock, began).with_live(before)
    }

    fn gives(self, clock: Clock) -> Given<L> {
        let line = match self.saved {
            Some(point) if self.is_done(clock) => point,
            _ => self.live,
        };
        Given {
            line,
            named: self.named.get(!clock.odd),
        }
    }

    fn given(self, clock: Clock) -> Backed<L> {
        Backed {
            saved: self.saved.filter(|_line| !self.is_done(clock)),
            named: self.named.with(!clock.odd, false),
            ..self.with_done(clock)
        }
    }

    fn pointed(self) -> Backed<L> {
        self
    }

    fn live(self) -> L {
        self.live
    }
}
