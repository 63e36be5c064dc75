// A cell of Zigzag, and its rules.
ghost use Rattle.std.specs.Prelude.{◌≡◌};
ghost use Rattle.zigzag.specs.Zigzag.{with_copy, changed, zigzag, IsSound};
ghost use Rattle.std.proofs.Common.{rules};

use keepers::clocks::Clock;
use keepers::given::Given;
use keepers::pairs::Two;
use keepers::rules::{MOST_LINES, Rules};
use keepers::stages::Stage;
use lines::traits::Line;
use store::stores::Store;

// Copies 0 and 1 of a line, as `even` and `odd`; the bit MR, which copy is read; the bit MW, which copy a change writes; and the two named bits. A bit is 1 where it is true.
#[derive(Clone, Copy)]
pub struct Twin<L> {
    pub copies: Two<L>,
    pub mr: bool,
    pub mw: bool,
    pub named: Two<bool>,
}

// A keeper by this method.
pub type Zigzag<'a, L> = Store<'a, Twin<L>>;

impl<L: Line> Twin<L> {
    // The cell with a line written into copy MW.
    fn written(self, line: L) -> Twin<L>
        ensures { result ≡ with_copy self self.mw line }
    {
        Twin {
            copies: self.copies.with(self.mw, line),
            ..self
        }
    }

    fn changed(self, line: L) -> Twin<L>
        ensures { result ≡ changed self line }
    {
        Twin {
            mr: self.mw,
            ..self.written(line)
        }
    }
}

impl<L: Line> Rules for Twin<L> {
    type Line = L;

    ghost method = { zigzag };

    ghost sound = { IsSound };

    ghost lawful = { Prim.search rules };

    fn limit() -> usize {
        MOST_LINES
    }

    fn is_quiet() -> bool {
        true
    }

    fn sweeps() -> bool {
        true
    }

    fn fresh(line: L) -> Twin<L> {
        Twin {
            copies: Two::both(line),
            mr: false,
            mw: true,
            named: Two::both(false),
        }
    }

    fn first(self, _clock: Clock, _began: Stage, line: L) -> Twin<L> {
        self.changed(line)
    }

    fn later(self, _clock: Clock, line: L) -> Twin<L> {
        self.changed(line)
    }

    fn commit(mut self, clock: Clock, _began: Stage) -> Twin<L> {
        self.named = self.named.with(clock.odd, true);
        self
    }

    fn abandon(self, _clock: Clock, _began: Stage, before: L) -> Twin<L> {
        self.written(before)
    }

    fn gives(self, clock: Clock) -> Given<L> {
        Given {
            line: self.copies.get(!self.mw),
            named: self.named.get(!clock.odd),
        }
    }

    fn given(mut self, clock: Clock) -> Twin<L> {
        self.named = self.named.with(!clock.odd, false);
        self
    }

    fn pointed(mut self) -> Twin<L> {
        self.mw = !self.mr;
        self
    }

    fn live(self) -> L {
        self.copies.get(self.mr)
    }
}
