// One line's place in a store, and what is done to it.
ghost use Rattle.std.specs.Prelude.{◌≡◌};
ghost use Rattle.store.specs.CellRules.{elsewhere, fresh_cell, changed_cell, ended_cell, given_cell, pointed_cell, committed_of};

use keepers::clocks::Clock;
use keepers::rules::Rules;
use keepers::stages::Stage;

// What the method keeps of the line; the seat that holds the line, if one does; and the line as it was when that seat first changed it. The last stays beside the seat
// and not in one Option with it, since a method's definition reads it of a cell that nobody holds.
#[derive(Clone, Copy)]
pub struct Cell<L, O> {
    pub own: O,
    pub holder: Option<u8>,
    pub before: L,
}

// How a command ends.
#[derive(Clone, Copy)]
pub enum End {
    Commit,
    Abandon,
}

// A seat and the stage in which its command began stay two parameters: the holder is the one, the rules take the other, and a struct of both would be taken apart at once.
impl<R: Rules> Cell<R::Line, R> {
    // A cell at opening.
    pub(crate) fn fresh(line: R::Line) -> Cell<R::Line, R>
        ensures { result ≡ fresh_cell R.Rules.method line }
    {
        Cell {
            own: R::fresh(line),
            holder: None,
            before: line,
        }
    }

    pub(crate) fn is_held_elsewhere(self, seat: u8) -> bool
        ensures { result ≡ elsewhere self.holder seat }
    {
        self.holder.is_some_and(|holder| holder != seat)
    }

    // The cell after `seat`, whose command began in `began`, changed its line to `line`.
    pub(crate) fn changed(
        self,
        clock: Clock,
        seat: u8,
        began: Stage,
        line: R::Line,
    ) -> Cell<R::Line, R>
        ensures { result ≡ changed_cell R.Rules.method clock seat began line self }
    {
        if self.holder.is_some() {
            Cell {
                own: self.own.later(clock, line),
                holder: Some(seat),
                ..self
            }
        } else {
            Cell {
                own: self.own.first(clock, began, line),
                holder: Some(seat),
                before: self.own.live(),
            }
        }
    }

    // The cell after the command in `seat` ended, if it held it.
    pub(crate) fn ended(self, end: End, clock: Clock, seat: u8, began: Stage) -> Cell<R::Line, R>
        ensures { result ≡ ended_cell R.Rules.method end clock seat began self }
    {
        if self.holder != Some(seat) {
            return self;
        }
        // The definition has the same two cases; a closure in their place would hide them from the clause.
        let own = match end {
            End::Commit => self.own.commit(clock, began),
            End::Abandon => self.own.abandon(clock, began, self.before),
        };
        Cell {
            own,
            holder: None,
            ..self
        }
    }

    // The line with committed changes only.
    pub(crate) fn committed(self) -> R::Line
        ensures { result ≡ committed_of R.Rules.method self }
    {
        if self.holder.is_some() {
            self.before
        } else {
            self.own.live()
        }
    }

    // The cell after its line was given out.
    pub(crate) fn given(self, clock: Clock) -> Cell<R::Line, R>
        ensures { result ≡ given_cell R.Rules.method clock self }
    {
        Cell {
            own: self.own.given(clock),
            ..self
        }
    }

    // The cell at the point.
    pub(crate) fn pointed(self) -> Cell<R::Line, R>
        ensures { result ≡ pointed_cell R.Rules.method self }
    {
        Cell {
            own: self.own.pointed(),
            ..self
        }
    }
}
