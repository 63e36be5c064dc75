// The store as a keeper.
ghost use Rattle.store.specs.CellRules.{fresh_cell};
ghost use Rattle.store.specs.States.{state, meaning as meaning_of};
ghost use Rattle.store.specs.Validity.{Valid as ValidState};

use super::Store;
use crate::cells::{Cell, End};
use keepers::faults::KeeperFault;
use keepers::given::Given;
use keepers::rules::Rules;
use keepers::stages::Stage;
use keepers::traits::Keeper;
use lines::changes::Change;
use records::commands::Command;

impl<'a, R: Rules> Keeper<'a> for Store<'a, R> {
    type Line = R::Line;

    type Cell = Cell<R::Line, R>;

    ghost limit = { R.Rules.method.limit };

    ghost quiet = { R.Rules.method.quiet };

    ghost meaning = { λ s. meaning_of R.Rules.method (state s) };

    ghost blank = { fresh_cell R.Rules.method };

    ghost spare = { λ s. s.spare.now };

    ghost Valid = { λ s. ValidState R.Rules.method R.Rules.sound R.Line.Line.changed (state s) };

    fn limit() -> usize {
        R::limit()
    }

    fn is_quiet() -> bool {
        R::is_quiet()
    }

    fn blank(line: R::Line) -> Cell<R::Line, R> {
        Cell::<R::Line, R>::fresh(line)
    }

    fn open(opening: &[R::Line], memory: &'a mut [Cell<R::Line, R>]) -> Store<'a, R> {
        Store::open_over(opening, memory)
    }

    fn begin(&mut self, seat: u8) -> Result<(), KeeperFault> {
        self.table.begin_seat(seat)
    }

    fn change(&mut self, seat: u8, change: Change) -> Result<(), KeeperFault> {
        self.table.change_line(seat, change)
    }

    fn commit(&mut self, seat: u8) -> Result<(), KeeperFault> {
        self.table.end_seat(seat, End::Commit)
    }

    fn abandon(&mut self, seat: u8) -> Result<(), KeeperFault> {
        self.table.end_seat(seat, End::Abandon)
    }

    fn call(&mut self) -> Result<(), KeeperFault> {
        self.table.call_out()
    }

    fn turn(&mut self) -> Result<(), KeeperFault> {
        self.table.turn_on()
    }

    fn give(&mut self) -> Option<Given<R::Line>> {
        self.table.give_out()
    }

    fn look(&self, line: u16) -> Result<R::Line, KeeperFault> {
        self.table.look_at(line)
    }

    fn count(&self) -> usize {
        self.table.cells.len()
    }

    fn stage(&self) -> Stage {
        self.table.clock.stage
    }

    fn command(&self, seat: u8) -> Option<Command> {
        let open = self.table.seats.get(seat)?;
        Some(open.command)
    }

    fn waits(&self) -> Option<KeeperFault> {
        self.table.awaits()
    }
}
