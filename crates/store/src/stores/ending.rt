// Commit and abandon.
ghost use Rattle.std.specs.Prelude.{◌≡◌};
ghost use Rattle.logs.specs.Logs.{Untouched};
ghost use Rattle.records.specs.Commands.{changes_of};
ghost use Rattle.store.specs.CellRules.{alter, walk, ended_cell};
ghost use Rattle.store.specs.States.{state_of};
ghost use Rattle.store.specs.Steps.{with_cells, ended};

use super::Table;
use crate::cells::End;
use keepers::faults::KeeperFault;
use keepers::rules::Rules;
use keepers::seats::Open;
use keepers::stages::Stage;

impl<'a, R: Rules> Table<'a, R> {
    // Lets the cell of a line go, if the seat holds it.
    fn end_cell(&mut self, line: u16, end: End, seat: u8, began: Stage)
        ensures { state_of self.new ≡ with_cells (alter (ended_cell R.Rules.method end (state_of self.old).clock seat began) (state_of self.old).cells line) (state_of self.old) }
    {
        if let Ok(cell) = self.cell_at(line) {
            let cell = cell.ended(end, self.clock, seat, began);
            self.put_cell(line, cell);
        }
    }

    // The same at the line of every change of a command.
    fn end_cells(&mut self, open_seat: Open, end: End, seat: u8)
        ensures { state_of self.new ≡ with_cells (walk (ended_cell R.Rules.method end (state_of self.old).clock seat open_seat.began) (changes_of open_seat.command) (state_of self.old).cells) (state_of self.old) }
    {
        let began = open_seat.began;
        for change in open_seat.command.as_slice() {
            self.end_cell(change.line, end, seat, began);
        }
    }

    // Ends the command of a seat: its changes last, or its lines are put back.
    pub fn end_seat(&mut self, seat: u8, end: End) -> Result<(), KeeperFault>
        ensures state { ended R.Rules.method end seat (state_of self.old) ≡ (result, state_of self.new) }
        ensures same { Untouched result self.old self.new }
    {
        let open = self.open_seat(seat)?;
        self.end_cells(open, end, seat);
        self.seats.put(seat, None);
        Ok(())
    }
}
