// Call, turn, and giving out.
ghost use Rattle.std.specs.Prelude.{◌≡◌, ◌<◌, map, length, IfSome};
ghost use Rattle.std.specs.List.{slice_get};
ghost use Rattle.logs.specs.Logs.{Untouched};
ghost use Rattle.keepers.specs.Calls.{Unmoved};
ghost use Rattle.store.specs.CellRules.{pointed_cell};
ghost use Rattle.store.specs.States.{state_of};
ghost use Rattle.store.specs.Steps.{with_cells, called, waits, turned, given_out, at_point};

use super::Table;
use crate::cells::Cell;
use keepers::faults::KeeperFault;
use keepers::given::Given;
use keepers::rules::Rules;
use keepers::stages::{Stage, Step};

impl<'a, R: Rules> Table<'a, R> {
    // Leads out of Rest.
    pub fn call_out(&mut self) -> Result<(), KeeperFault>
        ensures state { called R.Rules.method (state_of self.old) ≡ (result, state_of self.new) }
        ensures same { Untouched result self.old self.new }
    {
        self.clock.step(Step::Call)
    }

    // What a turn waits for, if it does.
    pub fn awaits(&self) -> Option<KeeperFault>
        ensures { result ≡ waits (state_of self.now) }
    {
        let stage = self.clock.stage;
        if stage != Stage::Taking {
            let seat = self.seats.awaited(stage)?;
            return Some(KeeperFault::WaitsForSeat(seat));
        }
        let due = self.cells.len().saturating_sub(self.given);
        if due == 0 {
            None
        } else {
            Some(KeeperFault::WaitsForLines(due))
        }
    }

    // The method's point, on every cell.
    fn sweep(&mut self)
        ensures { state_of self.new ≡ with_cells (map (pointed_cell R.Rules.method) (state_of self.old).cells) (state_of self.old) }
    {
        for cell in self.cells.iter_mut() {
            *cell = cell.pointed();
        }
    }

    // All lines are due; cells are written only where the method sweeps.
    fn pass_point(&mut self)
        ensures { state_of self.new ≡ at_point R.Rules.method (state_of self.old) }
    {
        if R::sweeps() {
            self.sweep();
        }
        self.given = 0;
    }

    // One stage on, or refused while it waits.
    pub fn turn_on(&mut self) -> Result<(), KeeperFault>
        ensures state { turned R.Rules.method (state_of self.old) ≡ (result, state_of self.new) }
        ensures same { Untouched result self.old self.new }
    {
        let mut clock = self.clock;
        clock.step(Step::Turn)?;
        if let Some(fault) = self.awaits() {
            return Err(fault);
        }
        if self.clock.stage == Stage::Called {
            self.pass_point();
        }
        self.clock = clock;
        Ok(())
    }

    // The cell of the line that is given out next.
    fn next_cell(&self) -> Option<Cell<R::Line, R>>
        ensures cell { result ≡ slice_get (state_of self.now).cells (state_of self.now).given }
        ensures there { IfSome result (λ _. (state_of self.now).given < length (state_of self.now).cells) }
    {
        self.cells.get(self.given).copied()
    }

    // Gives out the next line that is due; none outside Taking or past the last. The cell is written by index: what is written through a slice's `get_mut` is not known
    // to the check.
    pub fn give_out(&mut self) -> Option<Given<R::Line>>
        ensures state { given_out R.Rules.method (state_of self.old) ≡ (result, state_of self.new) }
        ensures same { Unmoved result self.old self.new }
    {
        if self.clock.stage != Stage::Taking {
            return None;
        }
        // Read once: that a cell which is written leaves the count as it is, the compiler does not see.
        let i = self.given;
        let cell = self.next_cell()?;
        let given = cell.own.gives(self.clock);
        self.cells[i] = cell.given(self.clock);
        self.given = i + 1;
        Some(given)
    }
}
