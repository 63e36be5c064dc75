// Begin, and what the other calls read and write of a seat and a cell.
ghost use Rattle.std.specs.Prelude.{◌≡◌, slice_set};
ghost use Rattle.std.specs.List.{slice_get};
ghost use Rattle.logs.specs.Logs.{Untouched};
ghost use Rattle.store.specs.States.{state_of};
ghost use Rattle.store.specs.Steps.{Seated, cell_of, with_cells, begun};

use super::Table;
use crate::cells::Cell;
use keepers::faults::KeeperFault;
use keepers::rules::Rules;
use keepers::seats::Open;
use keepers::stages::Stage;
use lines::faults::LineFault;
use records::commands::Command;

impl<'a, R: Rules> Table<'a, R> {
    // Opens a seat.
    pub fn begin_seat(&mut self, seat: u8) -> Result<(), KeeperFault>
        ensures state { begun R.Rules.method seat (state_of self.old) ≡ (result, state_of self.new) }
        ensures same { Untouched result self.old self.new }
    {
        if self.seats.at(seat)?.is_some() {
            return Err(KeeperFault::SeatOpen(seat));
        }
        let began = self.clock.stage;
        if R::is_quiet() && began == Stage::Called {
            return Err(KeeperFault::Quiet(seat));
        }
        let command = Command::new();
        self.seats.put(seat, Some(Open { began, command }));
        Ok(())
    }

    // The open seat that a change, a commit or an abandon is for.
    pub(crate) fn open_seat(&self, seat: u8) -> Result<Open, KeeperFault>
        ensures { Seated result seat (state_of self.now) }
    {
        self.seats.at(seat)?.ok_or(KeeperFault::SeatNotOpen(seat))
    }

    // The cell of a line.
    pub(crate) fn cell_at(&self, line: u16) -> Result<Cell<R::Line, R>, LineFault>
        ensures { result ≡ cell_of line (slice_get (state_of self.now).cells line) }
    {
        let cell = self.cells.get(usize::from(line)).copied();
        cell.ok_or(LineFault::NoSuchLine(line))
    }

    // Writes the cell of a line; where there is none, nothing. By index: what is written through a slice's `get_mut` is not known to the check.
    pub(crate) fn put_cell(&mut self, line: u16, cell: Cell<R::Line, R>)
        ensures { state_of self.new ≡ with_cells (slice_set (state_of self.old).cells line cell) (state_of self.old) }
    {
        let i = usize::from(line);
        if i < self.cells.len() {
            self.cells[i] = cell;
        }
    }
}
