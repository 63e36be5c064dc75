// Change and look.
ghost use Rattle.std.specs.Prelude.{◌≡◌};
ghost use Rattle.logs.specs.Logs.{Untouched};
ghost use Rattle.store.specs.States.{state_of};
ghost use Rattle.store.specs.Steps.{changed, looked};

use super::Table;
use keepers::faults::KeeperFault;
use keepers::rules::Rules;
use keepers::seats::Open;
use lines::changes::Change;
use lines::traits::Line;

impl<'a, R: Rules> Table<'a, R> {
    // Changes a line at once, and holds it for the seat.
    pub fn change_line(&mut self, seat: u8, change: Change) -> Result<(), KeeperFault>
        ensures state { changed R.Rules.method R.Line.changed seat change (state_of self.old) ≡ (result, state_of self.new) }
        ensures same { Untouched result self.old self.new }
    {
        let open = self.open_seat(seat)?;
        let cell = self.cell_at(change.line)?;
        if cell.is_held_elsewhere(seat) {
            return Err(KeeperFault::Held(change.line));
        }
        let mut command = open.command;
        if command.push(change).is_err() {
            return Err(KeeperFault::FifthChange(seat));
        }
        let line = cell.own.live().change(change)?;
        let cell = cell.changed(self.clock, seat, open.began, line);
        self.put_cell(change.line, cell);
        self.seats.put(seat, Some(Open { command, ..open }));
        Ok(())
    }

    // A line with committed changes only.
    pub fn look_at(&self, line: u16) -> Result<R::Line, KeeperFault>
        ensures { result ≡ looked R.Rules.method line (state_of self.now) }
    {
        let cell = self.cell_at(line)?;
        Ok(cell.committed())
    }
}
