// A new store.
ghost use Rattle.std.specs.Prelude.{◌≡◌, ◌≤◌, map, length, take, drop};
ghost use Rattle.keepers.specs.Meanings.{size};
ghost use Rattle.store.specs.CellRules.{fresh_cell};
ghost use Rattle.store.specs.States.{state};
ghost use Rattle.store.specs.Steps.{new_state};

use super::{Store, Table};
use crate::cells::Cell;
use keepers::clocks::Clock;
use keepers::rules::Rules;
use keepers::seats::Seats;
use lines::numbered::lawful_front;

// Writes a fresh cell for each line. The lines go by index: of what is written under a `zip` the check knows nothing afterwards.
fn fill<R: Rules>(cells: &mut [Cell<R::Line, R>], opening: &[R::Line])
    requires { length cells.old ≤ length opening.now }
    ensures { cells.new ≡ map (fresh_cell R.Rules.method) (take (length cells.old) opening.now) }
{
    for (i, cell) in cells.iter_mut().enumerate() {
        *cell = Cell::<R::Line, R>::fresh(opening[i]);
    }
}

impl<'a, R: Rules> Store<'a, R> {
    // A store of the opening list's first lines: as many as the list's lawful front, the memory and the method's limit allow.
    pub fn open_over(opening: &[R::Line], memory: &'a mut [Cell<R::Line, R>]) -> Store<'a, R>
        ensures state { state result ≡ new_state R.Rules.method (take (size R.Line.Coded.coding.keeps opening.now (length memory.old) R.Rules.method.limit) opening.now) }
        ensures spare { result.spare.now ≡ drop (size R.Line.Coded.coding.keeps opening.now (length memory.old) R.Rules.method.limit) memory.old }
    {
        let n = lawful_front(opening).min(memory.len().min(R::limit()));
        let (cells, spare) = memory.split_at_mut(n);
        fill::<R>(cells, opening);
        let table = Table {
            cells,
            seats: Seats::default(),
            clock: Clock::default(),
            given: n,
        };
        Store { table, spare }
    }
}
