// Lines by number: what a book's lines are before there is a book.
ghost use Rattle.std.specs.Prelude.{◌≡◌};
ghost use Rattle.lines.specs.Numbered.{front, make, standing, verdict, after, verdicts};

use crate::changes::Change;
use crate::faults::LineFault;
use crate::traits::{Coded, Line};

// How many lines stand before the first that breaks its rule.
pub fn lawful_front<L: Coded>(lines: &[L]) -> usize
    ensures { result ≡ front L.Coded.coding.keeps lines.now }
{
    lines
        .iter()
        .position(|line| !line.keeps_rule())
        .unwrap_or(lines.len())
}

// Makes one change on the line that it names. A refusal leaves every line as it was.
pub fn change_line<L: Line>(lines: &mut [L], change: Change) -> Result<(), LineFault>
    ensures answer { result ≡ verdict (make L.changed lines.old change) }
    ensures state { lines.new ≡ standing lines.old (make L.changed lines.old change) }
{
    let i = usize::from(change.line);
    let line = *lines.get(i).ok_or(LineFault::NoSuchLine(change.line))?;
    lines[i] = line.change(change)?;
    Ok(())
}

// Makes changes in order and stops at the first that is refused; those before it stand.
pub fn change_lines<L: Line>(lines: &mut [L], changes: &[Change]) -> Result<(), LineFault>
    ensures answer { result ≡ verdicts L.changed lines.old changes.now }
    ensures state { lines.new ≡ after L.changed lines.old changes.now }
{
    for change in changes {
        change_line(lines, *change)?;
    }
    Ok(())
}
