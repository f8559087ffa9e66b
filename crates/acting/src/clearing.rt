// Which statements clear EF: those that read ER, unless they are in error.
ghost use Rattle.std.specs.Prelude.{◌≡◌};
ghost use Rattle.program.specs.Cells.{same, value_of, statement_of};
ghost use Rattle.effects.specs.Deeds.{is_er, reads_er};
ghost use Rattle.acting.specs.Code.{clears_by};

use effects::Effect;
use program::{Cell, Operand, Variable};

// An operand that is ER.
// Stays: tried `matches!` with a constant in the pattern: it becomes a chain of tests with a goal for each, and the proof gets longer; a match is no longer than that.
fn is_er(operand: Operand) -> bool
    ensures { result ≡ is_er same (value_of operand) }
{
    match operand {
        Operand::Nothing => false,
        Operand::Literal(_) => false,
        Operand::Variable(v) => v == Variable::ER,
    }
}

// Whether a turn of the cell's statement reads ER, where so many turns of a hold are still to come. Few cells have ER in a field, so that is asked first.
fn reads_er(cell: Cell, hold: u32) -> bool
    ensures { result ≡ reads_er same hold (statement_of cell) }
{
    let first = is_er(cell.left);
    let second = is_er(cell.right);
    if (hold != 0) | !(first | second) {
        return false;
    }
    match cell.operation {
        Cell::SET_WITH => true,
        Cell::IC => false,
        Cell::DC => false,
        Cell::BR => cell.selector != Cell::ALWAYS,
        Cell::CL => cell.selector != Cell::ALWAYS,
        Cell::RT => false,
        Cell::E => false,
        Cell::OE => false,
        _ => first,
    }
}

// Whether the cell's statement clears EF, where it has this effect and so many turns of a hold are still to come.
pub fn clears(cell: Cell, hold: u32, does: Effect) -> bool
    ensures { result ≡ clears_by cell hold does }
{
    reads_er(cell, hold) && !matches!(does, Effect::Fails(_))
}
