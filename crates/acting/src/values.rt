// What a statement reads: variables, operands and conditions.
ghost use Rattle.std.specs.Prelude.{◌≡◌};
ghost use Rattle.program.specs.Cells.{operator_of, comparison_of};
ghost use Rattle.effects.specs.Effects.{read, operate, compares};
ghost use Rattle.acting.specs.Code.{seen, met};

use program::{Cell, Operand};

// The value of the variable with this number; 0 where there is none.
pub fn read(vars: &[i32], v: u32) -> i32
    ensures { result ≡ read vars.now v }
{
    match vars.get(v as usize) {
        Some(value) => *value,
        None => 0,
    }
}

// The value of an operand.
pub fn value(vars: &[i32], operand: Operand) -> i32
    ensures { result ≡ seen vars.now operand }
{
    match operand {
        Operand::Nothing => 0,
        Operand::Literal(z) => z,
        Operand::Variable(v) => read(vars, v),
    }
}

// The comparison with this number.
pub fn compares(comparison: u8, x: i32, y: i32) -> bool
    ensures { result ≡ compares (comparison_of comparison) x y }
{
    match comparison {
        Cell::EQUAL => x == y,
        Cell::UNEQUAL => x != y,
        Cell::LESS => x < y,
        Cell::AT_MOST => x <= y,
        Cell::GREATER => y < x,
        _ => y <= x,
    }
}

// Whether the cell acts: it has no condition, or one that is met.
pub fn holds(vars: &[i32], cell: Cell) -> bool
    ensures { result ≡ met vars.now cell }
{
    if cell.selector == Cell::ALWAYS {
        return true;
    }
    compares(
        cell.selector,
        value(vars, cell.left),
        value(vars, cell.right),
    )
}

// The operator with this number, in exact whole numbers.
pub fn operate(operator: u8, x: i32, y: i32) -> i64
    ensures { result ≡ operate (operator_of operator) x y }
{
    match operator {
        Cell::PLUS => numbers::sum(x, y),
        Cell::MINUS => numbers::difference(x, y),
        Cell::TIMES => numbers::product(x, y),
        Cell::DIVIDED => numbers::quotient(x, y),
        Cell::AND => numbers::both(x, y) as i64,
        Cell::OR => numbers::either(x, y) as i64,
        _ => numbers::differing(x, y) as i64,
    }
}
