// The cell of a statement from the parts that the slots of its form took; names in it are keys.
ghost use Rattle.std.specs.Prelude.{◌≡◌};
ghost use Rattle.text.specs.Faults.{big_value};
ghost use Rattle.forms.specs.Code.{value_of, start_of, meaning, parts_of};
ghost use Rattle.reading.specs.Code.{small_of, operand_of, left_by, right_by, target_by, selector_by, shape_of, cell_by};

use forms::{Match, Value};
use program::{Cell, Operand, Variable};

// The shape of a statement: no operand, one, two, or no target.
#[derive(Clone, Copy)]
pub enum Shape {
    NoOperand = 0,
    One = 1,
    Two = 2,
    NoTarget = 3,
}

impl Shape {
    // The shape with this number; with any other it is that of no operand.
    fn of(number: u8) -> Shape
        ensures { result ≡ shape_of number }
    {
        match number {
            1 => Shape::One,
            2 => Shape::Two,
            3 => Shape::NoTarget,
            _ => Shape::NoOperand,
        }
    }
}

// A literal, 0 where it is too big for one.
// Stays: the limit is the paper's `HIGHEST_LITERAL`, by `small_of`; `try_from` would test that of i32, which is the same number by chance.
fn signed(negative: bool, size: u64) -> i32
    ensures { result ≡ small_of (meaning negative size) }
{
    if (Variable::HIGHEST_LITERAL as u64) < size {
        return 0;
    }
    let z = size as i32;
    if negative {
        return 0 - z;
    }
    z
}

pub fn is_big(value: Value) -> bool
    ensures { result ≡ big_value (value_of value) }
{
    match value {
        Value::Literal(_, size) => (Variable::HIGHEST_LITERAL as u64) < size,
        Value::Variable(_) => false,
    }
}

// The start value of a variable.
pub fn start_value(value: Value) -> i32
    ensures { result ≡ small_of (start_of value) }
{
    match value {
        Value::Literal(negative, size) => signed(negative, size),
        Value::Variable(_) => 0,
    }
}

fn operand(value: Value) -> Operand
    ensures { result ≡ operand_of (value_of value) }
{
    match value {
        Value::Literal(negative, size) => Operand::Literal(signed(negative, size)),
        Value::Variable(key) => Operand::Variable(key as u32),
    }
}

// The operand on the left of a statement of this shape, on its right; and its target.
fn left(value: Value, shape: Shape) -> Operand
    ensures { result ≡ left_by shape (value_of value) }
{
    match shape {
        Shape::NoOperand | Shape::NoTarget => Operand::Nothing,
        Shape::One | Shape::Two => operand(value),
    }
}

fn right(value: Value, shape: Shape) -> Operand
    ensures { result ≡ right_by shape (value_of value) }
{
    match shape {
        Shape::NoOperand | Shape::One | Shape::NoTarget => Operand::Nothing,
        Shape::Two => operand(value),
    }
}

fn target(shape: Shape, key: u16) -> u16
    ensures { result ≡ target_by shape key }
{
    match shape {
        Shape::NoOperand | Shape::One | Shape::Two => key,
        Shape::NoTarget => Cell::NO_TARGET,
    }
}

// The operator or the comparison of a statement with this operation and shape, by its number.
fn selector(parts: Match, operation: u8, shape: Shape) -> u8
    ensures { result ≡ selector_by operation shape (parts_of parts) }
{
    match shape {
        Shape::NoOperand | Shape::One | Shape::NoTarget => 0,
        Shape::Two if operation == Cell::SET_WITH => forms::operator_number(parts.operator),
        Shape::Two => forms::comparison_number(parts.comparison),
    }
}

// The cell of a statement with this operation and the shape with this number.
pub fn cell(parts: Match, operation: u8, shape: u8) -> Cell
    ensures { result ≡ cell_by operation shape (parts_of parts) }
{
    let shape = Shape::of(shape);
    let x = parts.left;
    let y = parts.right;
    Cell {
        operation,
        written: parts.written,
        selector: selector(parts, operation, shape),
        left: left(x, shape),
        right: right(y, shape),
        target: target(shape, parts.name),
    }
}
