// What each statement does, by what it reads: an effect, which changes nothing yet.
ghost use Rattle.std.specs.Prelude.{◌≡◌, cond, eqb, pos, ◌+ℤ◌};
ghost use Rattle.program.specs.Cells.{no_target, same, operator_of, statement_of};
ghost use Rattle.effects.specs.Errors.{result_error};
ghost use Rattle.effects.specs.Effects.{read, storing, storing_result, storing_with, calling, returning, waiting, holding, moving, slewing, effect};
ghost use Rattle.acting.specs.Code.{seen, met, holding_by, printing_by};
ghost use Rattle.effects.specs.declared.Effect.TheVariants.{Goes, Passes, Arms, Disarms};

use crate::values::{holds, operate, read, value};
use effects::Effect;
use program::{Cell, Operand, Variable};

// A value goes to a variable if it is in the variable's range.
fn storing(vars: &[i32], v: u32, value: i32) -> Effect
    ensures { result ≡ storing vars.now v value }
{
    let range = Variable(v).range(read(vars, Variable::VI), read(vars, Variable::VM));
    if range.holds(value as i64) {
        return Effect::Stores(v, value);
    }
    Effect::Fails(Effect::OUT_OF_RANGE)
}

// The error of a result outside the range of literals: which way it ran out.
fn result_error(res: i64) -> u8
    ensures { result ≡ result_error res }
{
    if res < Variable::literals().lowest {
        return Effect::TOO_LOW;
    }
    Effect::TOO_HIGH
}

// A result goes there too, if it is in the range of literals.
fn storing_result(vars: &[i32], v: u32, res: i64) -> Effect
    ensures { result ≡ storing_result vars.now v res }
{
    if Variable::literals().holds(res) {
        return storing(vars, v, res as i32);
    }
    Effect::Fails(result_error(res))
}

// The result of an operator, if it does not divide by 0.
fn storing_with(vars: &[i32], v: u32, operator: u8, x: i32, y: i32) -> Effect
    ensures { result ≡ storing_with vars.now v (operator_of operator) x y }
{
    if (operator == Cell::DIVIDED) & (y == 0) {
        return Effect::Fails(Effect::ZERO_DIVISOR);
    }
    storing_result(vars, v, operate(operator, x, y))
}

// A call, if a place is free.
fn calling(kept: u8, cell: u16) -> Effect
    ensures { result ≡ calling kept cell }
{
    let is_free = kept < Effect::MOST_PLACES;
    if is_free {
        return Effect::Calls(cell);
    }
    Effect::Fails(Effect::TOO_DEEP)
}

// A return, if a place is kept.
fn returning(kept: u8) -> Effect
    ensures { result ≡ returning kept }
{
    if 0 < kept {
        return Effect::Returns;
    }
    Effect::Fails(Effect::NO_PLACE)
}

// The cell is kept while the axis moves.
fn waiting(vars: &[i32]) -> Effect
    ensures { result ≡ waiting vars.now }
{
    if read(vars, Variable::MV) == 1 {
        return Effect::Stays;
    }
    Effect::Passes
}

// A hold of x turns: the first of them, or the next one of the turns still to come.
fn holding(hold: u32, x: i32) -> Effect
    ensures { result ≡ holding hold x }
{
    if 0 < hold {
        return Effect::Holds(hold - 1);
    }
    if Cell::hold_range().holds(x as i64) {
        return Effect::Holds((x as u32) - 1);
    }
    Effect::Fails(Effect::OUT_OF_RANGE)
}

// A move to a target, recorded by this kind and value, if the axis does not move.
fn moving(vars: &[i32], target: i64, kind: u8, value: i32) -> Effect
    ensures { result ≡ moving vars.now target kind value }
{
    if read(vars, Variable::MV) == 1 {
        return Effect::Fails(Effect::STILL_MOVING);
    }
    if Variable::literals().holds(target) {
        return Effect::Moves {
            target: target as i32,
            kind,
            value,
        };
    }
    Effect::Fails(result_error(target))
}

// A slew at velocity x.
fn slewing(x: i32) -> Effect
    ensures { result ≡ slewing x }
{
    if Cell::slew_range().holds(x as i64) {
        return Effect::Slews(x);
    }
    Effect::Fails(Effect::OUT_OF_RANGE)
}

// The statements, one function each.

fn set(vars: &[i32], cell: Cell) -> Effect
    ensures { result ≡ storing vars.now cell.written (seen vars.now cell.left) }
{
    storing(vars, cell.written as u32, value(vars, cell.left))
}

fn set_with(vars: &[i32], cell: Cell) -> Effect
    ensures { result ≡ storing_with vars.now cell.written (operator_of cell.selector) (seen vars.now cell.left) (seen vars.now cell.right) }
{
    storing_with(
        vars,
        cell.written as u32,
        cell.selector,
        value(vars, cell.left),
        value(vars, cell.right),
    )
}

// IC counts by 1, DC by -1.
fn count(vars: &[i32], cell: Cell, step: i32) -> Effect
    ensures { result ≡ storing_result vars.now cell.written (read vars.now cell.written +ℤ step) }
{
    let v = cell.written as u32;
    storing_result(vars, v, numbers::sum(read(vars, v), step))
}

fn branch(vars: &[i32], cell: Cell) -> Effect
    ensures { result ≡ cond (met vars.now cell) (Goes cell.target) Passes }
{
    if holds(vars, cell) {
        return Effect::Goes(cell.target);
    }
    Effect::Passes
}

fn call(vars: &[i32], kept: u8, cell: Cell) -> Effect
    ensures { result ≡ cond (met vars.now cell) (calling kept cell.target) Passes }
{
    if holds(vars, cell) {
        return calling(kept, cell.target);
    }
    Effect::Passes
}

fn hold_or_wait(vars: &[i32], hold: u32, cell: Cell) -> Effect
    ensures { result ≡ holding_by cell.left vars.now hold }
{
    match cell.left {
        Operand::Nothing => waiting(vars),
        Operand::Literal(z) => holding(hold, z),
        Operand::Variable(v) => holding(hold, read(vars, v)),
    }
}

fn arm(target: u16) -> Effect
    ensures { result ≡ cond (eqb target no_target) Disarms (Arms target) }
{
    if target == Cell::NO_TARGET {
        return Effect::Disarms;
    }
    Effect::Arms(target)
}

fn move_to(vars: &[i32], cell: Cell) -> Effect
    ensures { result ≡ moving vars.now (seen vars.now cell.left) 2 (seen vars.now cell.left) }
{
    let x = value(vars, cell.left);
    moving(vars, x as i64, Effect::MOVED_TO, x)
}

fn move_by(vars: &[i32], cell: Cell) -> Effect
    ensures { result ≡ moving vars.now (read vars.now 5 +ℤ seen vars.now cell.left) 3 (seen vars.now cell.left) }
{
    let x = value(vars, cell.left);
    moving(
        vars,
        numbers::sum(read(vars, Variable::P), x),
        Effect::MOVED_BY,
        x,
    )
}

fn slew(vars: &[i32], cell: Cell) -> Effect
    ensures { result ≡ slewing (seen vars.now cell.left) }
{
    slewing(value(vars, cell.left))
}

// A literal is printed with 0, a variable with its number.
fn print(vars: &[i32], cell: Cell) -> Effect
    ensures { result ≡ printing_by cell.left vars.now }
{
    match cell.left {
        Operand::Nothing => Effect::Prints(0, 0),
        Operand::Literal(z) => Effect::Prints(0, z),
        Operand::Variable(v) => Effect::Prints(v, read(vars, v)),
    }
}

// What the cell's statement does, where so many places are kept and so many turns of a hold are still to come.
pub fn effect(cell: Cell, vars: &[i32], kept: u8, hold: u32) -> Effect
    ensures { result ≡ effect same same vars.now kept hold (statement_of cell) }
{
    match cell.operation {
        Cell::SET => set(vars, cell),
        Cell::SET_WITH => set_with(vars, cell),
        Cell::IC => count(vars, cell, 1),
        Cell::DC => count(vars, cell, -1),
        Cell::BR => branch(vars, cell),
        Cell::CL => call(vars, kept, cell),
        Cell::RT => returning(kept),
        Cell::E => Effect::Ends,
        Cell::H => hold_or_wait(vars, hold, cell),
        Cell::OE => arm(cell.target),
        Cell::MA => move_to(vars, cell),
        Cell::MR => move_by(vars, cell),
        Cell::SL => slew(vars, cell),
        _ => print(vars, cell),
    }
}
