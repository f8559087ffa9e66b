// What a line says, or its lowest fault from 2 to 5.
#![tactic(auto)]

ghost use Rattle.std.specs.Prelude.{◌≡◌, ◌<◌};
ghost use Rattle.forms.specs.Code.{parts_of};
ghost use Rattle.reading.specs.Code.{says_of, declared_by, any_big, read_parts, form_by, form_numbers, statement_by, reading_of};

use cells::Shape;
use forms::Match;
use program::{Cell, reserved};
use text::tokens;
use text::tokens::Tokens;

pub mod cells;

// What a line says: nothing, a label by its key, a variable by its key with its start value, or a statement by its cell, in which names are keys.
#[derive(Clone, Copy)]
pub enum Said {
    Blank,
    Label(u16),
    Declared(u16, i32),
    Acts(Cell),
}

// The faults of a line by itself, by their numbers.
#[derive(Clone, Copy)]
pub enum LineFault {
    LongLine = 2,
    BadForm = 3,
    BigLiteral = 4,
    ReservedName = 5,
}

// What a form says: a label, a variable, or a statement with this operation and shape.
#[derive(Clone, Copy)]
enum Says {
    Label,
    Declared,
    Acts(u8, Shape),
}

// What each form says.
const SAYS: [Says; 21] = [
    Says::Label,
    Says::Declared,
    Says::Declared,
    Says::Acts(Cell::SET, Shape::One),
    Says::Acts(Cell::SET_WITH, Shape::Two),
    Says::Acts(Cell::IC, Shape::NoOperand),
    Says::Acts(Cell::DC, Shape::NoOperand),
    Says::Acts(Cell::BR, Shape::NoOperand),
    Says::Acts(Cell::BR, Shape::Two),
    Says::Acts(Cell::CL, Shape::NoOperand),
    Says::Acts(Cell::CL, Shape::Two),
    Says::Acts(Cell::RT, Shape::NoOperand),
    Says::Acts(Cell::E, Shape::NoOperand),
    Says::Acts(Cell::H, Shape::NoOperand),
    Says::Acts(Cell::H, Shape::One),
    Says::Acts(Cell::OE, Shape::NoOperand),
    Says::Acts(Cell::OE, Shape::NoTarget),
    Says::Acts(Cell::MA, Shape::One),
    Says::Acts(Cell::MR, Shape::One),
    Says::Acts(Cell::SL, Shape::One),
    Says::Acts(Cell::PR, Shape::One),
];

fn says_of(form: usize) -> Says
    requires { form < 21 }
    ensures { result ≡ says_of form }
{
    SAYS[form]
}

// The name that the parts declare, which must not be reserved.
fn declared(parts: Match) -> Result<u16, LineFault>
    ensures { result ≡ declared_by (parts_of parts) }
{
    if reserved::is_reserved(parts.name) {
        return Err(LineFault::ReservedName);
    }
    Ok(parts.name)
}

fn has_big(parts: Match) -> bool
    ensures { result ≡ any_big (parts_of parts) }
{
    let x = parts.left;
    let y = parts.right;
    let start = parts.start;
    cells::is_big(x) | cells::is_big(y) | cells::is_big(start)
}

// What the parts that a form took say; a literal that is too big comes before all else.
fn read(parts: Match, form: usize) -> Result<Said, LineFault>
    requires { form < 21 }
    ensures { result ≡ read_parts form (parts_of parts) }
{
    if has_big(parts) {
        return Err(LineFault::BigLiteral);
    }
    let says = says_of(form);
    match says {
        Says::Label => Ok(Said::Label(declared(parts)?)),
        Says::Declared => Ok(Said::Declared(declared(parts)?, cells::start_value(parts.start))),
        Says::Acts(operation, shape) => Ok(Said::Acts(cells::cell(parts, operation, shape as u8))),
    }
}

// What the tokens say by the one form that they may fill.
fn by_form(ts: Tokens) -> Result<Said, LineFault>
    ensures { result ≡ form_by (form_numbers 21 0) ts }
{
    let at = ts.at;
    let form = forms::form_for(at[0].key, at[1].key, ts.count);
    let Ok(m) = forms::fill(form, ts) else {
        return Err(LineFault::BadForm);
    };
    if m.place == ts.count {
        return read(m, form);
    }
    Err(LineFault::BadForm)
}

// What the tokens of a line say.
fn statement(ts: Tokens) -> Result<Said, LineFault>
    ensures { result ≡ statement_by ts }
{
    if ts.count == 0 {
        return Ok(Said::Blank);
    }
    if ts.count == Tokens::MOST {
        return Err(LineFault::BadForm);
    }
    by_form(ts)
}

// What a line says, or its lowest fault from 2 to 5.
pub fn read_line(l: &[u8]) -> Result<Said, LineFault>
    ensures { result ≡ reading_of l.now }
{
    if text::is_long(l) {
        return Err(LineFault::LongLine);
    }
    if !tokens::is_printable(l) {
        return Err(LineFault::BadForm);
    }
    let n = tokens::code_length(l);
    let code = &l[..n];
    statement(tokens::read_tokens(code))
}
