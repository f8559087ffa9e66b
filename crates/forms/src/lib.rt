// The forms of statements, and what the tokens of a line take in their slots.
#![tactic(auto)]

ghost use Rattle.std.specs.Prelude.{◌≡◌, ◌<◌};
ghost use Rattle.program.specs.Cells.{operator_number, comparison_number};
ghost use Rattle.program.specs.Code.{name_of};
ghost use Rattle.text.specs.Forms.{variable_name};
ghost use Rattle.text.specs.Code.{is_operator, is_comparison};
ghost use Rattle.forms.specs.Code.{no_match, literal_by, variable_by, operand_by, operator_by, comparison_by, onward, word_by, slot_by, fill_by, slots_of, first_form, longer_by, form_for};

use crate::Slot::{Comparison, End, Is, Left, New, Operator, Right, Start, Target, Written};
use program::{Cell, Variable, names};
use text::tokens::{Token, Tokens};

// What a slot of a form takes: the very characters of a key, a name to declare, a label, a variable to write, the operand on the left or on the
// right, a literal, an operator or a comparison; and no more slots.
#[derive(Clone, Copy)]
pub enum Slot {
    Is(u16),
    New,
    Target,
    Written,
    Left,
    Right,
    Start,
    Operator,
    Comparison,
    End,
}

// How many values a character of a key has.
const BYTE: u16 = 256;

// Stays: these and the next 17: tried `u16::from_le_bytes(*b"LB")`, which the check refuses: a call in a constant's value is not supported yet.
const LB: u16 = (b'L' as u16) + BYTE * (b'B' as u16);

const VA: u16 = (b'V' as u16) + BYTE * (b'A' as u16);

const IC: u16 = (b'I' as u16) + BYTE * (b'C' as u16);

const DC: u16 = (b'D' as u16) + BYTE * (b'C' as u16);

const BR: u16 = (b'B' as u16) + BYTE * (b'R' as u16);

const CL: u16 = (b'C' as u16) + BYTE * (b'L' as u16);

const RT: u16 = (b'R' as u16) + BYTE * (b'T' as u16);

const E: u16 = b'E' as u16;

const H: u16 = b'H' as u16;

const OE: u16 = (b'O' as u16) + BYTE * (b'E' as u16);

const MA: u16 = (b'M' as u16) + BYTE * (b'A' as u16);

const MR: u16 = (b'M' as u16) + BYTE * (b'R' as u16);

const SL: u16 = (b'S' as u16) + BYTE * (b'L' as u16);

const PR: u16 = (b'P' as u16) + BYTE * (b'R' as u16);

const EQUALS: u16 = b'=' as u16;

const COMMA: u16 = b',' as u16;

const ZERO: u16 = b'0' as u16;

const MINUS: u16 = b'-' as u16;

// Where the forms of each mnemonic begin in the table, and those of an assignment.
// Stays: a form is its place in this table and in that of crate reading, and the longer form of a mnemonic is the place behind (`form + 1` in `form_for`): an enum of 21 names would be cast to that place and back.
const AT_LB: usize = 0;

const AT_VA: usize = 1;

const AT_ASSIGNMENT: usize = 3;

const AT_IC: usize = 5;

const AT_DC: usize = 6;

const AT_BR: usize = 7;

const AT_CL: usize = 9;

const AT_RT: usize = 11;

const AT_E: usize = 12;

const AT_H: usize = 13;

const AT_OE: usize = 15;

const AT_MA: usize = 17;

const AT_MR: usize = 18;

const AT_SL: usize = 19;

const AT_PR: usize = 20;

// The slots of the forms.
const FORMS: [[Slot; 6]; 21] = [
    [Is(LB), New, End, End, End, End],
    [Is(VA), New, End, End, End, End],
    [Is(VA), New, Is(EQUALS), Start, End, End],
    [Written, Is(EQUALS), Left, End, End, End],
    [Written, Is(EQUALS), Left, Operator, Right, End],
    [Is(IC), Written, End, End, End, End],
    [Is(DC), Written, End, End, End, End],
    [Is(BR), Target, End, End, End, End],
    [Is(BR), Target, Is(COMMA), Left, Comparison, Right],
    [Is(CL), Target, End, End, End, End],
    [Is(CL), Target, Is(COMMA), Left, Comparison, Right],
    [Is(RT), End, End, End, End, End],
    [Is(E), End, End, End, End, End],
    [Is(H), End, End, End, End, End],
    [Is(H), Left, End, End, End, End],
    [Is(OE), Target, End, End, End, End],
    [Is(OE), Is(ZERO), End, End, End, End],
    [Is(MA), Left, End, End, End, End],
    [Is(MR), Left, End, End, End, End],
    [Is(SL), Left, End, End, End, End],
    [Is(PR), Left, End, End, End, End],
];

// A value that no slot took.
const NO_VALUE: Value = Value::Literal(false, 0);

// The operators and the comparisons in the order of their numbers, two bytes each.
const OPERATORS: [[u8; 2]; 7] = [
    *b"+\0", *b"-\0", *b"*\0", *b"/\0", *b"&\0", *b"|\0", *b"^\0",
];

const COMPARISONS: [[u8; 2]; 6] = [*b"=\0", *b"<>", *b"<\0", *b"<=", *b">\0", *b">="];

// An operand: a literal by its sign and its size, or a variable by its key.
// Stays: `fill` asks nothing of its tokens, so the size may be any u64, and with its sign be no i64.
#[derive(Clone, Copy)]
pub enum Value {
    Literal(bool, u64),
    Variable(u16),
}

// How many tokens an operand takes, and what it is.
#[derive(Clone, Copy)]
pub struct Taken {
    pub used: usize,
    pub value: Value,
}

// What the slots of a form took so far: where the next token stands, the parts, a name and a sign by its key.
// Stays: 0 for a part that the form has not is what `no_match` says; which parts a form has is in the table of crate reading, so seven Options would be taken apart without a case for none.
#[derive(Clone, Copy)]
pub struct Match {
    pub place: usize,
    pub left: Value,
    pub right: Value,
    pub start: Value,
    pub name: u16,
    pub written: u16,
    pub operator: u16,
    pub comparison: u16,
}

fn is_variable(key: u16) -> bool
    ensures { result ≡ variable_name (name_of key) }
{
    if Variable::number_of(key) != 0 {
        return true;
    }
    names::is_user_name(key)
}

// The sign of an operator; of a comparison.
// Stays: docs/PAPER.md names both by their contracts, as `operator_number` below; what they share is `place_in`.
fn is_operator(key: u16) -> bool
    ensures { result ≡ is_operator (name_of key) }
{
    names::place_in(&OPERATORS, key).is_some()
}

fn is_comparison(key: u16) -> bool
    ensures { result ≡ is_comparison (name_of key) }
{
    names::place_in(&COMPARISONS, key).is_some()
}

// The number that a sign has in a cell; what is no sign gets the last one.
// Stays: docs/PAPER.md names both by their contracts, and the search that they share is `place_in`; one function more would only hand it the table.
pub fn operator_number(key: u16) -> u8
    ensures { result ≡ operator_number (operator_by (name_of key)) }
{
    match names::place_in(&OPERATORS, key) {
        Some(place) => (place as u8) + 1,
        None => Cell::XOR,
    }
}

pub fn comparison_number(key: u16) -> u8
    ensures { result ≡ comparison_number (comparison_by (name_of key)) }
{
    match names::place_in(&COMPARISONS, key) {
        Some(place) => (place as u8) + 1,
        None => Cell::AT_LEAST,
    }
}

// A literal at the front of two tokens: digits, or a minus with digits directly behind it.
fn literal(t: Token, u: Token) -> Option<Taken>
    ensures { result ≡ literal_by t u }
{
    if let Some(size) = t.value {
        return Some(Taken {
            used: 1,
            value: Value::Literal(false, size),
        });
    }
    if (t.key == MINUS) & t.glued {
        let size = u.value?;
        return Some(Taken {
            used: 2,
            value: Value::Literal(true, size),
        });
    }
    None
}

fn variable(key: u16) -> Option<Taken>
    ensures { result ≡ variable_by key }
{
    if is_variable(key) {
        return Some(Taken {
            used: 1,
            value: Value::Variable(key),
        });
    }
    None
}

// Stays: tried `literal(t, u).or_else(|| variable(t.key))`, which left `returns` open; the match is as short.
fn operand(t: Token, u: Token) -> Option<Taken>
    ensures { result ≡ operand_by t u }
{
    match literal(t, u) {
        Some(taken) => Some(taken),
        None => variable(t.key),
    }
}

impl Match {
    fn none() -> Match
        ensures { result ≡ no_match }
    {
        Match {
            place: 0,
            name: 0,
            written: 0,
            left: NO_VALUE,
            operator: 0,
            comparison: 0,
            right: NO_VALUE,
            start: NO_VALUE,
        }
    }

    // So many tokens on.
    // Stays: `place < 64` is asked by three functions, but is no invariant: a slot moves the place on by up to two, so it holds of what a slot is given and not of what it gives; the loop of `fill` bounds it.
    fn onward(mut self, used: usize) -> Match
        requires { (self.place < 64) × (used < 64) }
        ensures { result ≡ onward self used }
    {
        self.place += used;
        self
    }

    // A word on; an error where it does not fit.
    fn word(self, fits: bool) -> Result<Match, Match>
        requires { self.place < 64 }
        ensures { result ≡ word_by fits self }
    {
        let m = self.onward(1);
        if fits {
            return Ok(m);
        }
        Err(m)
    }

    // What a slot takes of the next two tokens; an error where it takes nothing, one token on where a word does not fit.
    fn slot(mut self, slot: Slot, t: Token, u: Token) -> Result<Match, Match>
        requires { self.place < 64 }
        ensures { result ≡ slot_by self slot t u }
    {
        match slot {
            Slot::Is(key) => self.word(key == t.key),
            Slot::New => {
                self.name = t.key;
                self.word(names::has_two_characters(t.key))
            }
            Slot::Target => {
                self.name = t.key;
                self.word(names::is_user_name(t.key))
            }
            Slot::Written => {
                self.written = t.key;
                self.word(is_variable(t.key))
            }
            Slot::Left => {
                self.left = NO_VALUE;
                let Some(taken) = operand(t, u) else {
                    return Err(self);
                };
                self.left = taken.value;
                Ok(self.onward(taken.used))
            }
            Slot::Right => {
                self.right = NO_VALUE;
                let Some(taken) = operand(t, u) else {
                    return Err(self);
                };
                self.right = taken.value;
                Ok(self.onward(taken.used))
            }
            Slot::Start => {
                self.start = NO_VALUE;
                let Some(taken) = literal(t, u) else {
                    return Err(self);
                };
                self.start = taken.value;
                Ok(self.onward(taken.used))
            }
            Slot::Operator => {
                self.operator = t.key;
                self.word(is_operator(t.key))
            }
            Slot::Comparison => {
                self.comparison = t.key;
                self.word(is_comparison(t.key))
            }
            Slot::End => Ok(self),
        }
    }
}

// The slots of a form.
fn slots(form: usize) -> [Slot; 6]
    requires { form < 21 }
    ensures { result ≡ slots_of form }
{
    FORMS[form]
}

// The first form of a line whose first token has this key; that of an assignment where it is no mnemonic.
fn first_form(first: u16) -> usize
    ensures { result ≡ first_form first }
{
    match first {
        LB => AT_LB,
        VA => AT_VA,
        IC => AT_IC,
        DC => AT_DC,
        BR => AT_BR,
        CL => AT_CL,
        RT => AT_RT,
        E => AT_E,
        H => AT_H,
        OE => AT_OE,
        MA => AT_MA,
        MR => AT_MR,
        SL => AT_SL,
        PR => AT_PR,
        _ => AT_ASSIGNMENT,
    }
}

// So many tokens are too many for this form, and may fill the one behind it; those of OE are told apart by the second token.
fn is_longer(form: usize, second: u16, count: usize) -> bool
    ensures { result ≡ longer_by form second count }
{
    match form {
        AT_VA | AT_BR | AT_CL => 2 < count,
        AT_ASSIGNMENT => 4 < count,
        AT_H => 1 < count,
        AT_OE => second == ZERO,
        _ => false,
    }
}

// The one form that so many tokens may fill, by the keys of the first two.
pub fn form_for(first: u16, second: u16, count: usize) -> usize
    ensures { result ≡ form_for first second count }
{
    let form = first_form(first);
    if is_longer(form, second, count) {
        return form + 1;
    }
    form
}

// What the slots of a form take of the tokens; an error where one of them takes nothing, with what was taken so far.
pub fn fill(form: usize, ts: Tokens) -> Result<Match, Match>
    requires { form < 21 }
    ensures { result ≡ fill_by (slots_of form) ts.at no_match }
{
    let at = ts.at;
    let mut m = Match::none();
    for slot in slots(form) {
        if let Slot::End = slot {
            return Ok(m);
        }
        m = m.slot(slot, at[m.place], at[m.place + 1])?;
    }
    Ok(m)
}
