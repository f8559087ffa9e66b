// The statement of a cell, as words.
ghost use Rattle.std.specs.Prelude.{◌≡◌, ◌≤◌};
ghost use mathlib.Core.List.{[], ◌∷◌, ◌++◌, flat_map};
ghost use Rattle.image.specs.Layout.{operand_at, cell_at};
ghost use Rattle.printing.specs.Code.{packed, if_so, operand_text, jumps, target_key, name_after, opening_text, mnemonic_key, end_of, operator_text, comparison_text, sign_text, operands_text};

use crate::{Two, words};
use image::{
    CELL_BYTES, LEFT, LITERAL, RIGHT, RIGHT_SHAPE, SELECTOR, SHAPES, TARGET, VARIABLE, WRITTEN,
};
use program::{Cell, names};

const SPACE: u64 = b' ' as u64;

const COMMA: u64 = b',' as u64;

// What stands for a target in `OE 0`.
const NO_LABEL: u16 = b'0' as u16;

// The comparisons, each as a word.
const EQUAL: u64 = b'=' as u64;

const UNEQUAL: u64 = 15932;

const LESS: u64 = b'<' as u64;

const AT_MOST: u64 = 15676;

const GREATER: u64 = b'>' as u64;

const AT_LEAST: u64 = 15678;

// The operand of this shape whose number stands at this place.
fn operand(image: &[u8], shape: u8, place: usize) -> Two
    ensures { packed result.first ++ packed result.second ≡ operand_text image.now (operand_at shape place image.now) }
{
    let number = numbers::read4(image, place);
    if shape == LITERAL {
        return words::literal(number);
    }
    if shape == VARIABLE {
        return Two {
            first: crate::variable_key(image, (number % 256) as u8) as u64,
            second: 0,
        };
    }
    Two {
        first: 0,
        second: 0,
    }
}

fn is_jump(operation: u8) -> bool
    ensures { result ≡ jumps operation }
{
    (operation == Cell::BR) | (operation == Cell::CL)
}

// The key of a target's first label, or of the digit in `OE 0`.
fn target_key(firsts: &[u16], target: u16) -> u16
    ensures { result ≡ target_key firsts.now target }
{
    if target == Cell::NO_TARGET {
        return NO_LABEL;
    }
    firsts.get(usize::from(target)).copied().unwrap_or(0)
}

// The key of the name that a statement begins with, or has behind its mnemonic; 0 where there is none.
// Stays: 0 for none is what `name_key` says, and the word of no bytes, which is written as it is.
fn name_key(image: &[u8], firsts: &[u16], operation: u8, place: usize) -> u16
    requires { place ≤ 1048560 }
    ensures { result ≡ name_after image.now firsts.now operation place }
{
    let written = image::byte(image, place + WRITTEN);
    if written != 0 {
        return crate::variable_key(image, written);
    }
    if is_jump(operation) | (operation == Cell::OE) {
        return target_key(firsts, numbers::read2(image, place + TARGET));
    }
    0
}

// The mnemonic of a statement that has one.
fn mnemonic(operation: u8) -> u64
    ensures { result ≡ mnemonic_key operation }
{
    if operation <= Cell::SET_WITH {
        return 0;
    }
    names::mnemonic(operation) as u64
}

fn space_if(test: bool) -> u64
    ensures { packed result ≡ if_so test (32 ∷ []) }
{
    if test { SPACE } else { 0 }
}

// What ends the opening: an equals sign, or a comma before a condition.
fn end(operation: u8, more: bool) -> u64
    ensures { result ≡ end_of operation more }
{
    if operation <= Cell::SET_WITH {
        return words::EQUALS;
    }
    if more & is_jump(operation) {
        return COMMA;
    }
    0
}

// What stands before the operands.
pub fn opening(image: &[u8], firsts: &[u16], cell: u16) -> [u64; 4]
    ensures { flat_map packed result ≡ opening_text image.now firsts.now (cell_at image.now cell) }
{
    let place = CELL_BYTES * (cell as usize);
    let operation = image::byte(image, place);
    let name = name_key(image, firsts, operation, place);
    let shape = image::byte(image, place + SHAPES) % RIGHT_SHAPE;
    let more = (shape == LITERAL) | (shape == VARIABLE);
    let spaced = (Cell::SET_WITH < operation) & (more | (name != 0));
    [
        mnemonic(operation),
        space_if(spaced),
        name as u64,
        end(operation, more),
    ]
}

// The sign of an operator, and of a comparison.
fn operator_sign(selector: u8) -> u8
    ensures { packed result ≡ operator_text selector }
{
    match selector {
        Cell::PLUS => b'+',
        Cell::MINUS => b'-',
        Cell::TIMES => b'*',
        Cell::DIVIDED => b'/',
        Cell::AND => b'&',
        Cell::OR => b'|',
        _ => b'^',
    }
}

fn comparison_sign(selector: u8) -> u64
    ensures { packed result ≡ comparison_text selector }
{
    match selector {
        Cell::ALWAYS => 0,
        Cell::EQUAL => EQUAL,
        Cell::UNEQUAL => UNEQUAL,
        Cell::LESS => LESS,
        Cell::AT_MOST => AT_MOST,
        Cell::GREATER => GREATER,
        _ => AT_LEAST,
    }
}

// The sign between the operands.
fn sign(operation: u8, selector: u8) -> u64
    ensures { packed result ≡ sign_text operation selector }
{
    if operation == Cell::SET_WITH {
        return operator_sign(selector) as u64;
    }
    if is_jump(operation) {
        return comparison_sign(selector);
    }
    0
}

// The operands, with the sign between them, and the end of the line.
pub fn operands(image: &[u8], cell: u16) -> [u64; 6]
    ensures { flat_map packed result ≡ operands_text image.now (cell_at image.now cell) }
{
    let place = CELL_BYTES * (cell as usize);
    let shapes = image::byte(image, place + SHAPES);
    let left = operand(image, shapes % RIGHT_SHAPE, place + LEFT);
    let right = operand(image, shapes / RIGHT_SHAPE, place + RIGHT);
    let sign = sign(
        image::byte(image, place),
        image::byte(image, place + SELECTOR),
    );
    [
        left.first,
        left.second,
        sign,
        right.first,
        right.second,
        words::END,
    ]
}
