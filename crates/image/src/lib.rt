// An image: cells, label records, variable records and trailer, as bytes.
#![tactic(auto)]

ghost use Rattle.std.specs.Prelude.{◌≡◌, ◌+◌};
ghost use Rattle.numbers.specs.Bytes.{field};
ghost use Rattle.image.specs.Layout.{image_length, trailer_place, first_label_place, cell_count, label_count, variable_count, edition, whole_length, operand_at, cell_at, start_value};
ghost use Rattle.image.specs.Code.{label_place_of, variable_place_of, target_of};

use program::{Cell, Operand};

mod write;

pub use write::{write_cell, write_label, write_trailer, write_variable};

// How many bytes each part takes.
pub const CELL_BYTES: usize = 16;

pub const LABEL_BYTES: usize = 4;

pub const VARIABLE_BYTES: usize = 8;

pub const TRAILER_BYTES: usize = 16;

// Where the fields of a cell stand after its operation.
pub const WRITTEN: usize = 1;

pub const SELECTOR: usize = 2;

pub const SHAPES: usize = 3;

pub const LEFT: usize = 4;

pub const RIGHT: usize = 8;

pub const TARGET: usize = 12;

pub const ZEROS: usize = 14;

// Where the fields of the trailer stand behind its first, which says where the labels begin.
const CELL_COUNT: usize = 4;

const LABEL_COUNT: usize = 6;

const VARIABLE_COUNT: usize = 8;

const EDITION: usize = 10;

const WHOLE_LENGTH: usize = 12;

pub const THIS_EDITION: u16 = 1;

// Where the fields of a label record and of a variable record stand after the name.
const LABEL_TARGET: usize = 2;

pub const VARIABLE_ZEROS: usize = 2;

pub const START_VALUE: usize = 4;

// The shapes of an operand that is there; the right one counts four times.
// Stays: these are bytes of an image, of which any may stand there: `operand_at` and `good_operand` (specs/) speak of each. `program::Operand` is the enum.
pub const LITERAL: u8 = 1;

pub const VARIABLE: u8 = 2;

pub const RIGHT_SHAPE: u8 = 4;

// The length of an image with these counts.
// Stays: the new form is no plainer: this and `write_trailer` alone take the three counts, and each caller would build a struct of them for one call.
pub fn image_length(cells: u16, labels: u16, variables: u16) -> usize
    ensures { result ≡ image_length cells labels variables }
{
    CELL_BYTES * usize::from(cells)
        + (LABEL_BYTES * usize::from(labels)
            + (VARIABLE_BYTES * usize::from(variables) + TRAILER_BYTES))
}

// Where the label record with this number stands, in an image of so many cells.
pub fn label_place(cells: u16, number: u16) -> usize
    ensures { result ≡ label_place_of cells number }
{
    CELL_BYTES * usize::from(cells) + LABEL_BYTES * usize::from(number)
}

// Where the variable record with this number stands, behind so many cells and labels.
pub fn variable_place(cells: u16, labels: u16, number: u16) -> usize
    ensures { result ≡ variable_place_of cells labels number }
{
    CELL_BYTES * usize::from(cells)
        + (LABEL_BYTES * usize::from(labels) + VARIABLE_BYTES * usize::from(number))
}

// One byte; 0 past the end.
pub fn byte(s: &[u8], place: usize) -> u8
    ensures { result ≡ field 1 place s.now }
{
    s.get(place).copied().unwrap_or(0)
}

// The trailer's place: 16 bytes before the end, or the start of what is shorter.
fn trailer_place(s: &[u8]) -> usize
    ensures { result ≡ trailer_place s.now }
{
    s.len().saturating_sub(TRAILER_BYTES)
}

// The six fields of the trailer.
// Stays: the new form is no plainer: each is one line, `read2` or `read4` at its place, under the name of its definition in specs/Layout.antt, which `cell_count_back` and its kin (proofs/Back.antt) go by.
pub fn first_label_place(s: &[u8]) -> u32
    ensures { result ≡ first_label_place s.now }
{
    numbers::read4(s, trailer_place(s))
}

pub fn cell_count(s: &[u8]) -> u16
    ensures { result ≡ cell_count s.now }
{
    numbers::read2(s, trailer_place(s) + CELL_COUNT)
}

pub fn label_count(s: &[u8]) -> u16
    ensures { result ≡ label_count s.now }
{
    numbers::read2(s, trailer_place(s) + LABEL_COUNT)
}

pub fn variable_count(s: &[u8]) -> u16
    ensures { result ≡ variable_count s.now }
{
    numbers::read2(s, trailer_place(s) + VARIABLE_COUNT)
}

pub fn edition(s: &[u8]) -> u16
    ensures { result ≡ edition s.now }
{
    numbers::read2(s, trailer_place(s) + EDITION)
}

pub fn whole_length(s: &[u8]) -> u32
    ensures { result ≡ whole_length s.now }
{
    numbers::read4(s, trailer_place(s) + WHOLE_LENGTH)
}

// The operand of this shape whose number stands at this place.
fn operand_at(s: &[u8], shape: u8, place: usize) -> Operand
    ensures { result ≡ operand_at shape place s.now }
{
    let number = numbers::read4(s, place);
    match shape {
        LITERAL => Operand::Literal(numbers::signed(number)),
        VARIABLE => Operand::Variable(number),
        _ => Operand::Nothing,
    }
}

// The cell with this number, from 0.
pub fn cell_at(s: &[u8], number: u16) -> Cell
    ensures { result ≡ cell_at s.now number }
{
    let place = CELL_BYTES * usize::from(number);
    let operation = byte(s, place);
    let written = byte(s, place + WRITTEN);
    let selector = byte(s, place + SELECTOR);
    let shapes = byte(s, place + SHAPES);
    let left = operand_at(s, shapes % RIGHT_SHAPE, place + LEFT);
    let right = operand_at(s, shapes / RIGHT_SHAPE, place + RIGHT);
    let target = numbers::read2(s, place + TARGET);
    Cell {
        operation,
        written: u16::from(written),
        selector,
        left,
        right,
        target,
    }
}

// The target of a label record, in an image of so many cells.
pub fn target_at(s: &[u8], cells: u16, k: u16) -> u16
    ensures { result ≡ target_of cells s.now k }
{
    numbers::read2(s, label_place(cells, k) + LABEL_TARGET)
}

// The start value in the variable record with this number.
pub fn start_value(s: &[u8], number: u16) -> i32
    ensures { result ≡ start_value s.now number }
{
    let place = variable_place(cell_count(s), label_count(s), number);
    numbers::signed(numbers::read4(s, place + START_VALUE))
}
