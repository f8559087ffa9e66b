// Writing the parts of an image. What falls past the end of the buffer is not written.
ghost use Rattle.std.specs.Prelude.{◌≡◌, ◌++◌};
ghost use Rattle.std.proofs.lemmas.List.Edits.{sets};
ghost use Rattle.numbers.specs.Bytes.{bytes};
ghost use Rattle.numbers.specs.Bits.{digits32};
ghost use Rattle.image.specs.Layout.{shape, operand_number, cell_bytes, trailer_bytes};
ghost use Rattle.image.specs.Code.{first_half, second_half};

use program::{Cell, Operand};

fn shape(o: Operand) -> u8
    ensures { result ≡ shape o }
{
    match o {
        Operand::Nothing => 0,
        Operand::Literal(_) => crate::LITERAL,
        Operand::Variable(_) => crate::VARIABLE,
    }
}

// The number in an operand's four bytes.
fn operand_number(o: Operand) -> u32
    ensures { result ≡ operand_number o }
{
    match o {
        Operand::Nothing => 0,
        Operand::Literal(z) => numbers::digits(z),
        Operand::Variable(v) => v,
    }
}

// The number whose bytes are those of two numbers, one behind the other: of one byte each, of two.
// Stays: the new form is no plainer: with `numbers::eight_bytes` there are three such lines, and a trait for them has a line for each type too.
fn two_bytes(low: u8, high: u8) -> u16
    ensures { bytes 2 result ≡ bytes 1 low ++ bytes 1 high }
{
    u16::from_le_bytes([low, high])
}

fn four_bytes(low: u16, high: u16) -> u32
    ensures { bytes 4 result ≡ bytes 2 low ++ bytes 2 high }
{
    u32::from(low) + 65536 * u32::from(high)
}

// The first eight bytes of a cell: operation, variable written, operator or comparison, shapes, left operand.
fn first_half(c: Cell) -> u64
    ensures { bytes 8 result ≡ first_half c }
{
    let left = c.left;
    let right = c.right;
    let shapes = shape(left) + crate::RIGHT_SHAPE * shape(right);
    let front = two_bytes(c.operation, (c.written % 256) as u8);
    let head = four_bytes(front, two_bytes(c.selector, shapes));
    numbers::eight_bytes(head, operand_number(left))
}

// The other eight: right operand, target, zeros.
fn second_half(c: Cell) -> u64
    ensures { bytes 8 result ≡ second_half c }
{
    let right = c.right;
    numbers::eight_bytes(operand_number(right), four_bytes(c.target, 0))
}

// The 16 bytes of a cell.
pub fn write_cell(b: &mut [u8], at: usize, c: Cell)
    ensures { b.new ≡ sets b.old at (cell_bytes c) }
{
    if b.len() <= at {
        return;
    }
    numbers::write(b, at, 8, first_half(c));
    numbers::write(b, at + crate::RIGHT, 8, second_half(c));
}

// A label record: the name as a number, and the target.
pub fn write_label(b: &mut [u8], at: usize, name: u16, target: u16)
    ensures { b.new ≡ sets b.old at (bytes 2 name ++ bytes 2 target) }
{
    numbers::write(b, at, 4, u64::from(four_bytes(name, target)));
}

// A variable record: the name as a number, and the start value.
pub fn write_variable(b: &mut [u8], at: usize, name: u16, start: i32)
    ensures { b.new ≡ sets b.old at (bytes 2 name ++ (bytes 2 0 ++ bytes 4 (digits32 start))) }
{
    numbers::write(
        b,
        at,
        8,
        numbers::eight_bytes(four_bytes(name, 0), numbers::digits(start)),
    );
}

// The trailer of an image with these counts.
pub fn write_trailer(b: &mut [u8], at: usize, cells: u16, labels: u16, variables: u16)
    ensures { b.new ≡ sets b.old at (trailer_bytes cells labels variables) }
{
    if b.len() <= at {
        return;
    }
    let first_label = crate::label_place(cells, 0) as u32;
    let whole = crate::image_length(cells, labels, variables) as u32;
    let front = numbers::eight_bytes(first_label, four_bytes(cells, labels));
    let back = numbers::eight_bytes(four_bytes(variables, crate::THIS_EDITION), whole);
    numbers::write(b, at, 8, front);
    numbers::write(b, at + crate::VARIABLE_COUNT, 8, back);
}
