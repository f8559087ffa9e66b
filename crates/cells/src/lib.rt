// The cells of an image: whether each is one that translating makes.
#![tactic(auto)]

ghost use Rattle.std.specs.Prelude.{◌≡◌, true, set};
ghost use Rattle.numbers.specs.Tests.{any_of};
ghost use Rattle.image.specs.Layout.{label_count, variable_count, label_target};
ghost use Rattle.image.specs.Check.{layouts, good_written, good_selector, good_operand, good_target, bad_cell, bad_cells};
ghost use Rattle.image.specs.Code.{labelled};
ghost use Rattle.cells.specs.Code.{Marked, use_of, fields_at, fits_of, literal_bits};

use program::{Cell, Variable};

// A label of a good image has a target below this: one of the cells, or the place behind the last.
const TARGETS: usize = (Cell::MOST as usize) + 1;

// The fields of a cell as they stand.
// Stays: bytes of an image, of which any may stand there: `fields_at` (specs/Code.antt) reads them.
#[derive(Clone, Copy)]
struct Fields {
    operation: u8,
    written: u8,
    selector: u8,
    shapes: u8,
    left: u32,
    right: u32,
    target: u16,
    zeros: u16,
}

// The fields that an operation may use together: the operation; whether it writes a variable; its last operator or
// comparison, 0 where it has none; whether it has a left operand, a right operand and a target.
// Stays: 0 for no operator and no comparison: `layouts` and `good_selector` of Check say 0.
type Layout = (u8, bool, u8, bool, bool, bool);

const LAYOUTS: [Layout; 17] = [
    (Cell::SET, true, 0, true, false, false),
    (Cell::SET_WITH, true, Cell::XOR, true, true, false),
    (Cell::IC, true, 0, false, false, false),
    (Cell::DC, true, 0, false, false, false),
    (Cell::BR, false, 0, false, false, true),
    (Cell::BR, false, Cell::AT_LEAST, true, true, true),
    (Cell::CL, false, 0, false, false, true),
    (Cell::CL, false, Cell::AT_LEAST, true, true, true),
    (Cell::RT, false, 0, false, false, false),
    (Cell::E, false, 0, false, false, false),
    (Cell::H, false, 0, false, false, false),
    (Cell::H, false, 0, true, false, false),
    (Cell::OE, false, 0, false, false, true),
    (Cell::MA, false, 0, true, false, false),
    (Cell::MR, false, 0, true, false, false),
    (Cell::SL, false, 0, true, false, false),
    (Cell::PR, false, 0, true, false, false),
];

// The variable written is there and not read-only; unused, it is 0.
fn good_written(variables: u16, used: bool, v: u8) -> bool
    ensures { result ≡ good_written variables used v }
{
    if used {
        let variable = Variable(v as u32);
        return variable.is_present(variables) & !variable.is_read_only();
    }
    v == 0
}

// An operator or a comparison up to the last; unused, it is 0.
fn good_selector(last: u8, n: u8) -> bool
    ensures { result ≡ good_selector last n }
{
    if last == 0 {
        return n == 0;
    }
    (1 <= n) & (n <= last)
}

// The digits of a literal in its range.
pub fn is_literal(n: u32) -> bool
    ensures { result ≡ literal_bits n }
{
    Variable::literals().holds(numbers::signed(n) as i64)
}

// A literal in its range or a variable that is there; unused, shape and number are 0.
fn good_operand(variables: u16, used: bool, shape: u8, n: u32) -> bool
    ensures { result ≡ good_operand variables used shape n }
{
    if used {
        return ((shape == image::LITERAL) & is_literal(n))
            | ((shape == image::VARIABLE) & Variable(n).is_present(variables));
    }
    (shape == 0) & (n == 0)
}

fn is_label_target(s: &[u8], target: u16) -> bool
    ensures { result ≡ labelled s.now target }
{
    let cells = image::cell_count(s);
    (0..image::label_count(s)).any(|k| image::target_at(s, cells, k) == target)
}

// A mark at a place; none past the end.
// Stays: an index behind its test: tried with `get_mut`, after which a proof knows the length of the slice and none of its elements.
fn mark(marks: &mut [bool], place: usize)
    ensures { marks.new ≡ set marks.old place true }
{
    if place < marks.len() {
        marks[place] = true;
    }
}

// The targets of the label records, each marked; those past the table are not.
fn label_targets(s: &[u8]) -> [bool; TARGETS]
    ensures { Marked 257 (label_target s.now) (label_count s.now) result }
{
    let cells = image::cell_count(s);
    let mut marks = [false; TARGETS];
    for k in 0..image::label_count(s) {
        mark(&mut marks, image::target_at(s, cells, k) as usize);
    }
    marks
}

fn fields_at(s: &[u8], k: u16) -> Fields
    ensures { result ≡ fields_at s.now k }
{
    let place = image::CELL_BYTES * (k as usize);
    Fields {
        operation: image::byte(s, place),
        written: image::byte(s, place + image::WRITTEN),
        selector: image::byte(s, place + image::SELECTOR),
        shapes: image::byte(s, place + image::SHAPES),
        left: numbers::read4(s, place + image::LEFT),
        right: numbers::read4(s, place + image::RIGHT),
        target: numbers::read2(s, place + image::TARGET),
        zeros: numbers::read2(s, place + image::ZEROS),
    }
}

// A cell has just the fields of a layout. Whether its target is good where one is used was found before.
fn fits(variables: u16, aimed: bool, f: Fields, u: Layout) -> bool
    ensures { result ≡ fits_of variables aimed f (use_of u) }
{
    let (operation, writes, last, left, right, target) = u;
    if f.operation != operation {
        return false;
    }
    if !good_written(variables, writes, f.written) {
        return false;
    }
    if !good_selector(last, f.selector) {
        return false;
    }
    if !good_operand(variables, left, f.shapes % image::RIGHT_SHAPE, f.left) {
        return false;
    }
    if !good_operand(variables, right, f.shapes / image::RIGHT_SHAPE, f.right) {
        return false;
    }
    if target {
        return aimed & (f.zeros == 0);
    }
    (f.target == 0) & (f.zeros == 0)
}

fn has_layout(variables: u16, aimed: bool, f: Fields) -> bool
    ensures { result ≡ any_of (fits_of variables aimed f) layouts }
{
    LAYOUTS.iter().any(|u| fits(variables, aimed, f, *u))
}

// An image whose cells are judged: how many variables it has, and the targets of its labels, each marked.
#[derive(Drop)]
struct Judged<'a> {
    image: &'a [u8],
    variables: u16,
    targets: [bool; TARGETS],
    ghost counted: { variables ≡ variable_count image.now },
    ghost marked: { Marked 257 (label_target image.now) (label_count image.now) targets },
}

impl<'a> Judged<'a> {
    fn of(image: &'a [u8]) -> Self
        ensures { result.image.now ≡ image.now }
    {
        Judged {
            image,
            variables: image::variable_count(image),
            targets: label_targets(image),
        }
    }

    // The target of a cell that uses one: a label record has it, or it is that of `OE 0`. The records are walked only for a target
    // past the table, which no good image has.
    fn good_target(&self, operation: u8, target: u16) -> bool
        ensures { result ≡ good_target self.now.image.now operation true target }
    {
        if (operation == Cell::OE) & (target == Cell::NO_TARGET) {
            return true;
        }
        match self.targets.get(target as usize) {
            Some(marked) => *marked,
            None => is_label_target(self.image, target),
        }
    }

    fn bad_cell(&self, k: u16) -> bool
        ensures { result ≡ bad_cell self.now.image.now k }
    {
        let f = fields_at(self.image, k);
        let aimed = self.good_target(f.operation, f.target);
        !has_layout(self.variables, aimed, f)
    }
}

// Some cell has none of the layouts.
pub fn bad_cells(s: &[u8]) -> bool
    ensures { result ≡ bad_cells s.now }
{
    let judged = Judged::of(s);
    (0..image::cell_count(s)).any(|k| judged.bad_cell(k))
}
