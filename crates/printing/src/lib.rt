// The listing of an image, written: it is put together on a page first, so that nothing is written where there is no room.
#![tactic(auto)]

ghost use Rattle.std.specs.Prelude.{◌≡◌, ◌≤◌, length};
ghost use mathlib.Core.List.{flat_map};
ghost use Rattle.program.specs.Code.{key};
ghost use Rattle.image.specs.Layout.{variable_count, variable_place};
ghost use Rattle.printing.specs.Listing.{variable_name};
ghost use Rattle.printing.specs.Code.{packed, Put, record_text, variable_texts, firsts_of, image_text, if_room};

mod labels;
mod statements;
mod words;

use program::Variable;

// What does not fit into one word.
// Stays: 0 is the word of no bytes, of which `packed` gives none, so that nothing is written for it and no case is asked.
#[derive(Clone, Copy)]
struct Two {
    first: u64,
    second: u64,
}

// The most bytes that a listing has.
pub const LONGEST: usize = 9472;

// The number of the first variable of the user's.
const FIRST_USER: u8 = Variable::FIRST_USER as u8;

// `VA` and a space.
const VA: u64 = 2113878;

// Where the variable record with this number stands.
fn variable_place(image: &[u8], number: u16) -> usize
    ensures { (result ≡ variable_place image.now number) × (result ≤ 1834980) }
{
    image::variable_place(image::cell_count(image), image::label_count(image), number)
}

// The key of the name of an image's variable: the paper's, or that of its record.
pub fn variable_key(image: &[u8], number: u8) -> u16
    ensures { result ≡ key (variable_name image.now number) }
{
    if number < FIRST_USER {
        return Variable(number as u32).key();
    }
    numbers::read2(image, variable_place(image, (number - FIRST_USER) as u16))
}

// The line of a variable record.
fn variable_line(image: &[u8], number: u16) -> [u64; 6]
    ensures { flat_map packed result ≡ record_text image.now number }
{
    let place = variable_place(image, number);
    let name = numbers::read2(image, place);
    let start = words::literal(numbers::read4(image, place + image::START_VALUE));
    [
        VA,
        name as u64,
        words::EQUALS,
        start.first,
        start.second,
        words::END,
    ]
}

// The lines of all variable records.
fn put_variables(image: &[u8], page: &mut [u8]) -> usize
    ensures { Put (variable_texts image.now 0 (variable_count image.now)) page.old 0 result page.new }
{
    let mut at: usize = 0;
    for k in 0..image::variable_count(image) {
        at = words::put(page, at, &variable_line(image, k));
    }
    at
}

// All lines: those of the variables, and then of cells and labels, whichever comes next.
fn put_lines(image: &[u8], firsts: &[u16], page: &mut [u8]) -> usize
    requires { firsts.now ≡ firsts_of image.now }
    ensures { Put (image_text image.now) page.old 0 result page.new }
{
    let cells = image::cell_count(image);
    let labels = image::label_count(image);
    let mut at = put_variables(image, page);
    let mut label: u16 = 0;
    let mut cell: u16 = 0;
    // Stays: two counts go up in turn, each by what `label_next` says comes next, so neither runs over a range.
    while (cell < cells) | (label < labels) {
        if labels::is_next(image, label, cell) {
            at = words::put(page, at, &labels::line(image, label));
            label += 1;
        } else {
            at = words::put(page, at, &statements::opening(image, firsts, cell));
            at = words::put(page, at, &statements::operands(image, cell));
            cell += 1;
        }
    }
    at
}

// Copies bytes to the front of a buffer, if there is room.
fn give(bytes: &[u8], text: &mut [u8])
    ensures { text.new ≡ if_room bytes.now text.old }
{
    if bytes.len() <= text.len() {
        text[..bytes.len()].copy_from_slice(bytes);
    }
}

// The listing of an image, no longer than the longest, to the front of a buffer if there is room; and its length.
pub fn write_listing(image: &[u8], text: &mut [u8]) -> usize
    requires { length (image_text image.now) ≤ 9472 }
    ensures { (result ≡ length (image_text image.now)) × (text.new ≡ if_room (image_text image.now) text.old) }
{
    let firsts = labels::firsts(image);
    let mut page = [0u8; LONGEST];
    let length = put_lines(image, &firsts, &mut page);
    give(&page[..length], text);
    length
}
