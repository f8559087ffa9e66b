// Checking an image: a test for each row of its refusals.
#![tactic(auto)]

ghost use Rattle.std.specs.Prelude.{◌≡◌, false, ◌+◌};
ghost use Rattle.numbers.specs.Bytes.{Bytes};
ghost use Rattle.numbers.specs.Tests.{any_below};
ghost use Rattle.image.specs.Layout.{cell_count, label_count, variable_count};
ghost use Rattle.image.specs.Check.{bad_length, bad_edition, bad_trailer, record_place, bad_name, bad_target, bad_start, bad_records, checked};
ghost use Rattle.checking.specs.Code.{key_at, number_of, refusal_number};

use program::{Cell, Variable};

// The refusals of an image.
#[derive(Clone, Copy, PartialEq, Eq, Debug)]
pub enum Refusal {
    BadLength = 21,
    BadEdition = 22,
    BadTrailer = 23,
    BadCells = 24,
    BadRecords = 25,
}

impl Refusal {
    pub fn number(self) -> u8
        ensures { result ≡ number_of self }
    {
        self as u8
    }
}

// The length of an image with as many cells, labels and variables as there may be.
const LONGEST: usize = image::CELL_BYTES * (Cell::MOST as usize)
    + image::LABEL_BYTES * (Cell::MOST_LABELS as usize)
    + image::VARIABLE_BYTES * (Variable::MOST_USERS as usize)
    + image::TRAILER_BYTES;

fn bad_length(s: &[u8]) -> bool
    ensures { result ≡ bad_length s.now }
{
    (s.len() < image::TRAILER_BYTES) | (LONGEST < s.len())
}

fn bad_edition(s: &[u8]) -> bool
    ensures { result ≡ bad_edition s.now }
{
    image::edition(s) != image::THIS_EDITION
}

// Whether the trailer's numbers go against each other or against the bytes that are there, or count more than there may be.
fn bad_trailer(s: &[u8]) -> bool
    ensures { result ≡ bad_trailer s.now }
{
    let cells = image::cell_count(s);
    let labels = image::label_count(s);
    let variables = image::variable_count(s);
    let place = image::first_label_place(s) as usize;
    let whole = image::whole_length(s) as usize;
    (place != image::CELL_BYTES * (cells as usize))
        | (whole != s.len())
        | (image::image_length(cells, labels, variables) != s.len())
        | (Cell::MOST < cells)
        | (Cell::MOST_LABELS < labels)
        | (Variable::MOST_USERS < variables)
}

// The number of any name of two characters is below this: the second one, which counts 256 times, is at most a `Z`.
const KEYS: usize = 256 * ((b'Z' as usize) + 1);

// The records of an image, and its counts, read once.
#[derive(Drop)]
struct Records<'a> {
    image: &'a [u8],
    cells: u16,
    labels: u16,
    variables: u16,
    ghost bytes: { Bytes image.now },
    ghost cells_counted: { cells ≡ cell_count image.now },
    ghost labels_counted: { labels ≡ label_count image.now },
    ghost variables_counted: { variables ≡ variable_count image.now },
}

impl<'a> Records<'a> {
    fn of(image: &'a [u8]) -> Self
        ensures { result.image.now ≡ image.now }
    {
        Records {
            image,
            cells: image::cell_count(image),
            labels: image::label_count(image),
            variables: image::variable_count(image),
        }
    }

    // Where a name record stands, the labels' first.
    fn record_place(&self, k: u16) -> usize
        ensures { result ≡ record_place self.now.image.now k }
    {
        if k < self.labels {
            return image::label_place(self.cells, k);
        }
        image::variable_place(self.cells, self.labels, k - self.labels)
    }

    // The name in a record, as a number.
    fn key_at(&self, k: u16) -> u16
        ensures { result ≡ key_at self.now.image.now k }
    {
        numbers::read2(self.image, self.record_place(k))
    }

    // A bad, reserved or repeated name. The names passed are marked, each at its number.
    fn bad_names(&self) -> bool
        requires { bad_trailer self.now.image.now ≡ false }
        ensures { result ≡ any_below (label_count self.now.image.now + variable_count self.now.image.now) (bad_name self.now.image.now) }
    {
        let mut seen = [false; KEYS];
        for k in 0..self.labels + self.variables {
            let key = self.key_at(k);
            if !program::reserved::is_free_name(key) {
                return true;
            }
            let i = key as usize;
            if seen[i] {
                return true;
            }
            seen[i] = true;
        }
        false
    }

    // A label target below the one before it, or over the cell count.
    fn bad_target(&self, k: u16) -> bool
        ensures { result ≡ bad_target self.now.image.now k }
    {
        let target = image::target_at(self.image, self.cells, k);
        if k == 0 {
            return self.cells < target;
        }
        (target < image::target_at(self.image, self.cells, k - 1)) | (self.cells < target)
    }

    fn bad_targets(&self) -> bool
        ensures { result ≡ any_below (label_count self.now.image.now) (bad_target self.now.image.now) }
    {
        (0..self.labels).any(|k| self.bad_target(k))
    }

    // A start value outside its range, or two zeros that are none.
    fn bad_start(&self, k: u16) -> bool
        ensures { result ≡ bad_start self.now.image.now k }
    {
        let place = image::variable_place(self.cells, self.labels, k);
        (numbers::read2(self.image, place + image::VARIABLE_ZEROS) != 0)
            | !cells::is_literal(numbers::read4(self.image, place + image::START_VALUE))
    }

    // Stays: it and `bad_targets` are one line of `any` each, with a count and a test of their own.
    fn bad_starts(&self) -> bool
        ensures { result ≡ any_below (variable_count self.now.image.now) (bad_start self.now.image.now) }
    {
        (0..self.variables).any(|k| self.bad_start(k))
    }
}

fn bad_records(s: &[u8]) -> bool
    requires { bad_trailer s.now ≡ false }
    ensures { result ≡ bad_records s.now }
{
    let records = Records::of(s);
    if records.bad_names() {
        return true;
    }
    if records.bad_targets() {
        return true;
    }
    records.bad_starts()
}

// Accepts an image, or tells its lowest refusal.
pub fn accept(s: &[u8]) -> Result<(), Refusal>
    ensures { refusal_number result ≡ checked s.now }
{
    if bad_length(s) {
        return Err(Refusal::BadLength);
    }
    if bad_edition(s) {
        return Err(Refusal::BadEdition);
    }
    if bad_trailer(s) {
        return Err(Refusal::BadTrailer);
    }
    if cells::bad_cells(s) {
        return Err(Refusal::BadCells);
    }
    if bad_records(s) {
        return Err(Refusal::BadRecords);
    }
    Ok(())
}

// The number of the lowest refusal of an image; 0 where it is accepted.
// Stays: `Checks` (crates/bench/specs/Calls.antt) speaks of this number, and docs/PAPER.md names this contract; `accept` stands beside it.
pub fn checked(s: &[u8]) -> u8
    ensures { result ≡ checked s.now }
{
    match accept(s) {
        Ok(()) => 0,
        Err(refusal) => refusal.number(),
    }
}
