// The labels of an image: their lines, which come next, and the first of each target.
ghost use Rattle.std.specs.Prelude.{◌≡◌};
ghost use mathlib.Core.List.{flat_map};
ghost use Rattle.printing.specs.Code.{packed, firsts_of, label_text, label_next};

use crate::words;

// `LB` and a space.
const LB: u64 = 2114124;

// How many targets there are: each cell, and the place behind the last.
pub const TARGETS: usize = 257;

// The key of the first label of each target; 0 where there is none.
// Stays: 0 for none is what `firsts_of` and `target_key` say, and the word of no bytes, which is written as it is.
pub type Firsts = [u16; TARGETS];

// From the last record to the first, so that of several with one target the first stays.
pub fn firsts(image: &[u8]) -> Firsts
    ensures { result ≡ firsts_of image.now }
{
    let cells = image::cell_count(image);
    let mut firsts = [0u16; TARGETS];
    for k in (0..image::label_count(image)).rev() {
        let target = image::target_at(image, cells, k) as usize;
        if target < TARGETS {
            firsts[target] = numbers::read2(image, image::label_place(cells, k));
        }
    }
    firsts
}

// A label comes before a cell: one that is there, with a target not past the cell, or any behind the last cell.
pub fn is_next(image: &[u8], label: u16, cell: u16) -> bool
    ensures { result ≡ label_next image.now label cell }
{
    if image::label_count(image) <= label {
        return false;
    }
    let cells = image::cell_count(image);
    (cells <= cell) | (image::target_at(image, cells, label) <= cell)
}

// The line of a label.
pub fn line(image: &[u8], label: u16) -> [u64; 3]
    ensures { flat_map packed result ≡ label_text image.now label }
{
    let place = image::label_place(image::cell_count(image), label);
    [LB, numbers::read2(image, place) as u64, words::END]
}
