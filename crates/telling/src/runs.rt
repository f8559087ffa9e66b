// Words and numbers on a line of a text: runs of letters and digits.
use program::names::{self, is_digit, is_letter};

// The longest words.
pub const WORD: usize = 2;

// A mnemonic, by its place among them, from 1.
// Stays: it is known by its place, as `program::names::mnemonic` has it; an enum would be a table of the mnemonics again, of which only three are asked for.
#[derive(Clone, Copy)]
pub struct Mnemonic(u8);

impl Mnemonic {
    const BR: u8 = 5;

    const CL: u8 = 6;

    const OE: u8 = 10;

    const LAST: u8 = 14;

    // The hints at what the mnemonics take stand in their order, behind this one.
    const HINTS: u32 = 24;

    // The mnemonic that a run is, or one with a number directly behind it.
    pub fn of(run: &[u8]) -> Option<Mnemonic> {
        if run.get(WORD).is_some_and(|b| !is_digit(*b)) {
            return None;
        }
        let key = numbers::read2(run, 0);
        (1..=Self::LAST)
            .find(|place| names::mnemonic(*place) == key)
            .map(Mnemonic)
    }

    // The number of the hint at what it takes.
    pub fn hint(self) -> u32 {
        Self::HINTS + (self.0 as u32)
    }

    // A number may stand behind OE too, if it is 0.
    pub fn takes_zero(self) -> bool {
        self.0 == Self::OE
    }

    // A label's name stands behind these.
    pub fn wants_label(self) -> bool {
        matches!(self.0, Self::BR | Self::CL | Self::OE)
    }
}

fn belongs(b: u8) -> bool {
    is_letter(b) | is_digit(b)
}

// The run that begins at a place; empty where there is a sign or a blank.
pub fn at<'a>(code: &'a [u8], start: usize) -> &'a [u8] {
    let rest = parts::back(code, start);
    let length = rest.iter().position(|b| !belongs(*b));
    parts::front(rest, length.unwrap_or(rest.len()))
}

// The place behind it.
pub fn end(code: &[u8], start: usize) -> usize {
    start.saturating_add(at(code, start).len())
}

// A run begins at a place, if any stands there: what stands before it belongs to none.
fn begins(code: &[u8], place: usize) -> bool {
    match place.checked_sub(1) {
        Some(before) => !belongs(parts::byte(code, before)),
        None => true,
    }
}

// The first run of a line of which something is told, with its place.
pub fn first_told<T, F: Fn(usize, &[u8]) -> Option<T>>(code: &[u8], told: F) -> Option<(usize, T)>
    requires { F.IsAlwaysCallable told }
{
    (0..code.len())
        .filter(|place| begins(code, *place))
        .find_map(|place| told(place, at(code, place)).map(|found| (place, found)))
}

// The key of a run, where it is no longer than a name.
pub fn key(run: &[u8]) -> Option<u16> {
    (run.len() <= WORD).then(|| numbers::read2(run, 0))
}

// The place of the first run of a line, and of what stands behind it.
pub fn first(code: &[u8]) -> usize {
    parts::past_blanks(code, 0)
}

pub fn second(code: &[u8]) -> usize {
    parts::past_blanks(code, end(code, first(code)))
}

// The mnemonic that a line begins with.
pub fn beginning(code: &[u8]) -> Option<Mnemonic> {
    Mnemonic::of(at(code, first(code)))
}
