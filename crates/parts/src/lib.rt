// Bytes taken apart, into lines of a text and words of a line; and bytes put together.
#![tactic(auto)]

ghost use Rattle.std.specs.Prelude.{◌≡◌, ◌≤◌, drop};

pub mod writing;

// How many bytes a line and a page that are put together have room for.
pub const LINE: usize = 2048;

pub const PAGE: usize = 65536;

// Bytes that are put together, as many as there is room for.
// Stays: no call can fail, so no heap: the bytes stand in an array, and the first of them are in use.
#[derive(Clone, Copy)]
pub struct Text<const ROOM: usize> {
    bytes: [u8; ROOM],
    held: usize,
    ghost fits: { held ≤ ROOM },
}

pub type Line = Text<LINE>;

pub type Page = Text<PAGE>;

// The first so many bytes; none where there are fewer.
pub fn front<'a>(bytes: &'a [u8], count: usize) -> &'a [u8] {
    bytes.get(..count).unwrap_or(&[])
}

// The same, to be written.
pub fn lent<'a>(bytes: &'a mut [u8], count: usize) -> &'a mut [u8] {
    bytes.get_mut(..count).unwrap_or(&mut [])
}

// The bytes behind the first so many; none where there are fewer.
pub fn back<'a>(bytes: &'a [u8], count: usize) -> &'a [u8]
    ensures { result.now ≡ drop count bytes.now }
{
    bytes.get(count..).unwrap_or(&[])
}

// The bytes from one place to before another; none where these are no places in order.
pub fn between<'a>(bytes: &'a [u8], start: usize, end: usize) -> &'a [u8] {
    bytes.get(start..end).unwrap_or(&[])
}

// The byte at a place; 0 past the end.
pub fn byte(bytes: &[u8], at: usize) -> u8 {
    bytes.get(at).copied().unwrap_or(0)
}

// The line of a text with this number, from 1, without its ending; empty where there is none.
// Stays: who asks (telling's `trace` and `refusals`) takes a line that is not there as an empty one.
pub fn line_of<'a>(text: &'a [u8], number: usize) -> &'a [u8] {
    let Some(before) = number.checked_sub(1) else {
        return &[];
    };
    text::lines_of(text).nth(before).unwrap_or(&[])
}

pub fn is_blank(b: u8) -> bool {
    (b == b' ') | (b == b'\t')
}

// The place of the first such byte, from a place on; the line's end where there is none.
fn place_of<F: Fn(u8) -> bool>(line: &[u8], at: usize, is_sought: F) -> usize
    requires { (f : _) (x : _) → F.pre f x }
{
    let rest = back(line, at);
    let behind = rest.iter().position(|b| is_sought(*b));
    at + behind.unwrap_or(rest.len())
}

// The place of the first byte that is no blank, from a place on.
pub fn past_blanks(line: &[u8], at: usize) -> usize {
    place_of(line, at, |b| !is_blank(b))
}

// The place of the first blank, from a place on.
fn past_word(line: &[u8], at: usize) -> usize {
    place_of(line, at, is_blank)
}

// A line from its first word on.
fn begun<'a>(line: &'a [u8]) -> &'a [u8] {
    back(line, past_blanks(line, 0))
}

// The first word of a line; empty where it has none.
pub fn word<'a>(line: &'a [u8]) -> &'a [u8] {
    let rest = begun(line);
    front(rest, past_word(rest, 0))
}

// What stands behind the first word.
pub fn behind<'a>(line: &'a [u8]) -> &'a [u8] {
    let rest = begun(line);
    back(rest, past_word(rest, 0))
}

// The place of a word of a line by its number, from 0; that of the line's end where there are fewer.
pub fn word_place(line: &[u8], number: usize) -> usize {
    let mut at = past_blanks(line, 0);
    for _ in 0..number {
        at = past_blanks(line, past_word(line, at));
    }
    at
}

// The word at a place.
pub fn word_at<'a>(line: &'a [u8], at: usize) -> &'a [u8] {
    between(line, at, past_word(line, at))
}

// How many bytes a line has up to its last that is no blank.
fn used(line: &[u8]) -> usize {
    let last = line.iter().rposition(|b| !is_blank(*b));
    last.map_or(0, |place| place + 1)
}

// A line without its comment.
pub fn code<'a>(line: &'a [u8]) -> &'a [u8] {
    front(line, text::tokens::code_length(line))
}

// A line without its comment, and without the blanks around what is left.
pub fn uncommented<'a>(line: &'a [u8]) -> &'a [u8] {
    let rest = begun(code(line));
    front(rest, used(rest))
}
