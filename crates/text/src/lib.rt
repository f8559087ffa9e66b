// A program text: its lines; and where the first fault in it is.
#![tactic(auto)]

ghost use Rattle.std.specs.Prelude.{◌≡◌, ◌+◌, ◌≤◌, ◌<◌, length, drop, get_or};
ghost use Rattle.std.specs.Iterator.{YieldsFirstRef, item_count};
ghost use Rattle.text.specs.Lines.{lines};
ghost use Rattle.text.specs.Faults.{long_line};
ghost use Rattle.text.specs.Code.{at_end, line_length, ending_length, LineAt};

pub mod tokens;

// The first faulty line, from 1, with its lowest fault number; both 0 where no line has a fault.
// Stays: `first_fault` in specs/Faults.antt, by which Refusals 20 is stated, gives these two numbers, 0 and 0 where there is none.
#[derive(Clone, Copy)]
pub struct Fault {
    pub number: u8,
    pub line: usize,
}

// Where a line of a text ends, without its ending, and where the next one starts.
#[derive(Clone, Copy)]
pub struct Span {
    pub end: usize,
    pub next: usize,
}

// The byte at a place; 0 past the end.
fn byte(s: &[u8], at: usize) -> u8
    ensures { result ≡ get_or s.now at 0 }
{
    s.get(at).copied().unwrap_or(0)
}

// A line ends here: at an LF, or at a CR and an LF.
fn at_end(s: &[u8], at: usize) -> bool
    requires { at < length s.now }
    ensures { result ≡ at_end (drop at s.now) }
{
    let b = s[at];
    if b'\r' < b {
        return false;
    }
    (b == b'\n') | ((b == b'\r') & (byte(s, at + 1) == b'\n'))
}

// Where the line that starts at `at` ends.
fn line_end(s: &[u8], at: usize) -> usize
    requires { at ≤ length s.now }
    ensures { result ≡ at + line_length (drop at s.now) }
{
    for end in at..s.len() {
        if at_end(s, end) {
            return end;
        }
    }
    s.len()
}

// Where the next line starts, after one that ends at `end`.
fn line_next(s: &[u8], end: usize) -> usize
    requires { end ≤ length s.now }
    ensures { result ≡ end + ending_length (drop end s.now) }
{
    match s.get(end) {
        None => end,
        Some(b'\n') => end + 1,
        Some(_) => end + 2,
    }
}

// The line that starts at `at`.
// Stays: this, and what it asks, take a text with a place in it: docs/PAPER.md names `line_at` and `line_next`, whose clauses give places in the whole text; `lines_of` has the lines as slices.
pub fn line_at(s: &[u8], at: usize) -> Span
    requires { at < length s.now }
    ensures { LineAt s.now at result }
{
    let end = line_end(s, at);
    let next = line_next(s, end);
    Span { end, next }
}

// The lines of a text that are still to come, each without its ending.
#[derive(Drop)]
pub struct LinesLeft<'a> {
    rest: &'a [u8],
}

// The lines of a text.
pub fn lines_of(text: &[u8]) -> LinesLeft<'_>
    ensures { result.rest.now ≡ text.now }
{
    LinesLeft { rest: text }
}

impl<'a> Iterator for LinesLeft<'a> {
    type Item = &'a [u8];

    ghost next_gives = { YieldsFirstRef (λ it. lines it.rest.now) };

    ghost remaining = { item_count (λ it. lines it.rest.now) };

    fn next(&mut self) -> Option<&'a [u8]> {
        let text = self.rest;
        if text.is_empty() {
            return None;
        }
        let span = line_at(text, 0);
        self.rest = text.get(span.next..).unwrap_or(&[]);
        Some(&text[..span.end])
    }
}

impl Span {
    // The most bytes of a line.
    pub const LONGEST: usize = 64;
}

pub fn is_long(l: &[u8]) -> bool
    ensures { result ≡ long_line l.now }
{
    Span::LONGEST < l.len()
}
