// What the tool says, put into lines: words, and bytes of files as people can read them.
#![tactic(auto)]

pub mod differences;
pub mod given;
mod hints;
mod marks;
pub mod refusals;
mod runs;
pub mod state;
pub mod trace;

pub use hints::{Found, Hint};
use parts::{Line, Page};
use words::{Kind, Part};

// How far what stands below a line is set in.
const SET_IN: usize = 4;

// How much of a line of a file is shown.
const MOST_SHOWN: usize = 100;

// A byte of a file or of a name: one that is not plain is shown by its two hexadecimal digits.
fn plain(line: Line, b: u8) -> Line {
    match b {
        b' '..=b'~' => line.byte(b),
        _ => part(line, Part::Escape).hex(b),
    }
}

// A line of a file, as much of it as is shown.
pub fn shown(line: Line, bytes: &[u8]) -> Line {
    let start = bytes.iter().take(MOST_SHOWN);
    let line = start.fold(line, |line, b| plain(line, *b));
    if bytes.len() <= MOST_SHOWN {
        return line;
    }
    part(line, Part::Cut)
}

// The name of a file.
pub fn name(page: &mut Page, path: &[u8]) {
    for b in path {
        plain(Line::empty(), *b).onto(page);
    }
}

// The name of a label or of a variable, by its key.
pub fn key(line: Line, key: u16) -> Line {
    match key.to_le_bytes() {
        [only, 0] => line.byte(only),
        both => line.bytes(&both),
    }
}

// The line for a number of a kind, as `error 102: ..`; or only what stands behind its colon. Nothing where there is none, and for no kind.
pub fn words<K: Into<Option<Kind>>>(line: Line, kind: K, n: u32) -> Line {
    match kind.into() {
        Some(kind) => line.bytes(words::line_for(kind, n).unwrap_or("").as_bytes()),
        None => line,
    }
}

pub fn meaning<K: Into<Option<Kind>>>(line: Line, kind: K, n: u32) -> Line {
    match kind.into() {
        Some(kind) => line.bytes(words::meaning_for(kind, n).unwrap_or("").as_bytes()),
        None => line,
    }
}

// A part of what the tool says; nothing for no part.
pub fn part<P: Into<Option<Part>>>(line: Line, part: P) -> Line {
    match part.into() {
        Some(part) => meaning(line, Kind::Part, part as u32),
        None => line,
    }
}

// Such a part, and a number.
pub fn part_number<P: Into<Option<Part>>>(line: Line, said: P, value: u64) -> Line {
    part(line, said).number(value)
}

// What the text on the tool's use says on one command; nothing where it tells of none with this number.
pub fn help_of(page: &mut Page, command: u32) {
    for line in words::help_of(command) {
        page.add(line.as_bytes());
        page.push(b'\n');
    }
}

// What a number of an answer means: as a refusal, as an error and as an end. Nothing for another number.
pub fn explain(number: u32) -> Line {
    let kinds = [Kind::Refusal, Kind::Error, Kind::End];
    kinds
        .into_iter()
        .fold(Line::empty(), |line, kind| explained(line, kind, number))
}

// The line for a number of a kind, if there is one, and an example below it; an end needs none. Below an error, what a program then sees.
fn explained(line: Line, kind: Kind, number: u32) -> Line {
    let Some(said) = words::line_for(kind, number) else {
        return line;
    };
    let line = line.bytes(said.as_bytes()).end();
    if kind == Kind::End {
        return line;
    }
    let line = meaning(line.spaces(SET_IN), Kind::Sample, number).end();
    if kind == Kind::Refusal {
        return line;
    }
    let line = part(line.spaces(SET_IN), Part::AfterError).end();
    part(line.spaces(SET_IN), Part::Handler).end()
}

// A line with spaces behind it, up to a column.
fn filled(line: Line, column: usize) -> Line {
    line.spaces(column.saturating_sub(line.len()))
}
