// The lines of the input, and the texts, images and events that they make.
ghost use Rattle.std.specs.Prelude.{◌<◌, IfOk};

use parts::{Line, Page};
use scripts::{Fault, Number};

// What a line says, by its first word.
#[derive(Clone, Copy, PartialEq, Eq)]
pub enum Kind {
    Silent,
    Case,
    Block,
    Translate,
    Image,
    Check,
    Run,
    Gives,
    From,
    Line,
    Part,
    Bytes,
    At,
    Translated,
    Event,
    Raw,
    Unknown,
}

// Something did not fit, or a line said something wrong.
#[derive(Clone, Copy)]
pub struct Broken;

impl Kind {
    pub fn of(line: &[u8]) -> Kind {
        match parts::word(line) {
            b"" | b"#" => Kind::Silent,
            b"case" => Kind::Case,
            b"block" => Kind::Block,
            b"translate" => Kind::Translate,
            b"image" => Kind::Image,
            b"check" => Kind::Check,
            b"run" => Kind::Run,
            b"gives" => Kind::Gives,
            b"from" => Kind::From,
            b"line" => Kind::Line,
            b"part" => Kind::Part,
            b"bytes" => Kind::Bytes,
            b"at" => Kind::At,
            b"translated" => Kind::Translated,
            b"event" => Kind::Event,
            b"raw" => Kind::Raw,
            _ => Kind::Unknown,
        }
    }

    // A case ends at a line that says nothing, or starts the next case or a block.
    pub fn ends_case(self) -> bool {
        matches!(self, Kind::Silent | Kind::Case | Kind::Block)
    }

    // A call, an answer or a head: what a text and its events end with.
    pub fn ends_text(self) -> bool {
        match self {
            Kind::Case | Kind::Block | Kind::Gives => true,
            Kind::Translate | Kind::Image | Kind::Check | Kind::Run => true,
            _ => false,
        }
    }

    fn is_of_events(self) -> bool {
        matches!(self, Kind::Event | Kind::Raw)
    }
}

// What stands behind the first word of a line and its space.
pub fn rest<'a>(line: &'a [u8]) -> &'a [u8] {
    parts::back(parts::behind(line), 1)
}

// The number that a word of a line gives; the greatest where it has too many digits, and 0 where it is none.
// Stays: the program takes a number that is too long as more than any room, and a word that is none as 0, so each caller would unwrap to these.
pub fn number(line: &[u8], word: usize) -> u64 {
    match scripts::digits(word_of(line, word)) {
        Ok(number) => number,
        Err(Fault::BigNumber) => u64::MAX,
        Err(Fault::BadForm) => 0,
    }
}

// A word of a line by its number, from 0; empty where there are fewer.
fn word_of<'a>(line: &'a [u8], number: usize) -> &'a [u8] {
    parts::word_at(line, parts::word_place(line, number))
}

// The text, or the image, and the events that lines make. A page that is full is broken.
#[derive(Drop)]
pub struct Given {
    pub text: Page,
    pub events: Page,
}

impl Given {
    pub fn empty() -> Given {
        Given {
            text: Page::empty(),
            events: Page::empty(),
        }
    }

    // Adds what the lines of a case make up to its call, with the blocks among all lines.
    pub fn fill(&mut self, lines: &[u8], all: &[u8]) -> Result<(), Broken> {
        for line in text::lines_of(lines).take_while(|line| !Kind::of(line).ends_text()) {
            if Kind::of(line) == Kind::From {
                self.add_block(rest(line), all)?;
            } else {
                self.add(line)?;
            }
        }
        Ok(())
    }

    // Adds the lines of the block of that name, but for its events.
    fn add_block(&mut self, name: &[u8], all: &[u8]) -> Result<(), Broken> {
        let lines = text::lines_of(all);
        let behind = lines.skip_while(|line| !is_block(line, name)).skip(1);
        for line in behind.take_while(|line| !Kind::of(line).ends_text()) {
            let (_, said) = repeated(line);
            if !Kind::of(said).is_of_events() {
                self.add(line)?;
            }
        }
        Ok(())
    }

    // Adds a line, as many times as the number in front of it says.
    fn add(&mut self, line: &[u8]) -> Result<(), Broken> {
        let (times, said) = repeated(line);
        let kind = Kind::of(said);
        let said = rest(said);
        match kind {
            Kind::Silent => Ok(()),
            Kind::Unknown => Err(Broken),
            Kind::At => self.edit(said),
            Kind::Translated => self.translate(),
            Kind::Event | Kind::Raw => repeat(&mut self.events, bytes_of(kind, said)?, times),
            _ => repeat(&mut self.text, bytes_of(kind, said)?, times),
        }
    }

    // A place, and the bytes that replace those from there on. They have to lie within.
    fn edit(&mut self, said: &[u8]) -> Result<(), Broken> {
        let line = hex(rest(said)).unwrap_or_else(|_| wrong());
        let start = number(said, 0) as usize;
        if self.text.len() < start.saturating_add(line.len()) {
            return Err(Broken);
        }
        self.text.write_at(start, line.held());
        Ok(())
    }

    // The image takes its text's place.
    fn translate(&mut self) -> Result<(), Broken> {
        let mut image = [0u8; parts::PAGE];
        let answer = bench::translate(self.text.held(), &mut image);
        if answer.number != 0 {
            return Err(Broken);
        }
        self.text.clear();
        self.text.add(parts::front(&image, answer.length));
        Ok(())
    }
}

// The bytes that a line of a kind says. Not inlined: the compiler clears a line for each of these cases, and an edit needs none of them.
#[inline(never)]
fn bytes_of(kind: Kind, said: &[u8]) -> Result<Line, Broken> {
    match kind {
        Kind::Event => Ok(event(said)),
        Kind::Line => Ok(Line::empty().bytes(said).end()),
        Kind::Part => Ok(Line::empty().bytes(said)),
        _ => hex(said),
    }
}

fn is_block(line: &[u8], name: &[u8]) -> bool {
    (Kind::of(line) == Kind::Block) && (rest(line) == name)
}

// How many times a line is said, and the line without the number that says so. None has room for as many as a number with too many digits says.
fn repeated<'a>(line: &'a [u8]) -> (u64, &'a [u8]) {
    match scripts::digits(parts::word(line)) {
        Ok(times) => (times, rest(line)),
        Err(Fault::BigNumber) => (0, rest(line)),
        Err(Fault::BadForm) => (1, line),
    }
}

// Adds bytes to a page, so many times. A line that is full is broken.
fn repeat(page: &mut Page, line: Line, times: u64) -> Result<(), Broken> {
    if line.is_full() {
        return Err(Broken);
    }
    for _ in 0..times {
        line.onto(page);
        if page.is_full() {
            return Err(Broken);
        }
    }
    Ok(())
}

// Four numbers: the turn, the kind, the number and the value.
fn event(said: &[u8]) -> Line {
    let value = scripts::number_of(word_of(said, 3)).map_or(0, Number::value);
    let line = Line::empty().field(number(said, 0), 4);
    line.field(number(said, 1), 1)
        .field(number(said, 2), 1)
        .field(0, 2)
        .bytes(&value.to_le_bytes())
}

// Bytes in hexadecimal digits, with a space between two.
fn hex(written: &[u8]) -> Result<Line, Broken> {
    if written.len() % 3 != 2 {
        return Err(Broken);
    }
    let mut line = Line::empty();
    for byte in written.chunks(3) {
        match byte {
            [high, low] | [high, low, b' '] => line.push(digit(*high)? * 16 + digit(*low)?),
            _ => return Err(Broken),
        }
    }
    Ok(line)
}

// What stands in an image in place of bytes that are no such digits.
fn wrong() -> Line {
    Line::empty().repeated(b'?', parts::LINE)
}

// The value of a hexadecimal digit.
// Stays: std's `to_digit` takes capital letters too, which the program refuses.
fn digit(b: u8) -> Result<u8, Broken>
    ensures { IfOk result (λ n. n < 16) }
{
    match b {
        b'0'..=b'9' => Ok(b - b'0'),
        b'a'..=b'f' => Ok(b - b'a' + 10),
        _ => Err(Broken),
    }
}
