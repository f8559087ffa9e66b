// A run told turn by turn: the events, the statement with its line, and what it recorded.
ghost use Rattle.std.specs.Prelude.{◌+◌, ◌<◌, length, IfSome};
ghost use Rattle.std.specs.Iterator.{at_most};

use events::script::{SIZE, event_at};
use events::{Event, Record};
use parts::Line;
use parts::writing::width;
use words::{Kind, Part};

// The columns: turns, lines and statements, and what stands between two of them.
const TURN_WIDTH: usize = 9;

const LINE_WIDTH: usize = 5;

const STATEMENT_WIDTH: usize = 24;

const GAP: usize = 2;

// Where the column of what was recorded begins, behind its gap.
const RECORD_COLUMN: usize = TURN_WIDTH + GAP + LINE_WIDTH + GAP + STATEMENT_WIDTH;

// What a last turn has of the first column, with the dash before it.
const BEFORE_DASH: usize = TURN_WIDTH - 1;

// A page that holds this much is full: it has room for one line.
pub const FULL: usize = parts::PAGE - parts::LINE;

// How many cells a text makes at the most.
const CELLS: u16 = 256;

// The line of each cell of a text, 0 where it has none.
// Stays: the number is shown as it is, 0 too; an Option would be turned into that 0 at its one use.
pub type Lines = [usize; CELLS as usize];

// The bytes of the cell that a turn visits.
const VISIT: usize = 2;

// A run of a text: what it was given, what it recorded, and the cells that it visited, one a turn.
#[derive(Clone, Copy)]
pub struct Run<'a> {
    pub text: &'a [u8],
    pub lines: &'a Lines,
    pub image: &'a [u8],
    pub events: &'a [u8],
    pub records: &'a [u8],
    pub visits: &'a [u8],
}

// What is left of a run from a turn on, told line by line.
#[derive(Clone, Copy, Drop)]
pub struct TurnsLeft<'a> {
    left: Run<'a>,
    turn: usize,
}

// Finds the line of each cell of a text.
pub fn lines_of(text: &[u8]) -> Lines {
    let mut lines = [0; CELLS as usize];
    for (cell, line) in (0..CELLS).zip(lines.iter_mut()) {
        *line = translation::line_of(text, cell).map_or(0, |placed| placed.line);
    }
    lines
}

// The first of some events or records, and those behind it.
fn first_of(entries: &[u8]) -> Option<(Event, &[u8])>
    ensures { IfSome result (λ p. length p.1.now < length entries.now) }
{
    let (first, others) = entries.split_at_checked(SIZE)?;
    Some((event_at(first, 0), others))
}

// The same, where the first is of this turn.
fn first_in(entries: &[u8], turn: usize) -> Option<(Event, &[u8])>
    ensures { IfSome result (λ p. length p.1.now < length entries.now) }
{
    let (first, others) = first_of(entries)?;
    if first.turn as usize == turn {
        return Some((first, others));
    }
    None
}

// How many turns there are from this one to before that of the first of some events or records.
fn turns_before(entries: &[u8], turn: usize) -> usize {
    match first_of(entries) {
        Some((first, _)) => (first.turn as usize).saturating_sub(turn),
        None => usize::MAX,
    }
}

// The column of turns: one turn, or the first and the last of several.
fn turns_of(turn: usize, last: usize) -> Line {
    let line = Line::empty();
    if last <= turn {
        return line.number_to(turn as u64, TURN_WIDTH);
    }
    let last = last as u64;
    let before = BEFORE_DASH.saturating_sub(width(last));
    line.number_to(turn as u64, before).byte(b'-').number(last)
}

// An event in words: its kind, its number where it has one, and its value unless a move arrives.
fn event_in_words(line: Line, event: Event) -> Line {
    let mut line = crate::meaning(line, Kind::Event, event.kind as u32);
    if event.kind == Event::ARRIVAL {
        return line;
    }
    if event.number != 0 {
        line = line.byte(b' ').number(event.number as u64);
    }
    crate::part(line, Part::Equals).signed(event.value)
}

// The line of an event.
fn event_line(event: Event) -> Line {
    let line = Line::empty()
        .number_to(event.turn as u64, TURN_WIDTH)
        .spaces(GAP + LINE_WIDTH + GAP);
    event_in_words(crate::part(line, Part::EventRow), event).end()
}

// The output of a record, or the variable that was printed.
fn source(line: Line, image: &[u8], record: Event) -> Line {
    let number = record.number;
    if number == 0 {
        return line;
    }
    let line = match record.kind {
        Record::PRINTED => variable(line, printing::variable_key(image, number), number),
        _ => line.number(number as u64),
    };
    crate::part(line, Part::Equals)
}

// A variable by the key of its name; one that has none, by its number.
// Stays: 0 for no name is what `printing::variable_key` ensures, by `key` of crates/program/specs/Code.antt.
fn variable(line: Line, key: u16, number: u8) -> Line {
    match key {
        0 => crate::part_number(line, Part::Variable, number as u64),
        _ => crate::key(line, key),
    }
}

// The kind of a record; one that no record of a run has, by its number.
fn kind(line: Line, kind: u8) -> Line {
    match kind {
        Record::OUTPUT..=Record::FAILED => crate::meaning(line, Kind::Record, kind as u32),
        _ => crate::part_number(line, Part::Kind, kind as u64).byte(b' '),
    }
}

// A record in short: its kind, what it is of, and its value.
pub fn short(line: Line, image: &[u8], record: Event) -> Line {
    source(kind(line, record.kind), image, record).signed(record.value)
}

// A record in words: an error with its meaning, or any other in short.
fn record_in_words(line: Line, image: &[u8], record: Event) -> Line {
    match record.kind {
        Record::FAILED => crate::words(line, Kind::Error, numbers::digits(record.value)),
        _ => short(line, image, record),
    }
}

// A record with its turn, where records alone are told.
pub fn record_line(image: &[u8], record: Event) -> Line {
    let line = Line::empty()
        .number_to(record.turn as u64, TURN_WIDTH)
        .spaces(GAP);
    record_in_words(line, image, record).end()
}

// What stands above the turns.
pub fn header() -> Line {
    crate::part(Line::empty(), Part::Header).end()
}

impl<'a> Run<'a> {
    // The run from its first turn on.
    pub fn told(self) -> TurnsLeft<'a> {
        TurnsLeft {
            left: self,
            turn: 0,
        }
    }

    // How many turns more the run stays at the place of a turn, in front of the visits behind it. A turn that records something is one by itself; the
    // stay ends before the next such turn, and before the next event.
    fn more_turns(self, turn: usize, place: &[u8], others: &[u8]) -> usize {
        let most = turns_before(self.events, turn).min(turns_before(self.records, turn));
        let visits = others.chunks_exact(VISIT).take(most.saturating_sub(1));
        visits.take_while(|visit| *visit == place).count()
    }

    // The statement of a turn or of a stay at a place, with its turns and its line's number.
    fn row(self, place: &[u8], turn: usize, last: usize) -> Line {
        let lines = self.lines;
        let cell = numbers::read2(place, 0) as usize;
        let number = lines.get(cell).copied().unwrap_or(0);
        let statement = parts::uncommented(parts::line_of(self.text, number));
        turns_of(turn, last)
            .spaces(GAP)
            .number_to(number as u64, LINE_WIDTH)
            .spaces(GAP)
            .bytes(statement)
    }

    // What a turn recorded, in its column.
    fn recorded(self, line: Line, record: Event) -> Line {
        let line = crate::filled(line, RECORD_COLUMN).spaces(GAP);
        record_in_words(line, self.image, record)
    }
}

impl Iterator for TurnsLeft<'_> {
    type Item = Line;

    ghost remaining = { λ s. at_most (length s.left.events.now + length s.left.visits.now) };

    // An event of the turn that is next, or else that turn or a stay at its place.
    fn next(&mut self) -> Option<Line> {
        let run = self.left;
        let turn = self.turn;
        let (place, others) = run.visits.split_at_checked(VISIT)?;
        if let Some((event, behind)) = first_in(run.events, turn) {
            self.left.events = behind;
            return Some(event_line(event));
        }
        let more = run.more_turns(turn, place, others);
        let last = turn.saturating_add(more);
        let mut line = run.row(place, turn, last);
        if let Some((record, behind)) = first_in(run.records, turn) {
            line = run.recorded(line, record);
            self.left.records = behind;
        }
        self.left.visits = parts::back(others, more.saturating_mul(VISIT));
        self.turn = last.saturating_add(1);
        Some(line.end())
    }
}
