// Refusals and faults, as a compiler tells them: the file, the line and the column, the number with its words, the line itself, and a hint.
use crate::SET_IN;
use crate::given::{self, EventFault, RecordsFault, Refused};
use crate::hints::{self, Found, Hint};
use parts::Line;
use scripts::Faulty;
use std::fmt::Write;
use words::{Kind, Part};

// How many faulty lines of a text are shown.
pub const MOST_SHOWN: usize = 10;

// The refusals of what a run is given: of events as a whole, of one event, and of too many turns.
// Stays: a refusal is told by its number, as the bench's answers have it (the theorems of bench/specs hold them), and these beside those.
const BAD_SCRIPT: u8 = 32;

const BAD_EVENT: u8 = 33;

const MANY_TURNS: u8 = 34;

// What stands behind the name of a file where no line is meant.
fn nowhere() -> Line {
    crate::part(Line::empty(), Part::Colon)
}

// The same where a line and a column are meant: `:line:column: `.
fn place(line: usize, column: usize) -> Line {
    let mut told = Line::empty();
    let _ = write!(told, ":{line}:{column}");
    crate::part(told, Part::Colon)
}

// The words of a refusal, to the end of the line.
fn refusal(line: Line, number: u8) -> Line {
    crate::words(line, Kind::Refusal, number as u32).end()
}

// A hint, where there is one. It may begin or end with a name, or end with an edition.
fn hinted(line: Line, hint: Option<Hint>) -> Line {
    let Some(hint) = hint else {
        return line;
    };
    let mut line = line.spaces(SET_IN);
    if let Hint::Name(key, _) = hint {
        line = crate::key(line, key).byte(b' ');
    }
    line = crate::meaning(line, Kind::Hint, hint.number());
    match hint {
        Hint::Undeclared(key) => crate::key(line.byte(b' '), key).end(),
        Hint::Edition(edition) => line.byte(b' ').number(edition as u64).end(),
        _ => line.end(),
    }
}

// A line on which something is wrong: its number, from 1, and its bytes.
#[derive(Clone, Copy)]
struct Wrong<'a> {
    number: usize,
    bytes: &'a [u8],
}

impl<'a> Wrong<'a> {
    fn line(text: &'a [u8], number: usize) -> Wrong<'a> {
        Wrong {
            number,
            bytes: parts::line_of(text, number),
        }
    }

    // What is said of the line in these words, with the line itself and a hint.
    fn shown(self, said: &str, found: Found) -> Line {
        let told = place(self.number, found.column()).bytes(said.as_bytes());
        let told = crate::shown(told.end().spaces(SET_IN), self.bytes);
        hinted(told.end(), found.hint)
    }

    // The same in the words of a refusal.
    fn refused(self, refusal: u8, found: Found) -> Line {
        let said = words::line_for(Kind::Refusal, refusal as u32);
        self.shown(said.unwrap_or(""), found)
    }
}

// A refusal of a whole file.
pub fn of_whole(number: u8) -> Line {
    refusal(nowhere(), number)
}

// A refusal of a line of a text.
pub fn of_line(text: &[u8], line: usize, number: u8) -> Line {
    let wrong = Wrong::line(text, line);
    wrong.refused(number, hints::of_line(text, wrong.bytes, number))
}

// How many lines are faulty, where that is more than one; else nothing.
pub fn counted_lines(count: usize) -> Line {
    let said = match count {
        0 | 1 => return Line::empty(),
        2..=MOST_SHOWN => Part::Faulty,
        _ => Part::FirstTen,
    };
    crate::part(Line::empty().number(count as u64), said).end()
}

// The fault of each line of a text, a byte a line, 0 where it has none, in a room for them.
pub fn faults<'a>(text: &[u8], room: &'a mut [u8]) -> &'a [u8] {
    let lines = names::line_faults(text, room);
    parts::front(room, lines)
}

// A refusal of an image, with what was given in its place.
pub fn of_image(image: &[u8], number: u8) -> Line {
    hinted(of_whole(number), given::instead(image, number))
}

// A refusal of records, and what is wrong with them; with the number of the record where it is its zeros.
pub fn of_records(file: &[u8], number: u8) -> Line {
    let fault = given::instead_of_records(file);
    let mut told = nowhere();
    if fault == RecordsFault::NotZero {
        told = crate::part_number(told, Part::Record, given::first_bad_record(file) as u64);
        told = crate::part(told, Part::Colon);
    }
    hinted(refusal(told, number), Some(Hint::Records(fault)))
}

// A refusal of events that a file gives, as bytes or as a script: of them all, or of one. Nothing where a run takes them.
pub fn of_events(file: &[u8], events: &[u8]) -> Option<Line> {
    let told = match given::first_refused(events)? {
        Refused::Script => of_whole(BAD_SCRIPT),
        Refused::Event(index) if scripts::is_bytes(file) => of_event(events, index),
        Refused::Event(index) => of_event_on(file, events, index),
    };
    Some(told)
}

// A bad event by its number, and why it is bad.
fn of_event(events: &[u8], index: usize) -> Line {
    let told = crate::part_number(nowhere(), Part::Event, index as u64);
    let told = refusal(crate::part(told, Part::Colon), BAD_EVENT);
    hinted(told, Some(Hint::Event(EventFault::of(events, index))))
}

// A bad event on a line of a script, and why it is bad.
fn of_event_on(script: &[u8], events: &[u8], index: usize) -> Line {
    let wrong = Wrong::line(script, scripts::line_of_event(script, index).unwrap_or(0));
    let fault = EventFault::of(events, index);
    wrong.refused(BAD_EVENT, fault.on_line(wrong.bytes))
}

// A refusal of the turns.
pub fn of_turns() -> Line {
    refusal(crate::part(Line::empty(), Part::TurnsAsked), MANY_TURNS)
}

// A fault of a script, with its line.
pub fn of_script(script: &[u8], faulty: Faulty) -> Line {
    let wrong = Wrong::line(script, faulty.line);
    let place = scripts::place_of_fault(parts::code(wrong.bytes), faulty.fault);
    let said = words::meaning_for(Kind::Script, faulty.fault as u32);
    wrong.shown(said.unwrap_or(""), Found::place(place))
}

// What is wrong with a word or a file that was given.
pub fn of_use(number: u32) -> Line {
    crate::meaning(nowhere(), Kind::Usage, number).end()
}
