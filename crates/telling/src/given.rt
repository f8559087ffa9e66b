// What is wrong with an event, and what was given in place of an image or of records.
use crate::hints::{Found, Hint};
use comparing::Compared;
use events::script::{SIZE, event_at, event_count, first_bad_event, is_bad_script};
use events::{Event, Record};

// What is wrong with an event, by the number of its hint.
#[derive(Clone, Copy)]
pub enum EventFault {
    Falling = 43,
    InputNumber = 44,
    InputValue = 45,
    FarPlace = 46,
    NoKind = 47,
    NotZero = 48,
}

// What a file seems to be that is no image, by the number of its hint.
#[derive(Clone, Copy)]
pub enum FileFault {
    Text = 49,
    Entries = 50,
    Empty = 51,
}

// What is wrong with records, by the number of its hint.
#[derive(Clone, Copy, PartialEq)]
pub enum RecordsFault {
    NotZero = 48,
    Many = 57,
    Part = 58,
    Text = 59,
}

// What a run refuses of its events: all of them, or one by its number.
#[derive(Clone, Copy)]
pub enum Refused {
    Script,
    Event(usize),
}

// The refusal of an image of another edition.
// Stays: `Checks` (crates/bench/specs/Calls.antt) gives a refusal of an image by its number, and telling is asked with that number.
const OTHER_EDITION: u8 = 22;

// What a run refuses of these events first, where it does not take them.
pub fn first_refused(events: &[u8]) -> Option<Refused> {
    if (Event::MOST < event_count(events)) | is_bad_script(events) {
        return Some(Refused::Script);
    }
    let index = first_bad_event(events);
    (index < event_count(events)).then_some(Refused::Event(index))
}

// A record or an event by its number; none has a number above the most records.
pub fn entry(bytes: &[u8], k: usize) -> Event {
    event_at(bytes, k.min(Compared::MOST))
}

impl EventFault {
    // Why an input is bad.
    fn of_input(event: Event) -> EventFault {
        if !(1..=Event::INPUTS).contains(&event.number) {
            return EventFault::InputNumber;
        }
        if !(0..=1).contains(&event.value) {
            return EventFault::InputValue;
        }
        EventFault::NotZero
    }

    // Why a position is bad.
    fn of_place(event: Event) -> EventFault {
        if (event.number == 0) & (event.zeros == 0) {
            return EventFault::FarPlace;
        }
        EventFault::NotZero
    }

    // Why the event with this number is bad. The first has none before it, and so is not below itself.
    pub fn of(events: &[u8], index: usize) -> EventFault {
        let before = entry(events, index.saturating_sub(1));
        let event = entry(events, index);
        if event.turn < before.turn {
            return EventFault::Falling;
        }
        match event.kind {
            Event::INPUT => EventFault::of_input(event),
            Event::ARRIVAL => EventFault::NotZero,
            Event::PLACE => EventFault::of_place(event),
            _ => EventFault::NoKind,
        }
    }

    // Which word of a script's line is at fault, from 0.
    fn word(self) -> usize {
        match self {
            EventFault::InputNumber | EventFault::FarPlace => 2,
            EventFault::InputValue => 3,
            EventFault::Falling | EventFault::NoKind | EventFault::NotZero => 0,
        }
    }

    // Where it is on a line of a script.
    pub fn on_line(self, line: &[u8]) -> Found {
        Hint::Event(self).at(parts::word_place(parts::code(line), self.word()))
    }
}

// Entries with a kind and zeros as an event or a record has them alone, in 12 bytes each. The last zeros stand where an image has its edition.
pub fn are_entries(bytes: &[u8]) -> bool {
    !is_bad_script(bytes)
        && bytes.chunks_exact(SIZE).all(|bytes| {
            let entry = event_at(bytes, 0);
            (1..=Record::FAILED).contains(&entry.kind) & (entry.zeros == 0)
        })
}

// The number of the first record whose zeros are not 0; how many there are where all are.
// Stays: it is asked where a comparison refused the records for their zeros, so there is one; an Option would be unwrapped at its one use.
pub fn first_bad_record(bytes: &[u8]) -> usize {
    let first = bytes
        .chunks_exact(SIZE)
        .position(|record| event_at(record, 0).zeros != 0);
    first.unwrap_or(event_count(bytes))
}

// What is wrong with bytes that are no records.
pub fn instead_of_records(bytes: &[u8]) -> RecordsFault {
    if Compared::MOST < event_count(bytes) {
        return RecordsFault::Many;
    }
    if !scripts::is_bytes(bytes) {
        return RecordsFault::Text;
    }
    if bytes.len() % SIZE != 0 {
        return RecordsFault::Part;
    }
    RecordsFault::NotZero
}

// What was given in place of an image, with this refusal.
pub fn instead(file: &[u8], refusal: u8) -> Option<Hint> {
    if file.is_empty() {
        return Some(Hint::File(FileFault::Empty));
    }
    if !scripts::is_bytes(file) {
        return Some(Hint::File(FileFault::Text));
    }
    if are_entries(file) {
        return Some(Hint::File(FileFault::Entries));
    }
    (refusal == OTHER_EDITION).then_some(Hint::Edition(image::edition(file)))
}
