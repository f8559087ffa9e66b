// Scripts of events that a person writes: a line for each event, turned into the bytes of the event.
#![tactic(auto)]

use events::records::write_record;
use events::script::SIZE;
use events::{Event, Record};
use std::iter::Zip;
use std::num::TryFromIntError;
use std::ops::RangeInclusive;
use text::LinesLeft;

// What can be wrong with a line, by its number in the table of words.
#[derive(Clone, Copy, Debug, PartialEq, Eq)]
pub enum Fault {
    BadForm = 1,
    BigNumber = 2,
}

// The first line of a script with a fault, from 1, and the fault.
#[derive(Clone, Copy, Debug, PartialEq, Eq)]
pub struct Faulty {
    pub line: usize,
    pub fault: Fault,
}

// A whole number: its sign, and its size.
// Stays: the programs refuse `-0` as a turn (`turn_of`) and take it as a value, and no signed number tells it from 0.
#[derive(Clone, Copy, Debug, PartialEq, Eq)]
pub struct Number {
    pub negative: bool,
    pub size: u64,
}

// The kinds of event, by the numbers that they have in events and in the table of words.
#[derive(Clone, Copy, PartialEq, Eq)]
enum Kind {
    Input = 1,
    Arrival = 2,
    Place = 3,
}

// What a line says: an event, and its turn.
#[derive(Clone, Copy)]
struct Said {
    turn: u32,
    event: Record,
}

// The longest run of digits that is read as a number.
const MOST_DIGITS: usize = 10;

// How many words the longest event has.
const MOST_WORDS: usize = 4;

// How many numbers 32 digits can write.
const WRAP: u64 = 4294967296;

// A number that its field cannot hold.
impl From<TryFromIntError> for Fault {
    fn from(_: TryFromIntError) -> Fault {
        Fault::BigNumber
    }
}

// Bytes with a 0 among them are no script: every event has zeros in it, and no line has.
pub fn is_bytes(bytes: &[u8]) -> bool {
    bytes.contains(&0)
}

impl Number {
    // The number as the value of an event, where it fits into 32 digits.
    pub fn value(self) -> i32 {
        let value = numbers::signed((self.size % WRAP) as u32);
        if self.negative {
            return value.wrapping_neg();
        }
        value
    }

    // Its size, where it has no sign.
    fn unsigned(self) -> Result<u64, Fault> {
        if self.negative {
            return Err(Fault::BadForm);
        }
        Ok(self.size)
    }

    // The number, where it is a value of an event.
    fn fitting(self) -> Result<i32, Fault> {
        let size = i64::try_from(self.size)?;
        let number = if self.negative { -size } else { size };
        Ok(i32::try_from(number)?)
    }
}

// The number that digits write.
// Stays: the programs refuse `+1` as bad form and 11 digits as a big number (`Fault`), and std's `parse` takes both.
pub fn digits(word: &[u8]) -> Result<u64, Fault> {
    if word.is_empty() {
        return Err(Fault::BadForm);
    }
    let mut size: u64 = 0;
    for (before, digit) in word.iter().enumerate() {
        if !digit.is_ascii_digit() {
            return Err(Fault::BadForm);
        }
        if MOST_DIGITS <= before {
            return Err(Fault::BigNumber);
        }
        size = with_digit(size, *digit);
    }
    Ok(size)
}

// The last ten digits of a number with one more.
fn with_digit(size: u64, digit: u8) -> u64 {
    size % 1000000000 * 10 + (digit % 16) as u64
}

// The number that a word is: digits, perhaps behind a minus.
pub fn number_of(word: &[u8]) -> Result<Number, Fault> {
    match word {
        [b'-', behind @ ..] => Ok(Number {
            negative: true,
            size: digits(behind)?,
        }),
        _ => Ok(Number {
            negative: false,
            size: digits(word)?,
        }),
    }
}

// The turn, the number of an input, and the value that a word gives.
fn turn_of(word: &[u8]) -> Result<u32, Fault> {
    Ok(u32::try_from(number_of(word)?.unsigned()?)?)
}

fn input_of(word: &[u8]) -> Result<u8, Fault> {
    Ok(u8::try_from(number_of(word)?.unsigned()?)?)
}

fn value_of(word: &[u8]) -> Result<i32, Fault> {
    number_of(word)?.fitting()
}

// A word of a line by its number, from 0; empty where there are fewer.
fn word<'a>(line: &'a [u8], number: usize) -> &'a [u8] {
    parts::word_at(line, parts::word_place(line, number))
}

impl Kind {
    const ALL: [Kind; 3] = [Kind::Input, Kind::Arrival, Kind::Place];

    // The kind of the event on a line, by its second word.
    fn on(line: &[u8]) -> Option<Kind> {
        let name = word(line, 1);
        Kind::ALL.into_iter().find(|kind| words::means(words::Kind::Event, *kind as u32, name))
    }

    // How many words an event of the kind has.
    fn word_count(self) -> usize {
        match self {
            Kind::Input => 4,
            Kind::Arrival => 2,
            Kind::Place => 3,
        }
    }
}

// The fault of a word by its number on a line with an event of this kind.
fn fault_of_word(kind: Option<Kind>, number: usize, word: &[u8]) -> Option<Fault> {
    match (kind, number) {
        (_, 0) => turn_of(word).err(),
        (Some(_), 1) => None,
        (Some(Kind::Input), 2) => input_of(word).err(),
        (Some(Kind::Input), 3) => value_of(word).err(),
        (Some(Kind::Place), 2) => value_of(word).err(),
        _ => Some(Fault::BadForm),
    }
}

// The event of a kind that a line gives with its words behind the second.
fn event_on(line: &[u8], kind: Kind) -> Result<Record, Fault> {
    let mut event = Record {
        kind: kind as u8,
        number: 0,
        value: 0,
    };
    match kind {
        Kind::Input => {
            event.number = input_of(word(line, 2))? as u32;
            event.value = value_of(word(line, 3))?;
        }
        Kind::Arrival => {}
        Kind::Place => event.value = value_of(word(line, 2))?,
    }
    Ok(event)
}

// What a line without its comment says, if it says anything. The first of its words with a fault counts, but a word too many, as no kind, is a
// fault of the line's form.
fn say(line: &[u8]) -> Result<Option<Said>, Fault> {
    let first = word(line, 0);
    if first.is_empty() {
        return Ok(None);
    }
    let kind = Kind::on(line).ok_or(Fault::BadForm)?;
    if !word(line, kind.word_count()).is_empty() {
        return Err(Fault::BadForm);
    }
    Ok(Some(Said {
        turn: turn_of(first)?,
        event: event_on(line, kind)?,
    }))
}

// The place of the first word of a line, without its comment, that has this fault; of its first word where none has.
pub fn place_of_fault(line: &[u8], fault: Fault) -> usize {
    let kind = Kind::on(line);
    for number in 0..MOST_WORDS + 1 {
        let at = parts::word_place(line, number);
        let word = parts::word_at(line, at);
        if !word.is_empty() && fault_of_word(kind, number, word) == Some(fault) {
            return at;
        }
    }
    parts::past_blanks(line, 0)
}

// Writes an event behind those before it. What there is no room for is left out: a script that fills the room has more events than it may.
// Stays: `write_record` of events takes a buffer and a place in it, by its contract, and the buffer is lent by who reads the events.
fn keep(events: &mut [u8], length: usize, said: Said) -> usize {
    if events.len() < SIZE {
        return length;
    }
    if events.len() - SIZE < length {
        return length;
    }
    write_record(events, length, said.turn, said.event)
}

// The lines of a text with their numbers, from 1. A text has no more lines than bytes.
fn numbered(text: &[u8]) -> Zip<RangeInclusive<usize>, LinesLeft<'_>> {
    (1..=text.len()).zip(text::lines_of(text))
}

// Turns a script into the bytes of its events, and answers how many they take.
fn translate(text: &[u8], events: &mut [u8]) -> Result<usize, Faulty> {
    let mut kept: usize = 0;
    for (number, line) in numbered(text) {
        match say(parts::uncommented(line)) {
            Ok(Some(said)) => kept = keep(events, kept, said),
            Ok(None) => {}
            Err(fault) => return Err(Faulty {
                line: number,
                fault,
            }),
        }
    }
    Ok(kept)
}

// Copies bytes, as many as there is room for.
fn copy(from: &[u8], events: &mut [u8]) -> usize {
    let count = from.len().min(events.len());
    events[..count].copy_from_slice(&from[..count]);
    count
}

// The bytes of the events in a file, which holds them or is a script: how many they take.
pub fn read(file: &[u8], events: &mut [u8]) -> Result<usize, Faulty> {
    if !is_bytes(file) {
        return translate(file, events);
    }
    Ok(copy(file, events))
}

// Whether a line of a script gives an event.
fn has_event(line: &[u8]) -> bool {
    matches!(say(parts::uncommented(line)), Ok(Some(_)))
}

// The line of a script, from 1, that has the event with this number, from 0.
pub fn line_of_event(text: &[u8], number: usize) -> Option<usize> {
    let (line, _) = numbered(text)
        .filter(|(_, line)| has_event(line))
        .nth(number)?;
    Some(line)
}
