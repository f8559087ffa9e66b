// The bench: a text translated, an image checked, listed and run. Its answers are plain data.
#![tactic(auto)]

mod answers;

ghost use Rattle.std.specs.Prelude.{◌≡◌};
ghost use Rattle.numbers.specs.Tests.{lowest};
ghost use Rattle.bench.specs.Calls.{Translates, Checks, Lists, Runs};
ghost use Rattle.bench.specs.Running.{run_refusal, refusal_index, faults_with, told_number, told_index};

use events::script::{event_count, first_bad_event, is_bad_script};

// Number 0, and the image's length; or the refusal with its line.
// Stays: `Translates` (specs/Calls.antt) and the theorems over any calls (specs/Demands.antt) speak of this record and its numbers.
#[derive(Clone, Copy)]
pub struct Translated {
    pub number: u8,
    pub line: usize,
    pub length: usize,
}

// 0, or the refusal.
// Stays: `Checks` and the theorems over any calls (specs/Demands.antt) speak of this record and its number.
#[derive(Clone, Copy)]
pub struct Checked {
    pub number: u8,
}

// Number 0, and the listing's length; or the refusal.
// Stays: `Lists` and the theorems over any calls (specs/Listings.antt) speak of this record and its numbers.
#[derive(Clone, Copy)]
pub struct Listed {
    pub number: u8,
    pub length: usize,
}

// A return place: the cell to return to. The mark is 1 where the call of a handler kept it, with that handler's target; else both are 0.
#[derive(Clone, Copy)]
pub struct StatePlace {
    pub cell: u16,
    pub target: u16,
    pub mark: u8,
}

// A machine's state. The handler is 65535 where there is none; the motion is 0 still, 1 a move, 2 a slew, and its value the target or the velocity.
// Stays: `state_of` (specs/Answers.antt), by Forms 13 and 14 of document 01: an enum in an answer has a number and a value.
#[derive(Clone, Copy)]
pub struct State {
    pub variables: [i32; 64],
    pub next: u16,
    pub places: [StatePlace; 8],
    pub kept: u8,
    pub handler: u16,
    pub hold: u32,
    pub motion: u8,
    pub value: i32,
}

// Number 0, with the end reason, the turns run, the records written and the final state; or the refusal with the event's index, and all else 0.
// Stays: `Runs` and the theorems over any calls (specs/Demands.antt) speak of this record and its numbers.
#[derive(Clone, Copy)]
pub struct Ran {
    pub number: u8,
    pub index: usize,
    pub reason: u8,
    pub turns: u64,
    pub records: usize,
    pub state: State,
}

// Why a run is refused: by its image, by its script, by an event, the first bad one with this index, by its budget, or by its buffer.
#[derive(Clone, Copy)]
pub enum Refusal {
    Image(checking::Refusal),
    BadScript,
    BadEvent(usize),
    BigBudget,
    SmallRoom,
}

// Translates a program text into an image, which goes to the front of the buffer.
pub fn translate(text: &[u8], image: &mut [u8]) -> Translated
    ensures { Translates text.now image.old result image.new }
{
    if answers::LONGEST_TEXT < text.len() {
        return answers::not_translated(answers::LONG_TEXT, 0);
    }
    let rows = names::arrange(text);
    let counts = match names::survey_lines(text, &rows) {
        Ok(counts) => counts,
        Err(fault) => return answers::not_translated(fault.number, fault.line),
    };
    let length = image::image_length(
        counts.cells as u16,
        counts.labels as u16,
        counts.variables as u16,
    );
    if image.len() < length {
        return answers::not_translated(answers::SHORT_BUFFER, 0);
    }
    translation::write_image(text, &rows, image, counts);
    Translated {
        number: 0,
        line: 0,
        length,
    }
}

// Checks an image: any bytes, of any length.
pub fn check(image: &[u8]) -> Checked
    ensures { Checks image.now result }
{
    Checked {
        number: checking::checked(image),
    }
}

// Lists an image: a text that translates into it goes to the front of the buffer.
pub fn list(image: &[u8], text: &mut [u8]) -> Listed
    ensures { Lists image.now text.old result text.new }
{
    if let Err(refusal) = checking::accept(image) {
        return answers::not_listed(refusal.number());
    }
    let length = printing::write_listing(image, text);
    if text.len() < length {
        return answers::not_listed(answers::SHORT_TEXT);
    }
    Listed { number: 0, length }
}

// The most turns that a run may take.
const MOST_TURNS: u64 = 4096;

// Whether a run on this script may begin, with this budget and room for so many bytes, of which each turn takes some.
pub fn may_begin(events: &[u8], budget: u64, room: usize, bytes: u8) -> Result<(), Refusal>
    ensures number { told_number result ≡ lowest 32 (faults_with events.now budget room bytes) }
    ensures index { told_index result ≡ refusal_index (lowest 32 (faults_with events.now budget room bytes)) events.now }
{
    if is_bad_script(events) {
        return Err(Refusal::BadScript);
    }
    let bad = first_bad_event(events);
    if bad < event_count(events) {
        return Err(Refusal::BadEvent(bad));
    }
    if MOST_TURNS < budget {
        return Err(Refusal::BigBudget);
    }
    let is_small = room < (bytes as usize) * (budget as usize);
    if is_small {
        return Err(Refusal::SmallRoom);
    }
    Ok(())
}

// Whether a run of this image may begin.
fn may_run(image: &[u8], events: &[u8], budget: u64, room: usize) -> Result<(), Refusal>
    ensures number { told_number result ≡ run_refusal image.now events.now budget room }
    ensures index { told_index result ≡ refusal_index (run_refusal image.now events.now budget room) events.now }
{
    if let Err(refusal) = checking::accept(image) {
        return Err(Refusal::Image(refusal));
    }
    may_begin(events, budget, room, answers::RECORD as u8)
}

// Runs an image on a script of events for at most `budget` turns, and writes the records.
pub fn run(image: &[u8], events: &[u8], budget: u64, records: &mut [u8]) -> Ran
    ensures { Runs image.now events.now budget records.old result records.new }
{
    if let Err(refusal) = may_run(image, events, budget, records.len()) {
        return answers::refused(refusal);
    }
    let ended = running::course(image, events, budget as u32, records);
    Ran {
        number: 0,
        index: 0,
        reason: ended.reason.number(),
        turns: ended.turns as u64,
        records: ended.bytes / answers::RECORD,
        state: answers::state_of(ended.machine),
    }
}
