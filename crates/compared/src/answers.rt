// The calls: what a case asks for, and what the bench answers, as a line of words and numbers.
//
// A buffer that is lent is full of the filler before the call. The bytes that a call may not touch, those after the image or the last record
// and all of them where it refuses, are counted as `changed` where they are no longer that.
use crate::described;
use crate::input::{self, Given, Kind};
use parts::Line;

const ROOM: usize = 65536;

pub fn answer(call: &[u8], given: &Given) -> Line {
    let said = input::rest(call);
    let first = input::number(said, 0);
    let text = given.text.held();
    let events = given.events.held();
    match Kind::of(call) {
        Kind::Translate => translate(text, first as usize),
        Kind::Image => image(text),
        Kind::Check => check(text, events),
        _ => run(text, events, first, input::number(said, 1) as usize),
    }
}

fn translate(text: &[u8], room: usize) -> Line {
    let mut image = [described::FILLER; ROOM];
    let answer = bench::translate(text, parts::lent(&mut image, room));
    let line = translated(answer);
    described::changed(line, parts::back(&image, answer.length))
}

fn translated(answer: bench::Translated) -> Line {
    let mut line = described::named(Line::empty(), "number", answer.number as u64);
    line = described::named(line, "line", answer.line as u64);
    described::named(line, "length", answer.length as u64)
}

// The bytes of a text's image.
fn image(text: &[u8]) -> Line {
    let mut image = [0u8; ROOM];
    let answer = bench::translate(text, &mut image);
    described::hex(parts::front(&image, answer.length))
}

// Where an image is refused, so is its run.
fn check(image: &[u8], events: &[u8]) -> Line {
    let answer = bench::check(image);
    let line = described::named(Line::empty(), "number", answer.number as u64);
    if answer.number == 0 {
        return line;
    }
    ran(described::word(line, "run"), image, events, 1, ROOM)
}

// The run of a text's image.
fn run(text: &[u8], events: &[u8], budget: u64, room: usize) -> Line {
    let mut image = [0u8; ROOM];
    let translated = bench::translate(text, &mut image);
    ran(
        Line::empty(),
        parts::front(&image, translated.length),
        events,
        budget,
        room,
    )
}

fn ran(line: Line, image: &[u8], events: &[u8], budget: u64, room: usize) -> Line {
    let mut records = [described::FILLER; ROOM];
    let ran = bench::run(image, events, budget, parts::lent(&mut records, room));
    described::ran(line, ran, &records)
}
