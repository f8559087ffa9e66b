// The commands that run a program on events: try, on a text, and run, on an image.
use crate::commands::Told;
use crate::outputs::Output;
use crate::{Done, commands, files, given, outputs, texts};
use events::script::{SIZE, event_at};
use telling::refusals;
use telling::trace::{self, Run};

// The records of a run, at the front of a buffer.
pub fn of_records<'a>(buffer: &'a [u8], count: usize) -> &'a [u8] {
    parts::front(buffer, SIZE.saturating_mul(count))
}

// try TEXT [EVENTS] [TURNS]: a lone word of digits behind the text is the turns.
pub fn try_command(rt: &HostRuntime, path: &[u8], events: &[u8], turns: &[u8]) -> Done {
    if turns.is_empty() & given::number(events).is_some() {
        return try_on(rt, path, b"", events);
    }
    try_on(rt, path, events, turns)
}

// Tries a text on events, and tells how it went. Events and turns that a run refuses are told before.
fn try_on(rt: &HostRuntime, path: &[u8], events: &[u8], word: &[u8]) -> Done {
    let turns = given::turns(rt, word)?;
    let mut room = [0u8; given::ROOM];
    let text = files::read(rt, path, &mut room)?;
    let mut script = [0u8; given::ROOM];
    let script = given::events(rt, events, &mut script)?;
    let mut image = [0u8; given::ROOM];
    let mut records = [0u8; given::ROOM];
    let tried = tried::try_text(text, &mut image, script, turns, &mut records);
    let translated = tried.translated;
    if translated.number != 0 {
        return Err(texts::refuse(rt, path, text, translated));
    }
    let image = parts::front(&image, translated.length);
    let records = of_records(&records, tried.ran.records);
    tell_turns(rt, text, image, script, records, turns)?;
    commands::tell_end(rt, b"", image, tried.ran)
}

// Tells the run of a text turn by turn.
fn tell_turns(
    rt: &HostRuntime,
    text: &[u8],
    image: &[u8],
    events: &[u8],
    records: &[u8],
    turns: u64,
) -> Done {
    let mut again = [0u8; given::ROOM];
    let mut visits = [0u8; given::ROOM];
    let taken = tried::visit_text(text, &mut again, events, turns, &mut visits);
    let run = Run {
        text,
        lines: &trace::lines_of(text),
        image,
        events,
        records,
        visits: parts::front(&visits, taken.saturating_mul(2)),
    };
    let mut told = Told::of(rt, b"");
    told.put(trace::header())?;
    for line in run.told() {
        told.put(line)?;
    }
    told.end()
}

// run [-f] IMAGE EVENTS TURNS [RECORDS]: keeps the records where a file is named for them, and tells them and how the run ended.
pub fn run_command(rt: &HostRuntime, path: &[u8], events: &[u8], word: &[u8], to: Output) -> Done {
    let turns = given::turns(rt, word)?;
    to.may_replace(rt)?;
    let mut room = [0u8; given::ROOM];
    let image = files::read(rt, path, &mut room)?;
    let mut script = [0u8; given::ROOM];
    let script = given::events(rt, events, &mut script)?;
    let mut records = [0u8; given::ROOM];
    let ran = bench::run(image, script, turns, &mut records);
    if ran.number != 0 {
        return Err(commands::refuse(rt, path, refusals::of_image(image, ran.number)));
    }
    let records = of_records(&records, ran.records);
    outputs::write(rt, to.path, records)?;
    tell_records(rt, to.path, image, records)?;
    commands::tell_end(rt, to.path, image, ran)
}

// Tells the records of a run.
fn tell_records(rt: &HostRuntime, to: &[u8], image: &[u8], records: &[u8]) -> Done {
    let mut told = Told::of(rt, to);
    for record in records.chunks_exact(SIZE) {
        told.put(trace::record_line(image, event_at(record, 0)))?;
    }
    told.end()
}
