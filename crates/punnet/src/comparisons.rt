// The command that compares what two runs recorded: of two files, or of two texts on the same events.
use crate::commands::Told;
use crate::outputs::Output;
use crate::uses::Wrong;
use crate::{Done, Failure, commands, files, given, outputs, paths, runs, texts};
use comparing::Compared;
use parts::Line;
use telling::differences::{self, Entry, Side};
use telling::refusals;
use words::Part;

// Room for one record more than there may be.
const ROOM: usize = events::script::SIZE * (Compared::MOST + 1);

// What one of two runs recorded: the name of its records or of its text, and its records, with its image where it has one.
#[derive(Clone, Copy)]
struct Run<'a> {
    path: &'a [u8],
    side: Side<'a>,
}

// The run of a text: what it recorded, and how it ended.
#[derive(Clone, Copy)]
struct Recorded<'a> {
    run: Run<'a>,
    reason: u8,
    turns: u64,
}

// Whether two files can both be read: standard input cannot be both. Else it is told.
fn are_apart(rt: &HostRuntime, first: &[u8], second: &[u8]) -> Done {
    if paths::is_dash(first) & paths::is_dash(second) {
        return Err(files::complain(rt, first, Wrong::Both));
    }
    Ok(())
}

// compare [-f] FIRST SECOND [LIST]
pub fn compare_command(rt: &HostRuntime, first: &[u8], second: &[u8], to: Output) -> Done {
    are_apart(rt, first, second)?;
    to.may_replace(rt)?;
    let mut room = [0u8; ROOM];
    let mut other_room = [0u8; ROOM];
    let first = read(rt, first, &mut room)?;
    let second = read(rt, second, &mut other_room)?;
    compare(rt, first, second, to.path)
}

// Reads a file of records, with no image.
fn read<'a>(rt: &HostRuntime, path: &'a [u8], room: &'a mut [u8]) -> Result<Run<'a>, Failure> {
    let records = files::read(rt, path, room)?;
    let side = Side {
        records,
        image: &[],
    };
    Ok(Run { path, side })
}

// Compares two runs, keeps the list where a file is named for it, and tells what differs.
fn compare(rt: &HostRuntime, first: Run, second: Run, to: &[u8]) -> Done {
    let mut room = [0u8; given::ROOM];
    let compared = comparing::compare(first.side.records, second.side.records, &mut room);
    match compared.number {
        0 => {
            let size = comparing::ENTRY.saturating_mul(compared.entries);
            let list = parts::front(&room, size);
            outputs::write(rt, to, list)?;
            tell(rt, first.side, second.side, list, to)
        }
        comparing::BAD_FIRST => Err(refuse(rt, first, compared.number)),
        _ => Err(refuse(rt, second, compared.number)),
    }
}

// Tells a refusal of records.
fn refuse(rt: &HostRuntime, run: Run, number: u8) -> Failure {
    commands::refuse(rt, run.path, refusals::of_records(run.side.records, number))
}

// Tells the entries of a list, and how many there are.
fn tell(rt: &HostRuntime, first: Side, second: Side, list: &[u8], to: &[u8]) -> Done {
    let count = list.len() / comparing::ENTRY;
    let mut told = Told::of(rt, to);
    told.put(differences::header(count))?;
    for entry in list.chunks_exact(comparing::ENTRY) {
        told.put(Entry::read(entry).row(first, second))?;
    }
    told.put(differences::counted(first, second, count))?;
    told.end()?;
    if count != 0 {
        return Err(Failure::Different);
    }
    Ok(())
}

// compare --texts OLD NEW EVENTS [TURNS]
pub fn texts_command(rt: &HostRuntime, old: &[u8], new: &[u8], events: &[u8], word: &[u8]) -> Done {
    are_apart(rt, old, new)?;
    let turns = given::turns(rt, word)?;
    let mut room = [0u8; given::ROOM];
    let script = given::events(rt, events, &mut room)?;
    on_events(rt, old, new, script, turns)
}

// Reads a text and runs it on events. A refusal is told.
fn record<'a>(
    rt: &HostRuntime,
    path: &'a [u8],
    script: &[u8],
    turns: u64,
    image: &'a mut [u8],
    records: &'a mut [u8],
) -> Result<Recorded<'a>, Failure> {
    let mut room = [0u8; given::ROOM];
    let text = files::read(rt, path, &mut room)?;
    let tried = tried::try_text(text, image, script, turns, records);
    let translated = tried.translated;
    if translated.number != 0 {
        return Err(texts::refuse(rt, path, text, translated));
    }
    let ran = tried.ran;
    let side = Side {
        records: runs::of_records(records, ran.records),
        image: parts::front(image, translated.length),
    };
    Ok(Recorded {
        run: Run { path, side },
        reason: ran.reason,
        turns: ran.turns,
    })
}

// Runs both texts on events, compares what they record, and tells how each ended.
fn on_events(rt: &HostRuntime, old: &[u8], new: &[u8], script: &[u8], turns: u64) -> Done {
    let mut image = [0u8; given::ROOM];
    let mut records = [0u8; given::ROOM];
    let first = record(rt, old, script, turns, &mut image, &mut records)?;
    let mut other_image = [0u8; given::ROOM];
    let mut other_records = [0u8; given::ROOM];
    let second = record(rt, new, script, turns, &mut other_image, &mut other_records)?;
    let compared = compare(rt, first.run, second.run, b"");
    if matches!(compared, Err(Failure::Trouble)) {
        return compared;
    }
    tell_end(rt, first)?;
    tell_end(rt, second)?;
    compared
}

// Tells why a run of a text ended, and after how many turns.
fn tell_end(rt: &HostRuntime, run: Recorded) -> Done {
    let mut line = telling::part(Line::empty(), Part::Colon);
    line = telling::words(line, words::Kind::End, run.reason as u32);
    line = telling::part_number(line, Part::TurnsTaken, run.turns);
    commands::tell_of(rt, run.run.path, line.end(), b"")
}
