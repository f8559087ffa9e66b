// What a command is given besides its text or image: events and turns.
use crate::uses::Wrong;
use crate::{Failure, commands, files, paths};
use scripts::Fault;
use telling::refusals;

// The most turns that a run may take.
const MOST_TURNS: u64 = 4096;

// The longest file of events that is read.
const LONGEST: usize = 262144;

// Room for more events than a run takes, and for any other file.
// Stays: the bench's calls fill a lent buffer, and their contracts (`Translates`, `Runs` in crates/bench/specs/Calls.antt) say how much of it.
pub const ROOM: usize = 65536;

// The number that a word is, if it is one. Digits without end are more than any run may take turns.
pub fn number(word: &[u8]) -> Option<u64> {
    match scripts::digits(word) {
        Ok(number) => Some(number),
        Err(Fault::BigNumber) => Some(MOST_TURNS + 1),
        Err(Fault::BadForm) => None,
    }
}

// The number of turns that a word gives; the most where there is no word. What is wrong with it is told.
pub fn turns(rt: &HostRuntime, word: &[u8]) -> Result<u64, Failure> {
    if word.is_empty() {
        return Ok(MOST_TURNS);
    }
    let Some(turns) = number(word) else {
        return Err(files::complain(rt, word, Wrong::NoTurns));
    };
    if MOST_TURNS < turns {
        return Err(commands::refuse(rt, word, refusals::of_turns()));
    }
    Ok(turns)
}

// Reads the events that a run is given; no name and `-` mean none.
pub fn events<'a>(rt: &HostRuntime, path: &[u8], room: &'a mut [u8]) -> Result<&'a [u8], Failure> {
    if path.is_empty() | paths::is_dash(path) {
        return Ok(&[]);
    }
    script(rt, path, room)
}

// Reads a file of events, a script or bytes. What is wrong with it is told.
pub fn script<'a>(rt: &HostRuntime, path: &[u8], room: &'a mut [u8]) -> Result<&'a [u8], Failure> {
    let mut long_room = [0u8; LONGEST];
    let file = files::read(rt, path, &mut long_room)?;
    if file.len() == LONGEST {
        return Err(files::complain(rt, path, Wrong::LongFile));
    }
    match scripts::read(file, room) {
        Ok(length) => accepted(rt, path, file, parts::front(room, length)),
        Err(faulty) => Err(commands::refuse(rt, path, refusals::of_script(file, faulty))),
    }
}

// The events of a file, where a run takes them.
fn accepted<'a>(
    rt: &HostRuntime,
    path: &[u8],
    file: &[u8],
    events: &'a [u8],
) -> Result<&'a [u8], Failure> {
    match refusals::of_events(file, events) {
        Some(told) => Err(commands::refuse(rt, path, told)),
        None => Ok(events),
    }
}

// Whether bytes are events that a run takes.
pub fn are_events(bytes: &[u8]) -> bool {
    telling::given::first_refused(bytes).is_none()
}
