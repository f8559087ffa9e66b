// What a run answered, as a line of words and numbers. A part is left out where it is as usual: a number that is 0, a place that is 0, a
// handler that is none, a variable with the value that it has at the start; where the run is refused, all that is 0. So two runs that differ
// have different lines. A return place stands as `p0=3`, and with `m0=1 t0=4` behind it where the call of the handler at cell 4 kept it. A
// variable stands as `ER=104`, a user variable by its number as `32=7`, and a record as `[turn kind number value]`.
use bench::{Ran, State, StatePlace};
use events::Event;
use events::script::{SIZE, event_at};
use parts::Line;

// Stays: the bench's answer (`State`) has this number where there is no handler.
const NO_HANDLER: u16 = 65535;

// The names of the paper's variables by number; there is no variable 0, and user variables have no name here.
const NAMES: [&str; 21] = [
    "?", "R1", "R2", "R3", "R4", "P", "A", "D", "VI", "VM", "ER", "O1", "O2", "O3", "MV", "EF",
    "I1", "I2", "I3", "I4", "IN",
];

// As many records as a line shows.
const SHOWN: usize = 16;

// A buffer that is lent holds this byte throughout before the call.
pub const FILLER: u8 = 0xAA;

// A space, unless the line is empty.
fn gap(line: Line) -> Line {
    if line.is_empty() {
        return line;
    }
    line.byte(b' ')
}

// A word, behind a space.
pub fn word(line: Line, name: &str) -> Line {
    gap(line).bytes(name.as_bytes())
}

// A word and a number.
pub fn named(line: Line, name: &str, n: u64) -> Line {
    word(line, name).byte(b' ').number(n)
}

// The same, unless the number is the one that needs no mention.
fn part(line: Line, name: &str, n: u64, usual: u64) -> Line {
    if n == usual {
        return line;
    }
    named(line, name, n)
}

// Bytes in hexadecimal digits, a space between two.
pub fn hex(values: &[u8]) -> Line {
    let mut line = Line::empty();
    for b in values {
        line = gap(line).hex(*b);
    }
    line
}

pub fn ran(mut line: Line, ran: Ran, records: &[u8]) -> Line {
    let is_refused = ran.number != 0;
    line = part(line, "refused", ran.number as u64, 0);
    line = part(line, "index", ran.index as u64, 0);
    line = part(line, "reason", ran.reason as u64, 0);
    line = part(line, "turns", ran.turns, 0);
    line = state(
        line,
        ran.state,
        if is_refused { none() } else { at_start() },
    );
    recorded(line, records, ran.records)
}

// A state of which all is 0.
fn none() -> State {
    let place = StatePlace {
        cell: 0,
        target: 0,
        mark: 0,
    };
    State {
        variables: [0; 64],
        next: 0,
        places: [place; 8],
        kept: 0,
        handler: 0,
        hold: 0,
        motion: 0,
        value: 0,
    }
}

// The state at the start, where no VA line says otherwise. Variables 3; Refusals 23.
fn at_start() -> State {
    let mut state = none();
    state.handler = NO_HANDLER;
    state.variables[6] = 1000000;
    state.variables[7] = 1000000;
    state.variables[8] = 1000;
    state.variables[9] = 768000;
    state
}

fn state(mut line: Line, state: State, usual: State) -> Line {
    line = part(line, "next", state.next as u64, usual.next as u64);
    line = part(line, "kept", state.kept as u64, usual.kept as u64);
    for (i, place) in state.places.iter().enumerate() {
        line = self::place(line, i, *place);
    }
    line = part(line, "handler", state.handler as u64, usual.handler as u64);
    line = motion(line, state.hold, state.motion, state.value);
    let values = state.variables.iter().zip(usual.variables);
    for (i, (value, usual)) in values.enumerate() {
        line = variable(line, i, *value, usual);
    }
    line
}

fn place(mut line: Line, i: usize, place: StatePlace) -> Line {
    line = numbered(line, b'p', i, place.cell as u64);
    line = numbered(line, b'm', i, place.mark as u64);
    numbered(line, b't', i, place.target as u64)
}

fn numbered(mut line: Line, letter: u8, i: usize, n: u64) -> Line {
    if n == 0 {
        return line;
    }
    line = line.byte(b' ').byte(letter).number(i as u64);
    line.byte(b'=').number(n)
}

// The hold left, and the motion with its target or velocity.
fn motion(mut line: Line, hold: u32, motion: u8, value: i32) -> Line {
    line = part(line, "hold", hold as u64, 0);
    line = part(line, "motion", motion as u64, 0);
    if value == 0 {
        return line;
    }
    word(line, "value").byte(b' ').signed(value)
}

fn variable(line: Line, variable: usize, value: i32, usual: i32) -> Line {
    if value == usual {
        return line;
    }
    name(line, variable).byte(b'=').signed(value)
}

fn name(line: Line, variable: usize) -> Line {
    match NAMES.get(variable) {
        Some(name) => word(line, name),
        None => gap(line).number(variable as u64),
    }
}

// The first records, and what else of the buffer is changed.
fn recorded(mut line: Line, records: &[u8], count: usize) -> Line {
    line = part(line, "records", count as u64, 0);
    for bytes in records.chunks_exact(SIZE).take(count.min(SHOWN)) {
        line = record(line, event_at(bytes, 0));
    }
    changed(line, parts::back(records, SIZE.saturating_mul(count)))
}

// The turn, the kind, the number and the value of a record; its zeros where they are none.
fn record(mut line: Line, record: Event) -> Line {
    line = gap(line).byte(b'[').number(record.turn as u64);
    line = line.byte(b' ').number(record.kind as u64);
    line = line.byte(b' ').number(record.number as u64);
    line = line.byte(b' ').signed(record.value);
    part(line, "zeros", record.zeros as u64, 0).byte(b']')
}

// How many bytes are no longer the filler, where there are any.
pub fn changed(line: Line, values: &[u8]) -> Line {
    let mut count: u64 = 0;
    for b in values {
        if *b != FILLER {
            count += 1;
        }
    }
    part(line, "changed", count, 0)
}
