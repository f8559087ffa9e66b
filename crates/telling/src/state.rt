// The end of a run told: why and when it ended, and the state that it left.
use parts::{Line, Page};
use program::Variable;
use words::{Kind, Part};

// How many variables a state has.
const VARIABLES: u8 = 64;

const POSITION: u8 = Variable::P as u8;

const FIRST_OUTPUT: u8 = Variable::O1 as u8;

const LAST_OUTPUT: u8 = Variable::O3 as u8;

// Whether the axis is still, or moves to a place or with a velocity.
// Stays: machine's Motion is no plainer: `of` and `put` would be loose functions here, and telling would need machine for three names.
#[derive(Clone, Copy)]
pub enum Motion {
    Still,
    To(i32),
    Slewing(i32),
}

// The state that a run left: its image, the motion, and the variables at the end and before the first turn.
#[derive(Clone, Copy)]
pub struct State<'a> {
    pub image: &'a [u8],
    pub motion: Motion,
    pub variables: &'a [i32],
    pub start: &'a [i32],
}

// The value of a variable; 0 where there is none.
fn value_of(values: &[i32], number: u8) -> i32 {
    values.get(number as usize).copied().unwrap_or(0)
}

// Why a run ended, and after how many turns and records.
pub fn ended(reason: u8, turns: u64, records: usize) -> Line {
    let mut line = crate::words(Line::empty(), Kind::End, reason as u32).end();
    line = crate::part_number(line, Part::Turns, turns).end();
    crate::part_number(line, Part::Records, records as u64).end()
}

impl State<'_> {
    // A variable by its name, the language's or the user's as the image has it, and its value.
    fn value(self, line: Line, number: u8, value: i32) -> Line {
        crate::key(line, printing::variable_key(self.image, number))
            .byte(b'=')
            .signed(value)
    }

    // The position, and whether the axis moves.
    fn position(self, line: Line) -> Line {
        let position = value_of(self.variables, POSITION);
        let line = crate::part(line, Part::Position).signed(position);
        self.motion.put(line).end()
    }

    // The outputs, with a space before each.
    fn outputs(self, line: Line) -> Line {
        let mut line = crate::part(line, Part::Outputs);
        for number in FIRST_OUTPUT..=LAST_OUTPUT {
            line = self.value(line.byte(b' '), number, value_of(self.variables, number));
        }
        line.end()
    }

    // A variable whose value is not the one at the start.
    fn change(self, number: u8, now: i32, start: i32) -> Line {
        let line = crate::part(Line::empty(), Part::Changed);
        let line = crate::part(self.value(line, number, now), Part::Start);
        line.signed(start).byte(b')').end()
    }

    // Why the run ended, and the state: the position, the motion, the outputs, and each value that is not the one at the start.
    pub fn put(self, page: &mut Page, ended: Line) {
        self.outputs(self.position(ended)).onto(page);
        for number in 0..VARIABLES {
            let now = value_of(self.variables, number);
            let start = value_of(self.start, number);
            if now != start {
                self.change(number, now, start).onto(page);
            }
        }
    }
}

impl Motion {
    // A motion by its number in an answer, with the place or the velocity.
    pub fn of(number: u8, value: i32) -> Motion {
        match number {
            0 => Motion::Still,
            1 => Motion::To(value),
            _ => Motion::Slewing(value),
        }
    }

    fn put(self, line: Line) -> Line {
        match self {
            Motion::Still => crate::meaning(line, Kind::Motion, 0),
            Motion::To(place) => crate::meaning(line, Kind::Motion, 1).signed(place),
            Motion::Slewing(velocity) => crate::meaning(line, Kind::Motion, 2).signed(velocity),
        }
    }
}
