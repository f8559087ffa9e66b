// The lines of the answers.
use bench::{Checked, Listed, Ran, State, StatePlace, Translated};
use comparing::Compared;
use std::fmt;
use std::fmt::Display;

// What a lent buffer is filled with before a call.
pub const FILLER: u8 = 0xAA;

// What each call answers, as it stands at the front of a line.
#[derive(Clone, Copy)]
pub struct Answer<T>(pub T);

impl Display for Answer<Translated> {
    fn fmt<W: fmt::Write>(&self, f: &mut fmt::Formatter<W>) -> fmt::Result {
        let Translated {
            number,
            line,
            length,
        } = self.0;
        write!(f, "T {number} {line} {length}")
    }
}

impl Display for Answer<Checked> {
    fn fmt<W: fmt::Write>(&self, f: &mut fmt::Formatter<W>) -> fmt::Result {
        let Checked { number } = self.0;
        write!(f, "C {number}")
    }
}

impl Display for Answer<Listed> {
    fn fmt<W: fmt::Write>(&self, f: &mut fmt::Formatter<W>) -> fmt::Result {
        let Listed { number, length } = self.0;
        write!(f, "L {number} {length}")
    }
}

impl Display for Answer<Compared> {
    fn fmt<W: fmt::Write>(&self, f: &mut fmt::Formatter<W>) -> fmt::Result {
        let Compared { number, entries } = self.0;
        write!(f, "D {number} {entries}")
    }
}

impl Display for Answer<Ran> {
    fn fmt<W: fmt::Write>(&self, f: &mut fmt::Formatter<W>) -> fmt::Result {
        let Ran {
            number,
            index,
            reason,
            turns,
            records,
            state,
        } = self.0;
        let state = Answer(state);
        write!(f, "R {number} {index} {reason} {turns} {records} {state}")
    }
}

impl Display for Answer<State> {
    fn fmt<W: fmt::Write>(&self, f: &mut fmt::Formatter<W>) -> fmt::Result {
        let State {
            variables,
            next,
            places,
            kept,
            handler,
            hold,
            motion,
            value,
        } = self.0;
        let cells = places.map(|place| place.cell as u32);
        let marks = places.map(mark);
        let (fixed, user) = shown(&variables);
        write!(f, "{next} {kept} {} {}", List(&cells), List(&marks))?;
        write!(f, " {handler} {hold} {motion} {value} {fixed},{user}")
    }
}

// The variables that a line shows: those of the language, and those of the user.
fn shown<'a>(variables: &'a [i32; 64]) -> (List<'a, i32>, List<'a, i32>) {
    (List(&variables[1..21]), List(&variables[32..]))
}

// The mark of a return place: 0, or 1 and the target of the handler whose call kept the place.
fn mark(place: StatePlace) -> u32 {
    if place.mark == 0 {
        return 0;
    }
    1 + place.target as u32
}

// Numbers with a comma between two.
#[derive(Clone, Copy)]
struct List<'a, T>(&'a [T]);

impl<T: Display> Display for List<'_, T> {
    fn fmt<W: fmt::Write>(&self, f: &mut fmt::Formatter<W>) -> fmt::Result {
        let mut separator = "";
        for value in self.0 {
            write!(f, "{separator}{value}")?;
            separator = ",";
        }
        Ok(())
    }
}

// A lent buffer as it is after the call: its bytes up to the last that is no filler, a full stop, and how many fillers follow.
#[derive(Clone, Copy)]
pub struct Contents<'a>(pub &'a [u8]);

impl Display for Contents<'_> {
    fn fmt<W: fmt::Write>(&self, f: &mut fmt::Formatter<W>) -> fmt::Result {
        let fillers = self.0.iter().rev().take_while(|b| **b == FILLER).count();
        let used = self.0.len().saturating_sub(fillers);
        for b in &self.0[..used] {
            write!(f, "{b:02x}")?;
        }
        write!(f, ".{fillers}")
    }
}
