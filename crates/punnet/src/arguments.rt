// The arguments of the program: a command, an option behind it if wanted, and what it works on.
use crate::paths::PATH_MAX;
use parts::Text;
use std::env::{Env, FillError};

// An argument, as much of it as a name may have. One that is longer fills the room, and names no file.
pub type Name = Text<PATH_MAX>;

// The argument of this number; an empty one where there is none.
pub fn name(rt: &HostRuntime, number: usize) -> Name {
    let mut room = [0u8; PATH_MAX];
    let length = match rt.arg(number, &mut room) {
        Ok(length) => length,
        Err(FillError::TooLong) => PATH_MAX,
        Err(FillError::NotPresent) => 0,
    };
    Name::empty().bytes(parts::front(&room, length))
}

// What a command works on.
#[derive(Clone, Copy)]
pub struct Arguments([Name; 4]);

impl Arguments {
    // The arguments from this number on.
    pub fn read(rt: &HostRuntime, first: usize) -> Arguments {
        Arguments([0, 1, 2, 3].map(|i| name(rt, first.saturating_add(i))))
    }

    pub fn words(&self) -> [&[u8]; 4] {
        let [a, b, c, d] = &self.0;
        [a.held(), b.held(), c.held(), d.held()]
    }
}

// Whether there is an argument, however long.
fn is_there(rt: &HostRuntime, number: usize) -> bool {
    let mut first = [0u8; 1];
    !matches!(rt.arg(number, &mut first), Err(FillError::NotPresent))
}

// How many arguments there are, the program's name among them.
pub fn count(rt: &HostRuntime) -> usize {
    let mut numbers = 0..usize::MAX;
    numbers.find(|i| !is_there(rt, *i)).unwrap_or(usize::MAX)
}
