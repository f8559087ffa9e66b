// Files that are read, and what is told of files and words that are wrong.
ghost use Rattle.std.specs.Prelude.{◌≤◌, length};
ghost use Rattle.std.specs.Io.{ReadsAtMost};

use crate::uses::{Command, Wrong};
use crate::{Facts, Failure, paths, seen};
use parts::{Line, Page, Text};
use std::fs::File;
use std::io::{Read, Write};
use std::{fmt, io, str};
use telling::refusals;
use words::Part;

// Room for what the system says of an error.
const ERROR: usize = 256;

// Writes bytes to standard error. Where that fails there is nowhere to tell it.
pub fn tell_bytes(rt: &HostRuntime, bytes: &[u8]) {
    let _ = rt.stderr().write_all(bytes);
}

// Writes a line to standard error.
pub fn tell(rt: &HostRuntime, line: Line) {
    tell_bytes(rt, line.held());
}

// The same behind what was given, a word or a file.
pub fn tell_behind(rt: &HostRuntime, given: &[u8], line: Line) {
    tell_name(rt, given);
    tell(rt, line);
}

fn tell_name(rt: &HostRuntime, given: &[u8]) {
    let mut page = Page::empty();
    telling::name(&mut page, given);
    tell_bytes(rt, page.held());
}

fn tell_part(rt: &HostRuntime, part: Part) {
    tell(rt, telling::part(Line::empty(), part));
}

// Tells what is wrong with a word or a file that was given.
pub fn complain(rt: &HostRuntime, given: &[u8], wrong: Wrong) -> Failure {
    tell_use(rt, given, wrong as u32)
}

// Tells what arguments a command takes.
pub fn complain_of_arguments(rt: &HostRuntime, given: &[u8], command: Command) -> Failure {
    tell_use(rt, given, command as u32)
}

fn tell_use(rt: &HostRuntime, given: &[u8], number: u32) -> Failure {
    tell_part(rt, Part::Punnet);
    tell_behind(rt, given, refusals::of_use(number));
    Failure::Trouble
}

// Tells which file, and what the system says of it.
pub fn trouble(rt: &HostRuntime, path: &[u8], error: &io::Error) -> Failure {
    tell_part(rt, Part::Punnet);
    tell_name(rt, path);
    fail(rt, error)
}

// Tells that standard output could not be written.
pub fn trouble_with_output(rt: &HostRuntime, error: &io::Error) -> Failure {
    tell_part(rt, Part::Punnet);
    tell_part(rt, Part::StandardOutput);
    fail(rt, error)
}

// Tells what the system says of what failed.
fn fail(rt: &HostRuntime, error: &io::Error) -> Failure {
    let said = said_of(error);
    tell_bytes(rt, b": ");
    tell_bytes(rt, without_number(said.held()));
    tell_bytes(rt, b"\n");
    Failure::Trouble
}

// What is said of an error.
fn said_of(error: &io::Error) -> Text<ERROR> {
    let mut said = Text::empty();
    let _ = fmt::Write::write_fmt(&mut said, format_args!("{error}"));
    said
}

// The system's own words, without the number that std puts behind them.
fn without_number<'a>(said: &'a [u8]) -> &'a [u8] {
    let Ok(text) = str::from_utf8(said) else {
        return said;
    };
    match text.split_once(" (os error ") {
        Some((words, _)) => words.as_bytes(),
        None => said,
    }
}

// What the system says of a file that is read; `-` is standard input.
pub fn look(rt: &HostRuntime, path: &[u8]) -> io::Result<Facts> {
    if paths::is_dash(path) {
        return seen::look_at(rt, b"/dev/stdin");
    }
    seen::look_at(rt, path)
}

// Reads a file, as much of it as there is room for. What is wrong with it is told.
pub fn read<'a>(rt: &HostRuntime, path: &[u8], room: &'a mut [u8]) -> Result<&'a [u8], Failure> {
    match fill_from(rt, path, room) {
        Ok(length) => Ok(parts::front(room, length)),
        Err(error) => Err(trouble(rt, path, &error)),
    }
}

fn fill_from(rt: &HostRuntime, path: &[u8], room: &mut [u8]) -> io::Result<usize> {
    if paths::is_dash(path) {
        return fill(&mut rt.stdin(), room);
    }
    fill(&mut open(rt, path)?, room)
}

// Opens a file that is read.
pub fn open(rt: &HostRuntime, path: &[u8]) -> io::Result<File> {
    File::open(rt, paths::text(path)?)
}

// Reads until the room is full or the file is at its end, and answers how many bytes there were. A read that fails is no end.
// Stays: a file that is longer is cut where the room ends, so the room is fixed; the clause `ReadsAtMost` of this function says so.
pub fn fill<R: Read>(file: &mut R, room: &mut [u8]) -> io::Result<usize>
    ensures { ReadsAtMost result room.new }
{
    let mut length = 0;
    for _ in 0..room.len() {
        let count = file.read(&mut room[length..])?;
        if count == 0 {
            break;
        }
        length += count;
    }
    Ok(length)
}
