// Reads worked cases from standard input, makes the bench's three calls on them, and compares each answer with the one that stands beside
// its case. Each case writes a line, and the last line counts them. The head of the input says what its lines mean.
#![tactic(auto)]

mod answers;
mod described;
mod input;

use input::{Given, Kind};
use parts::Line;
use std::io::{self, Read, Write};

// As much of the input is read.
const ROOM: u64 = 65536;

// How many cases there were, and how many of them agree.
#[derive(Clone, Copy, Default)]
struct Count {
    agreeing: u64,
    all: u64,
}

impl Count {
    fn with(self, agrees: bool) -> Count {
        Count {
            agreeing: self.agreeing.saturating_add(u64::from(agrees)),
            all: self.all.saturating_add(1),
        }
    }
}

// Writes what is said of a case.
fn say<W: Write>(output: &mut W, name: &[u8], said: &str) -> io::Result<()> {
    output.write_all(name)?;
    let said = Line::empty().bytes(b": ").bytes(said.as_bytes()).end();
    output.write_all(said.held())
}

// Writes the line of a case, and answers whether it agrees. What was got is told where it does not.
fn told<W: Write>(output: &mut W, name: &[u8], got: Line, wanted: &[u8]) -> io::Result<bool> {
    if got.held() == wanted {
        say(output, name, "as expected")?;
        return Ok(true);
    }
    say(output, name, "NOT as expected, got: ")?;
    output.write_all(got.end().held())?;
    Ok(false)
}

// Tries the case of this name by the lines behind its head: its text and events, its call, and the answer, which stands on the line behind.
fn tried<W: Write>(output: &mut W, name: &[u8], behind: &[u8], all: &[u8]) -> io::Result<bool> {
    let mut asked = text::lines_of(behind).skip_while(|line| !Kind::of(line).ends_text());
    match (asked.next(), asked.next(), asked.next()) {
        (Some(call), Some(wanted), next) if is_answer(wanted, next) => told(
            output,
            name,
            answered(call, behind, all),
            input::rest(wanted),
        ),
        _ => {
            say(output, name, "NOT tried")?;
            Ok(false)
        }
    }
}

// The line is an answer, and the last of its case.
fn is_answer(line: &[u8], next: Option<&[u8]>) -> bool {
    let is_last = next.is_none_or(|line| Kind::of(line).ends_case());
    is_last & (Kind::of(line) == Kind::Gives)
}

// The answer to a call on what the lines before it give.
fn answered(call: &[u8], lines: &[u8], all: &[u8]) -> Line {
    let mut given = Given::empty();
    match given.fill(lines, all) {
        Ok(()) => answers::answer(call, &given),
        Err(_) => Line::empty(),
    }
}

// Tries every case.
// Stays: what stands behind a line is asked for with it, and an iterator of the lines has them alone; a list of all of them takes more room than the input.
fn tally<W: Write>(output: &mut W, all: &[u8]) -> io::Result<Count> {
    let mut count = Count::default();
    let mut at = 0;
    while at < all.len() {
        let span = text::line_at(all, at);
        let line = parts::between(all, at, span.end);
        if Kind::of(line) == Kind::Case {
            let behind = parts::back(all, span.next);
            count = count.with(tried(output, input::rest(line), behind, all)?);
        }
        at = span.next;
    }
    Ok(count)
}

fn main(rt: HostRuntime) -> io::Result<()> {
    let mut input = Vec::new(rt.alloc());
    rt.stdin().take(ROOM).read_to_end(&mut input)?;
    let Count { agreeing, all } = tally(&mut rt.stdout(), &input)?;
    println!(rt; "{agreeing} of {all} agree")
}
