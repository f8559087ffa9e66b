// Repeats one of the bench's five calls, and writes a checksum of the answers and of the buffer that the call fills or reads. The arguments are
// what is repeated, and how many times: `translate` takes the largest program with its names declared behind all statements, `half` and
// `quarter` so much of it; `check`, `list` and `run` take the largest program, `calls` runs one that calls and returns, and `compare` takes as
// many records as there may be. A call that is refused is the last, and its number is written in place of the sum.
#![tactic(auto)]

mod build;
mod sums;

use comparing::Compared;
use std::env::{Env, FillError};
use std::io;
use sums::{Answer, Sum};

const LONGEST_IMAGE: usize = 5008;

const LONGEST_LISTING: usize = 9472;

// The longest argument that is read.
const WORD: usize = 16;

// How many words the program is started with, its own name among them.
const WORDS: usize = 3;

// What is repeated.
#[derive(Clone, Copy)]
enum Task {
    Translate,
    Half,
    Quarter,
    Check,
    List,
    Run,
    Calls,
    Compare,
}

// The number with which a call was refused.
#[derive(Clone, Copy)]
struct Refused(u8);

impl Task {
    fn named(word: &[u8]) -> Option<Task> {
        match word {
            b"translate" => Some(Task::Translate),
            b"half" => Some(Task::Half),
            b"quarter" => Some(Task::Quarter),
            b"check" => Some(Task::Check),
            b"list" => Some(Task::List),
            b"run" => Some(Task::Run),
            b"calls" => Some(Task::Calls),
            b"compare" => Some(Task::Compare),
            _ => None,
        }
    }
}

// The sum of the answers to so many calls.
fn repeat<A: Answer + Drop, F: FnMut() -> A>(times: u64, mut call: F) -> Result<Sum, Refused>
    requires { F.IsAlwaysCallable call }
{
    let mut sum = Sum::FIRST;
    for _ in 0..times {
        let answer = call();
        if answer.number() != 0 {
            return Err(Refused(answer.number()));
        }
        sum = answer.mixed_into(sum);
    }
    Ok(sum)
}

// The image of a text, in the front of a room.
fn image_of<'a>(text: &[u8], room: &'a mut [u8]) -> Result<&'a [u8], Refused> {
    let translated = bench::translate(text, room);
    if translated.number != 0 {
        return Err(Refused(translated.number));
    }
    Ok(parts::front(room, translated.length))
}

fn translate(times: u64, size: usize) -> Result<Sum, Refused> {
    let text = build::late_text(size);
    let mut image = [0u8; LONGEST_IMAGE];
    let sum = repeat(
        times,
        || bench::translate(parts::front(&text, size), &mut image),
    )?;
    Ok(sum.with_bytes(&image))
}

fn check(times: u64) -> Result<Sum, Refused> {
    let mut room = [0u8; LONGEST_IMAGE];
    let image = image_of(&build::text(), &mut room)?;
    let sum = repeat(times, || bench::check(image))?;
    Ok(sum.with_bytes(image))
}

fn list(times: u64) -> Result<Sum, Refused> {
    let mut room = [0u8; LONGEST_IMAGE];
    let image = image_of(&build::text(), &mut room)?;
    let mut text = [0u8; LONGEST_LISTING];
    let sum = repeat(times, || bench::list(image, &mut text))?;
    Ok(sum.with_bytes(&text))
}

fn run(times: u64, text: &[u8], events: &[u8]) -> Result<Sum, Refused> {
    let mut room = [0u8; LONGEST_IMAGE];
    let image = image_of(text, &mut room)?;
    let mut records = [0u8; build::EVENTS_SIZE];
    let turns = build::TURNS as u64;
    let sum = repeat(times, || bench::run(image, events, turns, &mut records))?;
    Ok(sum.with_bytes(&records))
}

fn compare(times: u64) -> Result<Sum, Refused> {
    let first = build::records(false);
    let second = build::records(true);
    let mut list = [0u8; comparing::ENTRY * Compared::MOST];
    let sum = repeat(times, || comparing::compare(&first, &second, &mut list))?;
    Ok(sum.with_bytes(&list))
}

fn repeated(task: Task, times: u64) -> Result<Sum, Refused> {
    match task {
        Task::Translate => translate(times, build::TEXT_SIZE),
        Task::Half => translate(times, build::TEXT_SIZE / 2),
        Task::Quarter => translate(times, build::TEXT_SIZE / 4),
        Task::Check => check(times),
        Task::List => list(times),
        Task::Run => run(times, &build::text(), &build::events()),
        Task::Calls => run(times, &build::CALLS, b""),
        Task::Compare => compare(times),
    }
}

fn tell_usage(rt: &impl Eprint) -> io::Result<()> {
    eprintln!(rt; "usage: speed translate|half|quarter|check|list|run|calls|compare N")
}

// The program was started with a word of this number, its own name's being 0.
fn is_given(rt: &impl Env, number: usize) -> bool {
    let mut word = [0u8; WORD];
    !matches!(rt.arg(number, &mut word), Err(FillError::NotPresent))
}

// The word of this number, in the front of a room; an empty one where there is none, and where it is longer than the room.
fn word<'a>(rt: &impl Env, number: usize, room: &'a mut [u8]) -> &'a [u8] {
    let length = rt.arg(number, room).unwrap_or(0);
    parts::front(room, length)
}

// What the program is asked to repeat, and how many times; nothing where its words are not so.
fn asked(rt: &impl Env) -> Option<(Task, u64)> {
    if !is_given(rt, WORDS - 1) | is_given(rt, WORDS) {
        return None;
    }
    let mut name = [0u8; WORD];
    let mut times = [0u8; WORD];
    let times = scripts::digits(word(rt, 2, &mut times)).ok()?;
    let task = Task::named(word(rt, 1, &mut name))?;
    Some((task, times))
}

fn main(rt: HostRuntime) -> io::Result<()> {
    let Some((task, times)) = asked(&rt) else {
        return tell_usage(&rt);
    };
    match repeated(task, times) {
        Ok(sum) => println!(rt; "{}", sum.value()),
        Err(Refused(number)) => println!(rt; "refused {number}"),
    }
}
