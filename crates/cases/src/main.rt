// Reads requests from standard input and writes one line for each to standard output, until the input ends. A request is a header and the
// bytes of its two parts; a request that is broken gets the line `E`, and the program stops. It stops with an error where it cannot read or
// write, or gets no memory.
#![tactic(auto)]

mod answers;

use answers::{Answer, Contents, FILLER};
use std::alloc::Global;
use std::io::{self, BufReader, BufWriter, Read, Write};

const HEADER_SIZE: u32 = 20;

// The longest part, and the largest buffer that is lent; where records are compared, and else.
const ROOM: u32 = 131072;

const SMALL_ROOM: u32 = 65536;

// The kinds of request.
#[derive(Clone, Copy)]
enum Kind {
    Translate,
    Check,
    Run { budget: u32 },
    List,
    Compare,
}

// What a header asks for: a call, on so long parts, with a buffer of such a size.
#[derive(Clone, Copy)]
struct Request {
    kind: Kind,
    first: u32,
    second: u32,
    lent: u32,
}

impl Request {
    // A request by the kind and the four numbers of its header; none where there is no such kind, where a number that it does not use is not 0, and
    // where a part or the buffer is too long.
    fn of(header: &[u8]) -> Option<Request> {
        let numbers = [4, 8, 12, 16].map(|at| numbers::read4(header, at));
        let (kind, first, second, lent) = match (numbers::read4(header, 0), numbers) {
            (1, [text, 0, image, 0]) => (Kind::Translate, text, 0, image),
            (2, [image, 0, 0, 0]) => (Kind::Check, image, 0, 0),
            (3, [image, events, budget, records]) => (Kind::Run { budget }, image, events, records),
            (4, [image, 0, text, 0]) => (Kind::List, image, 0, text),
            (5, [first, second, list, 0]) => (Kind::Compare, first, second, list),
            _ => return None,
        };
        let room = kind.room();
        if (room < first) | (room < second) | (room < lent) {
            return None;
        }
        Some(Request {
            kind,
            first,
            second,
            lent,
        })
    }
}

impl Kind {
    // How long a part and a buffer may be.
    fn room(self) -> u32 {
        match self {
            Kind::Compare => ROOM,
            _ => SMALL_ROOM,
        }
    }
}

// Writes the line of a broken request, and answers that the program stops.
fn refuse<W: Write>(output: &mut W) -> io::Result<bool> {
    output.write_all(b"E\n")?;
    Ok(false)
}

// Reads a header or a part of a request: so many bytes, or fewer where the input ends before.
fn receive<R: Read>(alloc: Global, input: &mut R, length: u32) -> io::Result<Vec<u8>> {
    let mut part = Vec::new(alloc);
    input.by_ref().take(length as u64).read_to_end(&mut part)?;
    Ok(part)
}

// Makes the call of a request on its parts and on the buffer, and writes the answer.
fn call<W: Write>(
    output: &mut W,
    kind: Kind,
    first: &[u8],
    second: &[u8],
    lent: &mut [u8],
) -> io::Result<()> {
    match kind {
        Kind::Translate => {
            let answer = Answer(bench::translate(first, lent));
            writeln!(output, "{answer} {}", Contents(lent))
        }
        Kind::Check => {
            let answer = Answer(bench::check(first));
            writeln!(output, "{answer}")
        }
        Kind::Run { budget } => {
            let answer = Answer(bench::run(first, second, budget as u64, lent));
            writeln!(output, "{answer} {}", Contents(lent))
        }
        Kind::List => {
            let answer = Answer(bench::list(first, lent));
            writeln!(output, "{answer} {}", Contents(lent))
        }
        Kind::Compare => {
            let answer = Answer(comparing::compare(first, second, lent));
            writeln!(output, "{answer} {}", Contents(lent))
        }
    }
}

// Answers the next request, and whether to go on: not at the end of the input, nor after a broken request.
fn answer<R: Read, W: Write>(alloc: Global, input: &mut R, output: &mut W) -> io::Result<bool> {
    let header = receive(alloc, input, HEADER_SIZE)?;
    if header.is_empty() {
        return Ok(false);
    }
    if header.len() < HEADER_SIZE as usize {
        return refuse(output);
    }
    let Some(request) = Request::of(&header) else {
        return refuse(output);
    };
    let first = receive(alloc, input, request.first)?;
    let second = receive(alloc, input, request.second)?;
    if (first.len() < request.first as usize) | (second.len() < request.second as usize) {
        return refuse(output);
    }
    let mut lent = vec![in alloc; FILLER; request.lent as usize]?;
    call(output, request.kind, &first, &second, &mut lent)?;
    Ok(true)
}

// A proved loop has to end, and nothing says that the input does. So the loop counts its turns, to a number that no run reaches.
fn main(rt: HostRuntime) -> io::Result<()> {
    let mut input = BufReader::new(rt.alloc(), rt.stdin())?;
    let mut output = BufWriter::new(rt.alloc(), rt.stdout())?;
    for _ in 0..u64::MAX {
        let goes_on = answer(rt.alloc(), &mut input, &mut output)?;
        output.flush()?;
        if !goes_on {
            break;
        }
    }
    Ok(())
}
