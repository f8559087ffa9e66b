// What the commands share: refusals, and pages.
use crate::uses::{Command, Wrong};
use crate::{Done, Failure, files, given, outputs, paths};
use bench::Ran;
use parts::{Line, Page};
use telling::state::{self, Motion, State};
use telling::trace;
use words::Part;

// The numbers of answers are below this.
const NUMBERS: u64 = 1000;

// What is told of a file that was written, or of none, page by page.
#[derive(Drop)]
pub struct Told<'a> {
    rt: &'a HostRuntime,
    written: &'a [u8],
    page: Page,
}

impl<'a> Told<'a> {
    pub fn of(rt: &'a HostRuntime, written: &'a [u8]) -> Told<'a> {
        Told {
            rt,
            written,
            page: Page::empty(),
        }
    }

    // Puts a line to the page, which goes out before where it is full.
    pub fn put(&mut self, line: Line) -> Done {
        if trace::FULL <= self.page.len() {
            done_with(self.rt, self.written, &self.page)?;
            self.page.clear();
        }
        line.onto(&mut self.page);
        Ok(())
    }

    // The last page goes out.
    pub fn end(self) -> Done {
        done_with(self.rt, self.written, &self.page)
    }
}

// Writes what is done to standard output.
pub fn done(rt: &HostRuntime, bytes: &[u8]) -> Done {
    match rt.write_all(bytes) {
        Ok(()) => Ok(()),
        Err(error) => Err(files::trouble_with_output(rt, &error)),
    }
}

// Writes a page on a file that was written. Where that went to standard output, the page goes to standard error; where the page is lost,
// it is told that the file is there.
fn done_with(rt: &HostRuntime, path: &[u8], page: &Page) -> Done {
    if paths::is_dash(path) {
        files::tell_bytes(rt, page.held());
        return Ok(());
    }
    let done = done(rt, page.held());
    if done.is_err() & !path.is_empty() {
        files::complain(rt, path, Wrong::PageLost);
    }
    done
}

// words, --version, help [COMMAND | NUMBER]
pub fn show(rt: &HostRuntime, command: Command, word: &[u8]) -> Done {
    let page = shown(command, word);
    if page.is_empty() {
        return Err(files::complain(rt, word, Wrong::NoHelp));
    }
    done(rt, page.held())
}

fn shown(command: Command, word: &[u8]) -> Page {
    let mut page = Page::empty();
    match command {
        Command::Words => page.add(words::for_people().as_bytes()),
        Command::Version => telling::part(Line::empty(), Part::Version)
            .end()
            .onto(&mut page),
        _ => put_help(&mut page, word),
    }
    page
}

// What is told of all commands, of a number, or of one command.
fn put_help(page: &mut Page, word: &[u8]) {
    if word.is_empty() {
        page.add(words::help().as_bytes());
        return;
    }
    match given::number(word) {
        Some(number) if number < NUMBERS => telling::explain(number as u32).onto(page),
        _ => {
            if let Some(command) = words::command_for(word) {
                telling::help_of(page, command);
            }
        }
    }
}

// Tells a refusal of what was given.
pub fn refuse(rt: &HostRuntime, given: &[u8], told: Line) -> Failure {
    files::tell_behind(rt, given, told);
    Failure::Refused
}

// The values of the variables before the first turn: the state of a run of no turns.
fn start_values(image: &[u8]) -> [i32; 64] {
    let mut none = [0u8; 1];
    let ran = bench::run(image, b"", 0, &mut none);
    ran.state.variables
}

// Tells of a file what a line says, after one was written or none.
pub fn tell_of(rt: &HostRuntime, path: &[u8], line: Line, written: &[u8]) -> Done {
    let mut page = Page::empty();
    telling::name(&mut page, path);
    line.onto(&mut page);
    done_with(rt, written, &page)
}

// Writes a file, and tells of it what a line says.
pub fn keep(rt: &HostRuntime, path: &[u8], bytes: &[u8], line: Line) -> Done {
    outputs::write(rt, path, bytes)?;
    tell_of(rt, path, line, path)
}

// Writes what was made of a program, and tells what its image holds; where no file is named it is shown, and nothing is told.
pub fn keep_program(rt: &HostRuntime, path: &[u8], bytes: &[u8], image: &[u8]) -> Done {
    if path.is_empty() {
        return done(rt, bytes);
    }
    keep(rt, path, bytes, counts(bytes.len(), image))
}

// How many bytes a file has, and the cells, labels and variables of the image that it is or gives.
pub fn counts(bytes: usize, image: &[u8]) -> Line {
    let mut line = telling::part_number(Line::empty(), Part::Colon, bytes as u64);
    line = telling::part_number(line, Part::Cells, image::cell_count(image) as u64);
    line = telling::part_number(line, Part::Labels, image::label_count(image) as u64);
    line = telling::part_number(line, Part::Variables, image::variable_count(image) as u64);
    line.end()
}

// Tells how a run ended. Its records may be kept in a file.
pub fn tell_end(rt: &HostRuntime, to: &[u8], image: &[u8], ran: Ran) -> Done {
    let end = ran.state;
    let state = State {
        image,
        motion: Motion::of(end.motion, end.value),
        variables: &end.variables,
        start: &start_values(image),
    };
    let mut page = Page::empty();
    state.put(&mut page, state::ended(ran.reason, ran.turns, ran.records));
    done_with(rt, to, &page)
}
