// The bench as a tool on files: programs are tried, translated, checked, listed and run, and runs compared. `punnet help` tells how.
#![tactic(auto)]

mod arguments;
mod commands;
mod comparisons;
mod files;
mod given;
mod images;
mod outputs;
mod paths;
mod runs;
mod scripted;
mod seen;
mod texts;
mod uses;

use arguments::Arguments;
use outputs::{Kind, Output};
use std::process::ExitCode;
use uses::{Command, Wrong};

// Why the tool does not end with 0, which is told by then: what was given is refused, two runs differ, or there is trouble with the use of
// the tool or with a file.
#[derive(Clone, Copy, PartialEq, Eq)]
pub enum Failure {
    Refused,
    Different,
    Trouble,
}

pub type Done = Result<(), Failure>;

impl From<Failure> for ExitCode {
    fn from(failure: Failure) -> ExitCode {
        match failure {
            Failure::Refused | Failure::Different => ExitCode::from(1),
            Failure::Trouble => ExitCode::from(2),
        }
    }
}

// Whether a file that is there is a plain one; its permissions and owners; and the device and number that tell it from others.
#[derive(Clone, Copy)]
pub struct Facts {
    pub plain: bool,
    pub mode: u32,
    pub owner: u32,
    pub group: u32,
    pub device: u64,
    pub number: u64,
}

// Does what a command says with its arguments, the first of them behind its `-f`, if it has one.
fn work(rt: &HostRuntime, command: Command, force: bool) -> Done {
    let arguments = Arguments::read(rt, if force { 3 } else { 2 });
    let [a, b, c, d] = arguments.words();
    match command {
        Command::Try => runs::try_command(rt, a, b, c),
        Command::Translate => texts::translate(rt, a, Output::of(b, Kind::Image, force, [a, a])),
        Command::Check => images::check(rt, a),
        Command::List => images::list(rt, a, Output::of(b, Kind::Unknown, force, [a, a])),
        Command::Run => runs::run_command(rt, a, b, c, Output::of(d, Kind::Records, force, [a, b])),
        Command::Events => scripted::events_command(
            rt,
            a,
            Output::of(b, Kind::Events, force, [a, a]),
        ),
        Command::Compare => {
            comparisons::compare_command(rt, a, b, Output::of(c, Kind::Unknown, force, [a, b]))
        }
        Command::Texts => comparisons::texts_command(rt, a, b, c, d),
        _ => commands::show(rt, command, a),
    }
}

// The same, where there are so many arguments as the command takes, an option behind it or not.
fn with_count(rt: &HostRuntime, command: Command, name: &[u8], option: bool) -> Done {
    let count = arguments::count(rt);
    let others = if option {
        count.saturating_sub(1)
    } else {
        count
    };
    if !command.takes(others) {
        return Err(files::complain_of_arguments(rt, name, command));
    }
    work(rt, command, option)
}

// A command, and the word behind it, if that is an option.
fn with_option(rt: &HostRuntime, command: Command, name: &[u8]) -> Done {
    let word = arguments::name(rt, 2);
    match Command::named(word.held()) {
        Some(Command::ShortHelp | Command::LongHelp) => commands::show(rt, Command::Help, name),
        Some(Command::Texts) if command == Command::Compare => {
            with_count(rt, Command::Texts, name, true)
        }
        Some(Command::Force) => with_count(rt, command, name, command.is_writing()),
        None if paths::is_dashed(word.held()) => Err(files::complain(rt, name, Wrong::NoOption)),
        _ => with_count(rt, command, name, false),
    }
}

fn start(rt: &HostRuntime) -> Done {
    let word = arguments::name(rt, 1);
    let name = word.held();
    match Command::named(name) {
        None | Some(Command::Force | Command::Texts) => {
            Err(files::complain(rt, name, Wrong::NoCommand))
        }
        Some(command) => with_option(rt, command, name),
    }
}

fn main(rt: HostRuntime) -> ExitCode {
    match start(&rt) {
        Ok(()) => ExitCode::SUCCESS,
        Err(failure) => ExitCode::from(failure),
    }
}
