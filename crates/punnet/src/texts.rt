// The command that makes images of texts: translate.
use crate::outputs::Output;
use crate::{Done, Failure, commands, files, given};
use bench::Translated;
use telling::refusals;

// Tells a refusal of a text: of the whole, or of its lines.
pub fn refuse(rt: &HostRuntime, path: &[u8], text: &[u8], refused: Translated) -> Failure {
    if refused.line == 0 {
        return commands::refuse(rt, path, refusals::of_whole(refused.number));
    }
    let mut room = [0u8; parts::PAGE];
    refuse_lines(rt, path, text, refusals::faults(text, &mut room))
}

// Tells the first faulty lines of a text, by the fault of each of its lines, 0 where it has none; and how many there are.
fn refuse_lines(rt: &HostRuntime, path: &[u8], text: &[u8], faults: &[u8]) -> Failure {
    let lines = (1..=faults.len()).zip(faults);
    let faulty = lines.filter(|(_, fault)| **fault != 0);
    for (line, fault) in faulty.take(refusals::MOST_SHOWN) {
        files::tell_behind(rt, path, refusals::of_line(text, line, *fault));
    }
    let count = faults.iter().filter(|fault| **fault != 0).count();
    files::tell(rt, refusals::counted_lines(count));
    Failure::Refused
}

// translate [-f] TEXT IMAGE
pub fn translate(rt: &HostRuntime, path: &[u8], to: Output) -> Done {
    to.may_replace(rt)?;
    let mut room = [0u8; given::ROOM];
    let text = files::read(rt, path, &mut room)?;
    let mut image = [0u8; given::ROOM];
    let translated = bench::translate(text, &mut image);
    if translated.number != 0 {
        return Err(refuse(rt, path, text, translated));
    }
    let image = parts::front(&image, translated.length);
    commands::keep_program(rt, to.path, image, image)
}
