// The commands on images alone: check and list.
use crate::outputs::Output;
use crate::{Done, commands, files, given};
use telling::refusals;

// check IMAGE
pub fn check(rt: &HostRuntime, path: &[u8]) -> Done {
    let mut room = [0u8; given::ROOM];
    let image = files::read(rt, path, &mut room)?;
    let checked = bench::check(image);
    if checked.number != 0 {
        return Err(commands::refuse(rt, path, refusals::of_image(image, checked.number)));
    }
    commands::tell_of(rt, path, commands::counts(image.len(), image), b"")
}

// list [-f] IMAGE [TEXT]
pub fn list(rt: &HostRuntime, path: &[u8], to: Output) -> Done {
    to.may_replace(rt)?;
    let mut room = [0u8; given::ROOM];
    let image = files::read(rt, path, &mut room)?;
    let mut text = [0u8; given::ROOM];
    let listed = bench::list(image, &mut text);
    if listed.number != 0 {
        return Err(commands::refuse(rt, path, refusals::of_image(image, listed.number)));
    }
    commands::keep_program(rt, to.path, parts::front(&text, listed.length), image)
}
