// The command on scripts: events.
use crate::outputs::Output;
use crate::{Done, commands, given};
use events::script::event_count;
use parts::Line;
use words::Part;

// events [-f] SCRIPT EVENTS
pub fn events_command(rt: &HostRuntime, path: &[u8], to: Output) -> Done {
    to.may_replace(rt)?;
    let mut room = [0u8; given::ROOM];
    let events = given::script(rt, path, &mut room)?;
    let colon = telling::part(Line::empty(), Part::Colon);
    let line = telling::part_number(colon, Part::Events, event_count(events) as u64);
    commands::keep(rt, to.path, events, line.end())
}
