// A text tried at once: translated, then run.
#![tactic(auto)]

ghost use Rattle.tried.specs.Trying.{Tries};
ghost use Rattle.tried.specs.Visiting.{Visited};

use bench::{Ran, Translated};

// The answer to translating, and that to running the image; where the text is refused there is no image, and the run is refused too.
#[derive(Clone, Copy)]
pub struct Tried {
    pub translated: Translated,
    pub ran: Ran,
}

// Translates a text into the image buffer, and runs the image on a script of events for at most `budget` turns.
pub fn try_text(
    text: &[u8],
    image: &mut [u8],
    events: &[u8],
    budget: u64,
    records: &mut [u8],
) -> Tried
    ensures { Tries text.now image.old events.now budget records.old result image.new records.new }
{
    let translated = bench::translate(text, image);
    let length = translated.length;
    let ran = bench::run(&image[..length], events, budget, records);
    Tried { translated, ran }
}

// Translates a text into the image buffer, and writes the places of its run, one for each turn. How many turns there were is handed back.
pub fn visit_text(
    text: &[u8],
    image: &mut [u8],
    events: &[u8],
    budget: u64,
    visits: &mut [u8],
) -> usize
    ensures { Visited text.now image.old events.now budget visits.old result image.new visits.new }
{
    let translated = bench::translate(text, image);
    if translated.number != 0 {
        return 0;
    }
    if bench::may_begin(events, budget, visits.len(), running::PLACE_BYTES as u8).is_err() {
        return 0;
    }
    let length = translated.length;
    running::visit(&image[..length], events, budget as u32, visits)
}
