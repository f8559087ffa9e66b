// Bytes that stand wrong on a line.

// What is wrong with a byte, by the number of its hint.
#[derive(Clone, Copy)]
pub enum Mark {
    Tab = 1,
    CarriageReturn = 2,
    Control = 3,
    NotPlain = 4,
    SmallLetter = 5,
    Quote = 6,
    OtherMark = 7,
    Hash = 13,
    Slashes = 14,
    Semicolon = 15,
    ByteOrder = 16,
    WideText = 17,
    WideSpace = 18,
    Minus = 19,
    EnDash = 20,
    EmDash = 21,
}

// What is wrong with the first of these bytes wherever it stands: it is no plain one.
fn anywhere(bytes: &[u8]) -> Option<Mark> {
    match bytes {
        [0xef, 0xbb, 0xbf, ..] => Some(Mark::ByteOrder),
        [0xff, 0xfe, ..] | [0xfe, 0xff, ..] | [0, ..] => Some(Mark::WideText),
        [0xc2, 0xa0, ..] => Some(Mark::WideSpace),
        [0xe2, 0x88, 0x92, ..] => Some(Mark::Minus),
        [0xe2, 0x80, 0x93, ..] => Some(Mark::EnDash),
        [0xe2, 0x80, 0x94, ..] => Some(Mark::EmDash),
        [b'\t', ..] => Some(Mark::Tab),
        [b'\r', ..] => Some(Mark::CarriageReturn),
        [1..=31, ..] => Some(Mark::Control),
        [127..=255, ..] => Some(Mark::NotPlain),
        _ => None,
    }
}

// The same of a plain character: it may stand in a comment alone.
fn outside_a_comment(bytes: &[u8]) -> Option<Mark> {
    match bytes {
        [b'a'..=b'z', ..] => Some(Mark::SmallLetter),
        [b'/', b'/', ..] => Some(Mark::Slashes),
        [b'#', ..] => Some(Mark::Hash),
        [b';', ..] => Some(Mark::Semicolon),
        [b'"', ..] => Some(Mark::Quote),
        [b'`' | b'\\', ..] => Some(Mark::OtherMark),
        _ => None,
    }
}

// What is wrong at a place of a line that has so many bytes before its comment.
fn at(line: &[u8], code: usize, place: usize) -> Option<Mark> {
    let bytes = parts::back(line, place);
    let mark = anywhere(bytes);
    if place < code {
        return mark.or(outside_a_comment(bytes));
    }
    mark
}

// The first place of such a line at which something is wrong, and what.
pub fn first(line: &[u8], code: usize) -> Option<(usize, Mark)> {
    (0..line.len()).find_map(|place| at(line, code, place).map(|mark| (place, mark)))
}
