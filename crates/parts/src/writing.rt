// Bytes put together piece by piece: a line, which is passed along by value, and a page, which holds many lines. What there is no room for is
// left out.
ghost use Rattle.std.specs.Prelude.{◌≡◌, ◌≤◌, ◌==◌, ◌∷◌, [], ⊤, take, length};
ghost use Rattle.parts.specs.Added.{held_by, added};
ghost use Rattle.std.proofs.lemmas.List.Edits.{sets};

use crate::Text;
use std::fmt::{self, Write};

// How many digits a number has.
pub fn width(n: u64) -> usize {
    n.checked_ilog10().map_or(1, |tens| tens as usize + 1)
}

impl<const ROOM: usize> Text<ROOM> {
    pub fn empty() -> Self
        ensures { held_by result ≡ [] }
    {
        Text {
            bytes: [0; ROOM],
            held: 0,
        }
    }

    // What it holds.
    pub fn held(&self) -> &[u8]
        ensures { result.now ≡ held_by self.now }
    {
        &self.bytes[..self.held]
    }

    // How many bytes it holds.
    pub fn len(&self) -> usize
        ensures { result ≡ length (held_by self.now) }
    {
        self.held().len()
    }

    pub fn is_empty(&self) -> bool
        ensures { result ≡ (length (held_by self.now) == 0) }
    {
        self.held == 0
    }

    pub fn is_full(&self) -> bool
        ensures { result ≡ (length (held_by self.now) == ROOM) }
    {
        self.held == ROOM
    }

    // Leaves so many bytes, where there are more.
    pub fn cut(&mut self, count: usize)
        ensures { held_by self.new ≡ take count (held_by self.old) }
    {
        self.held = self.held.min(count);
    }

    pub fn clear(&mut self)
        ensures { held_by self.new ≡ [] }
    {
        self.held = 0;
    }

    // Puts bytes in place of those from a place on. What falls past the end is not written.
    // Stays: by `iter_mut`, `skip` and `zip` it is no plainer: the same two places, behind three adapters.
    pub fn write_at(&mut self, at: usize, values: &[u8])
        ensures { held_by self.new ≡ sets (held_by self.old) at values.now }
    {
        let end = at.saturating_add(values.len()).min(self.held);
        for i in at..end {
            self.bytes[i] = values[i - at];
        }
    }

    // Adds a byte behind.
    pub fn push(&mut self, b: u8)
        ensures { held_by self.new ≡ added ROOM (held_by self.old) (b ∷ []) }
    {
        let has_room = self.held < ROOM;
        if has_room {
            self.bytes[self.held] = b;
            self.held += 1;
        }
    }

    // Adds bytes behind.
    pub fn add(&mut self, values: &[u8])
        ensures { held_by self.new ≡ added ROOM (held_by self.old) values.now }
    {
        for b in values {
            self.push(*b);
        }
    }

    pub fn byte(mut self, b: u8) -> Self
        ensures { held_by result ≡ added ROOM (held_by self.entry) (b ∷ []) }
    {
        self.push(b);
        self
    }

    pub fn bytes(mut self, values: &[u8]) -> Self
        ensures { held_by result ≡ added ROOM (held_by self.entry) values.now }
    {
        self.add(values);
        self
    }

    // The same byte, so many times.
    pub fn repeated(mut self, b: u8, count: usize) -> Self {
        for _ in 0..count {
            self = self.byte(b);
        }
        self
    }

    pub fn spaces(self, count: usize) -> Self {
        self.repeated(b' ', count)
    }

    pub fn number(mut self, n: u64) -> Self {
        let _ = write!(self, "{n}");
        self
    }

    // A number, with spaces before it up to a width.
    pub fn number_to(mut self, n: u64, columns: usize) -> Self {
        let _ = write!(self, "{n:columns$}");
        self
    }

    pub fn signed(mut self, z: i32) -> Self {
        let _ = write!(self, "{z}");
        self
    }

    // A byte in two hexadecimal digits.
    pub fn hex(mut self, b: u8) -> Self {
        let _ = write!(self, "{b:02x}");
        self
    }

    // The lower bytes of a number, the lowest first.
    // Stays: a field of more than eight bytes has zeros behind, for whoever asks for one, and `to_le_bytes` has eight bytes: both would be joined and cut.
    pub fn field(mut self, n: u64, width: usize) -> Self {
        let mut rest = n;
        for _ in 0..width {
            self = self.byte((rest % 256) as u8);
            rest /= 256;
        }
        self
    }

    pub fn end(self) -> Self
        ensures { held_by result ≡ added ROOM (held_by self.entry) (10 ∷ []) }
    {
        self.byte(b'\n')
    }

    // Adds what it holds to another.
    pub fn onto<const MORE: usize>(&self, page: &mut Text<MORE>)
        ensures { held_by page.new ≡ added MORE (held_by page.old) (held_by self.now) }
    {
        page.add(self.held());
    }
}

// What is printed is added behind, and never fails.
impl<const ROOM: usize> Write for Text<ROOM> {
    ghost write_str_gives = { λ old printed new. held_by new ≡ added ROOM (held_by old) printed };

    fn write_str(&mut self, s: &str) -> fmt::Result {
        self.add(s.as_bytes());
        Ok(())
    }
}
