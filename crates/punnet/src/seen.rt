// What the system knows of a file.
ghost use Rattle.std.specs.Prelude.{◌≡◌, ◌↔◌, IsTrue, IsOkAnd};

use crate::{Facts, paths};
use std::fs::Metadata;
use std::os::unix::fs::MetadataExt;
use std::{fs, io};

// Permissions are below this; the kind of a file is above.
const KIND: u32 = 4096;

// The same file, by whatever names. Where nothing is seen by the second name, it is no file.
// Stays: this clause and the edit `same_by_either` tell the device from the number, and the other facts do not count; a derive compares all.
pub fn same(a: Facts, b: io::Result<Facts>) -> bool
    ensures { IsTrue result ↔ IsOkAnd b (λ seen. (a.device ≡ seen.device) × (a.number ≡ seen.number)) }
{
    match b {
        Ok(b) => (a.device == b.device) & (a.number == b.number),
        Err(_) => false,
    }
}

fn told(found: &Metadata) -> Facts {
    Facts {
        plain: found.is_file(),
        mode: found.mode() % KIND,
        owner: found.uid(),
        group: found.gid(),
        device: found.dev(),
        number: found.ino(),
    }
}

// What the system says of the file with this path, links followed; or why it sees none.
pub fn look_at(rt: &HostRuntime, path: &[u8]) -> io::Result<Facts> {
    let found = fs::metadata(rt, paths::text(path)?)?;
    Ok(told(&found))
}
