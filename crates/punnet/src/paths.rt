// Names of files, as the system takes them.
ghost use Rattle.std.specs.Prelude.{◌≡◌, ◌≤◌, ◌↔◌, ◌∷◌, [], length, IfOk, IsTrue};

use parts::Page;
use std::path::PathBuf;
use std::{fs, io, str};

// The system takes no longer path; with a 0 behind it, it fills this many bytes.
pub const PATH_MAX: usize = 4096;

// The system follows 40 links.
const MOST_LINKS: u8 = 41;

// A name that means standard input or output.
pub fn is_dash(path: &[u8]) -> bool
    ensures { IsTrue result ↔ (path.now ≡ 45 ∷ []) }
{
    matches!(path, [b'-'])
}

// A name that begins as an option does.
pub fn is_dashed(path: &[u8]) -> bool {
    matches!(path, [b'-', _, ..])
}

// How many bytes of a path lead to its folder, the last slash among them.
pub fn folder_length(path: &[u8]) -> usize
    ensures { result ≤ length path.now }
{
    match path.iter().rposition(|b| *b == b'/') {
        Some(slash) => slash + 1,
        None => 0,
    }
}

// A path as std takes it, which is UTF-8.
pub fn text<'a>(path: &'a [u8]) -> io::Result<&'a str>
    ensures { IfOk result (λ text. text.now ≡ path.now) }
{
    match str::from_utf8(path) {
        Ok(text) => Ok(text),
        Err(_) => Err(io::Error::from(io::ErrorKind::InvalidFilename)),
    }
}

// What a link says; nothing where the system says that it is none, or is too long. A link that std cannot tell is an error: taken for none, it
// would be replaced.
fn target(rt: &HostRuntime, path: &[u8]) -> io::Result<Option<PathBuf>> {
    match fs::read_link(rt, text(path)?) {
        Ok(target) => Ok(Some(target)),
        Err(error) => {
            if error.raw_os_error().is_some() {
                return Ok(None);
            }
            Err(error)
        }
    }
}

// Replaces the last name of the path on a page by what a link there says. A link that says nothing is none.
fn put_target(page: &mut Page, target: &[u8]) -> bool {
    match target {
        [] => return false,
        [b'/', ..] => page.clear(),
        _ => {
            let folder = folder_length(page.held());
            page.cut(folder);
        }
    }
    page.add(target);
    true
}

// Follows one link, and tells whether there was one.
fn follow(rt: &HostRuntime, page: &mut Page) -> io::Result<bool> {
    match target(rt, page.held())? {
        Some(target) => Ok(put_target(page, target.as_str().as_bytes())),
        None => Ok(false),
    }
}

// The path behind all links.
pub fn behind_links(rt: &HostRuntime, path: &[u8]) -> io::Result<Page> {
    let mut page = Page::empty().bytes(path);
    for _ in 0..MOST_LINKS {
        if !follow(rt, &mut page)? {
            break;
        }
    }
    Ok(page)
}
