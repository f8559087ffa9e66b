// Files that are written, whole or not at all. What must not be replaced is tested before anything is read: a link is followed and stays,
// only a plain file is replaced, and, unless that is asked for, only one of the kind that is written; a text or a list, which no byte tells, replaces none.
ghost use Rattle.std.specs.Prelude.{◌<◌, ◌≤◌, ◌↔◌, IsTrue};

use crate::uses::Wrong;
use crate::{Done, Facts, commands, files, given, paths, seen};
use parts::{Line, Page};
use std::fs::{File, OpenOptions, Permissions};
use std::io::Write;
use std::os::unix::fs::{PermissionsExt, fchown};
use std::{fs, io};
use words::Part;

// What a file that is written holds; a text or a list is told by no byte.
#[derive(Clone, Copy)]
pub enum Kind {
    Image,
    Records,
    Events,
    Unknown,
}

// A file that is to be written: its name, what it will hold, whether it may take the place of any plain file, and the two at most that are read.
#[derive(Clone, Copy)]
pub struct Output<'a> {
    pub path: &'a [u8],
    kind: Kind,
    force: bool,
    sources: [&'a [u8]; 2],
}

// The system's number for a name that is taken.
const TAKEN: i32 = 17;

// How many names are tried for a file that is being written.
const MOST_PARTS: u16 = 65535;

// The most bytes that are put behind a name, and the longest name that they can be put behind.
const MOST_BEHIND: usize = 10;

const LONGEST_BASE: usize = 245;

impl Kind {
    // Whether bytes are of the kind, or there are none.
    fn is_of(self, bytes: &[u8]) -> bool {
        if bytes.is_empty() {
            return true;
        }
        match self {
            Kind::Image => bench::check(bytes).number == 0,
            Kind::Records => telling::given::are_entries(bytes),
            Kind::Events => given::are_events(bytes),
            Kind::Unknown => false,
        }
    }

    // What is wrong with a file that holds something else.
    fn missed(self) -> Wrong {
        match self {
            Kind::Image => Wrong::NoImage,
            Kind::Records => Wrong::NoRecords,
            Kind::Events => Wrong::NoEvents,
            Kind::Unknown => Wrong::IsThere,
        }
    }
}

impl<'a> Output<'a> {
    pub fn of(path: &'a [u8], kind: Kind, force: bool, sources: [&'a [u8]; 2]) -> Output<'a> {
        Output {
            path,
            kind,
            force,
            sources,
        }
    }

    // Whether the file may be written; else it is told. No name means none.
    pub fn may_replace(self, rt: &HostRuntime) -> Done {
        if self.path.is_empty() | paths::is_dash(self.path) {
            return Ok(());
        }
        match seen::look_at(rt, self.path) {
            Ok(there) => self.may_replace_there(rt, there),
            Err(error) => self.is_new(rt, &error),
        }
    }

    // Whether there is nothing yet; another reason why nothing is seen is told, and so is a name that was meant as an option.
    fn is_new(self, rt: &HostRuntime, error: &io::Error) -> Done {
        if error.kind() != io::ErrorKind::NotFound {
            return Err(files::trouble(rt, self.path, error));
        }
        if paths::is_dashed(self.path) {
            return Err(files::complain(rt, self.path, Wrong::NoOption));
        }
        Ok(())
    }

    // The same of a file that is there.
    fn may_replace_there(self, rt: &HostRuntime, there: Facts) -> Done {
        match self.objection(rt, there) {
            Some(wrong) => Err(files::complain(rt, self.path, wrong)),
            None => self.may_write(rt),
        }
    }

    // What speaks against replacing what is there.
    fn objection(self, rt: &HostRuntime, there: Facts) -> Option<Wrong> {
        if self.is_read(rt, there) {
            return Some(Wrong::IsRead);
        }
        if !there.plain {
            return Some(Wrong::NotPlain);
        }
        if self.force || self.holds(rt) {
            return None;
        }
        Some(self.kind.missed())
    }

    // Whether it is one of those that are read.
    fn is_read(self, rt: &HostRuntime, there: Facts) -> bool {
        let [first, second] = self.sources;
        seen::same(there, files::look(rt, first)) | seen::same(there, files::look(rt, second))
    }

    // Whether a plain file holds what is of the kind. One that cannot be read does not, and none holds what no byte tells.
    fn holds(self, rt: &HostRuntime) -> bool {
        if matches!(self.kind, Kind::Unknown) {
            return false;
        }
        let mut room = [0u8; given::ROOM];
        match read(rt, self.path, &mut room) {
            Ok(length) => self.kind.is_of(parts::front(&room, length)),
            Err(_) => false,
        }
    }

    // Whether this user may write a plain file; else it is told.
    fn may_write(self, rt: &HostRuntime) -> Done {
        match open_update(rt, self.path) {
            Ok(_) => Ok(()),
            Err(error) => Err(files::trouble(rt, self.path, &error)),
        }
    }
}

fn read(rt: &HostRuntime, path: &[u8], room: &mut [u8]) -> io::Result<usize> {
    files::fill(&mut files::open(rt, path)?, room)
}

// Opens a file that is there, to be read and written.
fn open_update(rt: &HostRuntime, path: &[u8]) -> io::Result<File> {
    OpenOptions::new()
        .read(true)
        .write(true)
        .open(rt, paths::text(path)?)
}

// Whether a byte continues a character.
fn continues(b: u8) -> bool
    ensures { IsTrue result ↔ (128 ≤ b) × (b < 192) }
{
    (0x80 <= b) & (b < 0xc0)
}

// The front of a path, of so many bytes, or up to three fewer so that no character is cut in two: the path stays UTF-8.
fn whole_characters<'a>(path: &'a [u8], count: usize) -> &'a [u8] {
    let mut held = count;
    for _ in 0..3 {
        if continues(parts::byte(path, held)) {
            held = held.saturating_sub(1);
        }
    }
    parts::front(path, held)
}

// A path whose last name is so short that the most can be put behind it.
fn cut<'a>(path: &'a [u8]) -> &'a [u8] {
    let name = parts::back(path, paths::folder_length(path));
    if name.len() <= LONGEST_BASE {
        return path;
    }
    if path.len() < MOST_BEHIND {
        return path;
    }
    whole_characters(path, path.len() - MOST_BEHIND)
}

// The name of a new file: `.part` and a number behind the one that is meant.
fn put_part_name(page: &mut Page, path: &[u8], k: u16) {
    page.clear();
    page.add(cut(path));
    telling::part_number(Line::empty(), Part::Unfinished, k as u64).onto(page);
}

// Makes a file, where its name is not taken.
fn create(rt: &HostRuntime, path: &[u8]) -> io::Result<File> {
    OpenOptions::new()
        .write(true)
        .create_new(true)
        .open(rt, paths::text(path)?)
}

// Makes one beside the file that is meant, with its name on a page. The first of its names that is taken is told.
fn make_part(rt: &HostRuntime, path: &[u8], page: &mut Page) -> io::Result<File> {
    for k in 0..MOST_PARTS {
        put_part_name(page, path, k);
        match create(rt, page.held()) {
            Ok(file) => return Ok(file),
            Err(error) => {
                if error.kind() != io::ErrorKind::AlreadyExists {
                    return Err(error);
                }
            }
        }
        if k == 0 {
            files::complain(rt, page.held(), Wrong::LeftOver);
        }
    }
    Err(io::Error::from_raw_os_error(TAKEN))
}

// Gives a new file the permissions of the one that it will replace, and its owner where the system lets that be.
fn liken(file: &File, there: io::Result<Facts>) -> io::Result<()> {
    let Ok(there) = there else {
        return Ok(());
    };
    let _ = fchown(file, Some(there.owner), Some(there.group));
    file.set_permissions(Permissions::from_mode(there.mode))
}

// The bytes reach the file, and it is closed.
fn store(mut file: File, bytes: &[u8], there: io::Result<Facts>) -> io::Result<()> {
    file.write_all(bytes)?;
    liken(&file, there)?;
    file.sync_all()
}

// The bytes reach the file of a name, which takes the place of the one that is meant.
fn put_in_place(
    rt: &HostRuntime,
    file: File,
    part: &[u8],
    path: &[u8],
    bytes: &[u8],
) -> io::Result<()> {
    store(file, bytes, seen::look_at(rt, path))?;
    fs::rename(rt, paths::text(part)?, paths::text(path)?)
}

// Removes a file that came to nothing. Where that fails it stays, and the next run tells it.
fn remove(rt: &HostRuntime, part: &[u8]) {
    if let Ok(text) = paths::text(part) {
        let _ = fs::remove_file(rt, text);
    }
}

// Puts a file that is being written in the place of the one that is meant. Where that fails it is told, and what was there stays.
fn replace(rt: &HostRuntime, file: File, part: &[u8], path: &[u8], bytes: &[u8]) -> Done {
    match put_in_place(rt, file, part, path, bytes) {
        Ok(()) => Ok(()),
        Err(error) => {
            let failure = files::trouble(rt, path, &error);
            remove(rt, part);
            Err(failure)
        }
    }
}

// Writes a file whole: under another name in the same folder first, which then takes the place of what was there.
fn write_whole(rt: &HostRuntime, path: &[u8], bytes: &[u8]) -> Done {
    let mut part = Page::empty();
    match make_part(rt, path, &mut part) {
        Ok(file) => replace(rt, file, part.held(), path, bytes),
        Err(error) => Err(files::trouble(rt, path, &error)),
    }
}

// Writes the file behind a name and its links, or standard output for `-`; nothing where no file is named.
pub fn write(rt: &HostRuntime, path: &[u8], bytes: &[u8]) -> Done {
    if path.is_empty() {
        return Ok(());
    }
    if paths::is_dash(path) {
        return commands::done(rt, bytes);
    }
    match paths::behind_links(rt, path) {
        Ok(target) => write_whole(rt, target.held(), bytes),
        Err(error) => Err(files::trouble(rt, path, &error)),
    }
}
