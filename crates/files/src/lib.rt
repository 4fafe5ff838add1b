// The files of the working folder, loaded into one room that the caller lends.
#![tactic(auto)]

ghost use Rattle.std.specs.Prelude.{◌≡◌, ◌≤◌, length};
ghost use Rattle.files.specs.Texts.{Roomy, text_at, text_of, text_room};

use std::fs::File;
use std::io::{Cursor, ErrorKind, Read, Write};
use std::rt::Files;
use std::{io, str};
use tables::Table;

// The texts of a delivery's tables.
#[derive(Clone, Copy)]
pub struct Delivery<'a> {
    pub types: &'a [u8],
    pub depots: &'a [u8],
    pub stops: &'a [u8],
    pub points: &'a [u8],
    pub blocks: &'a [u8],
    pub days: &'a [u8],
}

// Room for a text: one byte more than it may have, so that one that is too long is told.
pub const TEXT_ROOM: usize = lines::MOST_BYTES + 1;

// Room for the six texts of a delivery.
pub const ROOM: usize = 6 * TEXT_ROOM;

// Room for the words that say why a file cannot be opened.
const REASON_ROOM: usize = 512;

impl<'a> Delivery<'a> {
    // The text of a table.
    pub fn text(&self, t: Table) -> &'a [u8]
        ensures { result.now ≡ text_of self.now t }
    {
        match t {
            Table::VehicleType => self.types,
            Table::Depot => self.depots,
            Table::Stop => self.stops,
            Table::StopPoint => self.points,
            Table::Block => self.blocks,
            Table::Calendar => self.days,
        }
    }
}

// A path is text.
fn open<R: Files>(rt: &R, path: &[u8]) -> io::Result<R::File> {
    match str::from_utf8(path) {
        Ok(path) => File::open(rt, path),
        Err(_) => Err(io::Error::new(ErrorKind::InvalidFilename, "the name is not UTF-8")),
    }
}

// What an open file holds, at the head of the buffer: as much as the buffer takes. One that cannot be read counts as empty.
fn take<'a>(file: &mut impl Read, buffer: &'a mut [u8]) -> &'a [u8]
    ensures { length result.now ≤ length buffer.old }
{
    let mut done = 0;
    'parts: while done < buffer.len() {
        match file.read(&mut buffer[done..]) {
            Ok(0) | Err(_) => break,
            Ok(n) => done += n,
        }
    }
    &buffer[..done]
}

// What a file holds; one that cannot be opened counts as empty.
pub fn load<'a>(rt: &impl Files, path: &[u8], buffer: &'a mut [u8]) -> &'a [u8]
    ensures { length result.now ≤ length buffer.old }
{
    match open(rt, path) {
        Ok(mut file) => take(&mut file, buffer),
        Err(_) => &[],
    }
}

// A line on standard error: the name of a file, a colon and why it cannot be opened, in the system's words without their number.
fn tell(rt: &impl Eprint, path: &[u8], error: &io::Error) -> io::Result<()> {
    let mut reason = Cursor::new([0u8; REASON_ROOM]);
    write!(reason, "{error}")?;
    let told = str::from_utf8(reason.get_ref()).unwrap_or("");
    let name = str::from_utf8(path).unwrap_or("a file");
    match told.split_once(" (os error ") {
        Some((words, _)) => eprintln!(rt; "{name}: {words}"),
        None => eprintln!(rt; "{name}: {}", told.trim_end_matches('\0')),
    }
}

// The same, and one that cannot be opened is told on standard error.
pub fn load_or_tell<'a>(rt: &(impl Files + Eprint), path: &[u8], buffer: &'a mut [u8]) -> &'a [u8]
    ensures { length result.now ≤ length buffer.old }
{
    match open(rt, path) {
        Ok(mut file) => take(&mut file, buffer),
        Err(error) => {
            let _ = tell(rt, path, &error);
            &[]
        }
    }
}

// A file in the next part of the room, if there is one, and the room behind it.
fn load_next<'a>(
    rt: &(impl Files + Eprint),
    path: &[u8],
    room: &'a mut [u8],
    tell: bool,
) -> (&'a [u8], &'a mut [u8])
    ensures { length result.0.now ≤ text_room }
{
    if room.len() < TEXT_ROOM {
        return (&[], room);
    }
    let (part, behind) = room.split_at_mut(TEXT_ROOM);
    if tell {
        (load_or_tell(rt, path, part), behind)
    } else {
        (load(rt, path, part), behind)
    }
}

// The six tables of a delivery; a file that cannot be opened counts as empty, and is told on standard error where this is asked for.
pub fn load_delivery<'a>(rt: &(impl Files + Eprint), room: &'a mut [u8], tell: bool) -> Delivery<'a>
    ensures { Roomy result }
{
    let (types, room) = load_next(rt, b"vehicle_type.din", room, tell);
    let (depots, room) = load_next(rt, b"depot.din", room, tell);
    let (stops, room) = load_next(rt, b"stop.din", room, tell);
    let (points, room) = load_next(rt, b"stop_point.din", room, tell);
    let (blocks, room) = load_next(rt, b"vehicle_block.din", room, tell);
    let (days, _) = load_next(rt, b"day_type_calendar.din", room, tell);
    Delivery {
        types,
        depots,
        stops,
        points,
        blocks,
        days,
    }
}

// The day's slip.
pub fn load_slip<'a>(rt: &(impl Files + Eprint), room: &'a mut [u8]) -> &'a [u8]
    ensures { length result.now ≤ text_room }
{
    let (slip, _) = load_next(rt, b"slip.txt", room, false);
    slip
}

// So many bytes of the room from a place on.
pub fn text(room: &[u8], from: usize, size: usize) -> &[u8]
    ensures { result.now ≡ text_at from size room.now }
{
    let behind = room.get(from..).unwrap_or(&[]);
    behind.get(..size).unwrap_or(behind)
}
