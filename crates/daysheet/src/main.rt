// The day sheet of the working folder, by 2.1: running time per vehicle type, the day's slip applied; or the first fault.
#![tactic(auto)]

use editions::Edition;
use rows::{NO_ROW, ROWS};
use std::io;
use tables::BOOK_ROWS;

// Room for the longest sheet, `sheet_room` of the definitions: 512 T lines of at most 28 bytes, and the S line.
const SHEET_ROOM: usize = 16384;

fn main(rt: HostRuntime) -> io::Result<()> {
    let mut book = [NO_ROW; BOOK_ROWS];
    let mut work = [NO_ROW; ROWS];
    let verdict = folder::day(&rt, Edition::BY_21, &mut book, &mut work);
    let mut out = [0u8; SHEET_ROOM];
    let written = sheet::day_sheet(verdict, &book, &mut out);
    rt.write_all(files::text(&out, 0, written.size))
}
