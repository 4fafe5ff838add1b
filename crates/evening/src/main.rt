// The corrected vehicle_block table of the working folder: the delivery, by the edition that is asked for, with the day's slip applied; or the first fault
// and no table.
#![tactic(auto)]

use editions::Edition;
use lines::MOST_BYTES;
use phrases::{Dino, NO_EDITION, Refusal};
use rows::{NO_ROW, ROWS};
use std::io;
use tables::BOOK_ROWS;

// The edition goes to standard error, since standard output is the table and nothing else.
fn tell_edition(rt: &impl Eprint, number: u64) -> io::Result<()> {
    match Edition::numbered(number) {
        Some(edition) => eprintln!(rt; "evening: by {}", Dino(edition)),
        None => eprintln!(rt; "evening: {NO_EDITION}"),
    }
}

fn main(rt: HostRuntime) -> io::Result<()> {
    let edition = options::edition_asked(&rt);
    tell_edition(&rt, edition)?;
    let mut book = [NO_ROW; BOOK_ROWS];
    let mut work = [NO_ROW; ROWS];
    match folder::day(&rt, edition, &mut book, &mut work) {
        Ok(()) => {
            // As much as a text may have: more than 512 blocks of full width take.
            let mut out = [0u8; MOST_BYTES];
            let written = writer::write(&book, &mut out);
            rt.write_all(files::text(&out, 0, written.size))
        }
        Err(p) => rt.println(Refusal(p)),
    }
}
