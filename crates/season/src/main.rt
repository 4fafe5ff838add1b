// What each vehicle type runs from a first day to a last one: the delivery of the working folder, by the edition that is asked for, with the day's slip
// applied; or the first fault.
#![tactic(auto)]

use phrases::Refusal;
use refusals::{Fault, Place};
use rows::{NO_ROW, ROWS, Row};
use std::io;
use tables::{BOOK_ROWS, Table};

// The arguments behind an edition: the first day and the last.
const DAYS_ASKED: usize = 2;

// What is wrong with an end of the span, in words.
fn tell_day(rt: &impl Eprint, day: u64, which: &str) -> io::Result<()> {
    if dates::is_date(day) {
        return Ok(());
    }
    eprintln!(rt; "season: {which} is no date, YYYYMMDD, of the years 1600 to 9999")
}

// One line a type by rising key: version, number, seconds in the span. (An accepted delivery and slip leave a book that keeps the book rule; it is
// tested for it, since the question asks for it.)
fn tell_types(rt: &impl Print, book: &[Row], first: u64, last: u64) -> io::Result<()> {
    if !keeping::keeps_rule(book) {
        return Ok(());
    }
    for row in book::rows_of(book, Table::VehicleType) {
        let [version, number, ..] = *row;
        let seconds = seasons::season_of(book, version, number, first, last);
        println!(rt; "T\t{version}\t{number}\t{seconds}")?;
    }
    Ok(())
}

// 23, or the types.
fn season(rt: &(impl Print + Eprint), book: &[Row], first: u64, last: u64) -> io::Result<()> {
    if dates::is_date(first) && dates::is_date(last) {
        return tell_types(rt, book, first, last);
    }
    tell_day(rt, first, "FIRST")?;
    tell_day(rt, last, "LAST")?;
    rt.println(Refusal(Fault::no_date().on(Place::NO_TABLE, Place::NO_LINE)))
}

fn main(rt: HostRuntime) -> io::Result<()> {
    let edition = options::edition_before(&rt, DAYS_ASKED);
    phrases::tell_no_edition(&rt, "season", edition)?;
    let mut book = [NO_ROW; BOOK_ROWS];
    let mut work = [NO_ROW; ROWS];
    match folder::day(&rt, edition, &mut book, &mut work) {
        Ok(()) => season(
            &rt,
            &book,
            options::day_asked(&rt, 2),
            options::day_asked(&rt, 1),
        ),
        Err(p) => rt.println(Refusal(p)),
    }
}
