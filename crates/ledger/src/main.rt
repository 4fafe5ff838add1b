// The hours of each vehicle type for the service ledger: the delivery of the working folder, by the edition that is asked for, with the day's slip
// applied; or the first fault.
#![tactic(auto)]

use phrases::Refusal;
use rows::{NO_ROW, ROWS, Row};
use std::{fmt, io};
use tables::{BOOK_ROWS, Table};

const SECONDS: u64 = 3600;

// Seconds as hours to three decimals, rounded down, by whole numbers.
#[derive(Clone, Copy)]
struct Decimals(u64);

impl fmt::Display for Decimals {
    fn fmt<W: fmt::Write>(&self, f: &mut fmt::Formatter<W>) -> fmt::Result {
        let hours = self.0 / SECONDS;
        let thousandths = self.0 % SECONDS * 1000 / SECONDS;
        write!(f, "{hours}.{thousandths:03}")
    }
}

// One line a type by rising key: version, number, the quotient, the clerk's sum, the hours. The two binary64 numbers are told by their bits: no decimal
// says them exactly in so few digits. (An accepted delivery and slip leave a book that keeps the book rule; it is tested for it, since counting asks
// for it.)
fn tell_types(rt: &impl Print, book: &[Row]) -> io::Result<()> {
    if !keeping::keeps_rule(book) {
        return Ok(());
    }
    for row in book::rows_of(book, Table::VehicleType) {
        let [version, number, ..] = *row;
        let found = hours::type_hours(book, version, number);
        let quotient = found.hours.to_bits();
        let summed = found.summed.to_bits();
        let hours = Decimals(questions::type_answer(book, version, number).seconds);
        println!(rt; "T\t{version}\t{number}\t{quotient:016x}\t{summed:016x}\t{hours}")?;
    }
    Ok(())
}

fn main(rt: HostRuntime) -> io::Result<()> {
    let edition = options::edition_asked(&rt);
    phrases::tell_no_edition(&rt, "ledger", edition)?;
    let mut book = [NO_ROW; BOOK_ROWS];
    let mut work = [NO_ROW; ROWS];
    match folder::day(&rt, edition, &mut book, &mut work) {
        Ok(()) => tell_types(&rt, &book),
        Err(p) => rt.println(Refusal(p)),
    }
}
