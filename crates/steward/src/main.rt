// The morning's answer in words, by the edition that is asked for: good, with what the delivery holds; or the first fault, its place, its meaning and the
// line that it stands on.
#![tactic(auto)]

use editions::Edition;
use fault_mark::Mark;
use files::{Delivery, ROOM};
use phrases::{Dino, NO_EDITION};
use refusals::Place;
use rows::{NO_ROW, Row};
use std::rt::Files;
use std::{fmt, io, str};
use tables::{BOOK_ROWS, COLUMN_ROOM, Rules, Table};

// Room for the longest row and, behind it, the mark of an empty last cell. Of one that is too long only so much is shown: by 2.3 a quote that is not
// closed makes a row of all the rest of a text.
const LINE_ROOM: usize = lines::MOST_LINE + 1;

// A count and its word, as in `2 depots`.
#[derive(Clone, Copy)]
struct Counted(usize, &'static str);

impl fmt::Display for Counted {
    fn fmt<W: fmt::Write>(&self, f: &mut fmt::Formatter<W>) -> fmt::Result {
        let n = self.0;
        let thing = self.1;
        let ending = if n == 1 { "" } else { "s" };
        write!(f, "{n} {thing}{ending}")
    }
}

// The rows that a table has. (An accepted delivery leaves a book that keeps the book rule; it is tested for it, since counting asks for it.)
fn rows_in(book: &[Row], t: Table, thing: &'static str) -> Counted {
    if keeping::keeps_rule(book) {
        return Counted(book::count_rows(book, t), thing);
    }
    Counted(0, thing)
}

fn good(rt: &impl Print, edition: Edition, book: &[Row]) -> io::Result<()> {
    println!(rt;
        "good by {}: {}, {}, {}, {}, {}, {}",
        Dino(edition),
        rows_in(book, Table::VehicleType, "vehicle type"),
        rows_in(book, Table::Depot, "depot"),
        rows_in(book, Table::Stop, "stop"),
        rows_in(book, Table::StopPoint, "stop point"),
        rows_in(book, Table::Block, "vehicle block"),
        rows_in(book, Table::Calendar, "calendar day")
    )
}

// The table whose text, columns and room a place speaks of.
fn table_of(p: Place) -> Table {
    Table::numbered(p.table).unwrap_or(Table::Block)
}

fn table_name(p: Place) -> &'static str {
    match Table::numbered(p.table) {
        Some(Table::VehicleType) => "vehicle_type",
        Some(Table::Depot) => "depot",
        Some(Table::Stop) => "stop",
        Some(Table::StopPoint) => "stop_point",
        Some(Table::Block) => "vehicle_block",
        Some(Table::Calendar) => "day_type_calendar",
        None => "the book",
    }
}

// A header of all names of a table's columns. Those of vehicle_type by 2.3 begin with those by 2.1.
fn all_names(t: Table) -> &'static [u8] {
    match t {
        Table::VehicleType => &column_names::VEHICLE_TYPE_NAMES_23,
        Table::Depot => &column_names::DEPOT_NAMES,
        Table::Stop => &column_names::STOP_NAMES,
        Table::StopPoint => &column_names::STOP_POINT_NAMES,
        Table::Block => &column_names::BLOCK_NAMES,
        Table::Calendar => &column_names::CALENDAR_NAMES,
    }
}

// The name of the place's column, which is the cell of its number in that header.
fn column_name(p: Place) -> &'static str {
    str::from_utf8(fault_mark::cell_numbered(all_names(table_of(p)), p.column)).unwrap_or("")
}

// What the cells of the place's column must keep to. (A fault of a cell names a column of its table; that there is one of this number is tested, since
// looking it up asks for it.)
fn rules_of(edition: Edition, p: Place) -> Rules {
    let columns = table_of(p).column_rules(edition);
    let k = (p.column as usize).saturating_sub(1);
    tables::rules_at(&columns, if k < COLUMN_ROOM { k } else { 0 })
}

// Where a fault is: `depot, line 3`, and behind it `, cell 2` or `, column 6 (DEP_STOP_NR)` where there is one.
#[derive(Clone, Copy)]
struct Spot(Place);

impl fmt::Display for Spot {
    fn fmt<W: fmt::Write>(&self, f: &mut fmt::Formatter<W>) -> fmt::Result {
        let p = self.0;
        f.write_str(table_name(p))?;
        if p.line != 0 {
            write!(f, ", line {}", p.line)?;
        }
        if p.column == 0 {
            return Ok(());
        }
        if p.number == Place::QUOTE_FAULT {
            return write!(f, ", cell {}", p.column);
        }
        write!(f, ", column {} ({})", p.column, column_name(p))
    }
}

// What a refusal means, for a person.
#[derive(Clone, Copy)]
struct Meaning {
    edition: Edition,
    place: Place,
}

// A block's points, at columns 7 and 10, are sought by their stop too.
fn unknown_row(column: u64) -> &'static str {
    match column {
        7 | 10 => "this point, with its version and its stop, is in no row of stop_point",
        _ => "this number, with its version, is in no row of the table that it refers to",
    }
}

// What the number of a refusal means, where it says all.
fn words_of(p: Place) -> &'static str {
    match p.number {
        Place::TEXT_TOO_LONG => "the file has more than 65,536 bytes",
        Place::COLUMN_MISSING => "this column is required and the header lacks it",
        Place::COLUMN_TWICE => "the header has this column twice",
        Place::TOO_MANY_CELLS => "the header has more than 32 cells",
        Place::QUOTE_FAULT => "this cell is badly quoted, or holds a byte that no cell may hold",
        Place::CELL_COUNT => "this row has more or fewer cells than the header",
        Place::NOT_DIGITS => "this cell is not digits",
        Place::KEY_STANDS => "the key of this row stands in an earlier row",
        Place::NO_ROW => unknown_row(p.column),
        Place::ENDS_EARLY => {
            "the block ends before it begins, and one of its two times is 86,400 or more"
        }
        Place::LINE_TOO_LONG => "this row has more than 2,048 bytes",
        Place::LENGTH_DIFFERS => "the table came with more or fewer bytes than were announced",
        Place::CELL_EMPTY => "this cell is empty and its column is required",
        _ => "the book was lent at another length",
    }
}

impl fmt::Display for Meaning {
    fn fmt<W: fmt::Write>(&self, f: &mut fmt::Formatter<W>) -> fmt::Result {
        let p = self.place;
        let rules = rules_of(self.edition, p);
        match p.number {
            Place::TOO_MANY_ROWS => write!(
                f,
                "the table has more than {} rows; this is the first too many",
                table_of(p).room()
            ),
            Place::CELL_TOO_LONG => write!(
                f,
                "this cell has more than {}, the width of its column",
                Counted(rules.width, "byte")
            ),
            Place::OUT_OF_RANGE if rules.date => {
                f.write_str("this day is no date, YYYYMMDD, of the years 1600 to 9999")
            }
            Place::OUT_OF_RANGE => write!(
                f,
                "this number is not in its column's range, {} to {}",
                rules.low, rules.high
            ),
            _ => f.write_str(words_of(p)),
        }
    }
}

// A byte as a screen can show it, one character for one byte, so that the mark stands under its cell. A row is shown on one line: `|` is a break in it.
fn legible(byte: u8) -> u8 {
    match byte {
        b'\n' => b'|',
        0..=31 | 127 => b'?',
        _ => byte,
    }
}

// The line from one place of a text to another.
fn show(rt: &impl Print, text: &[u8], start: usize, end: usize) -> io::Result<()> {
    let Some(size) = end.checked_sub(start) else {
        return Ok(());
    };
    let line = files::text(text, start, size);
    let mut out = [0u8; LINE_ROOM];
    for (shown, byte) in out.iter_mut().zip(line) {
        *shown = legible(*byte);
    }
    rt.write_all(files::text(&out, 0, line.len()))?;
    println!(rt)
}

// Blanks, and a mark from one place to another, of one byte at the least, so that an empty cell has its mark.
fn underline(rt: &impl Print, from: usize, to: usize) -> io::Result<()> {
    let mut out = [b' '; LINE_ROOM];
    if let Some(mark) = out.get_mut(from..) {
        mark.fill(b'^');
    }
    let end = to.max(from.saturating_add(1));
    rt.write_all(files::text(&out, 0, end))?;
    println!(rt)
}

// The line of the fault, if its file has it, and the mark under the cell.
fn offence(rt: &impl Print, edition: Edition, text: &[u8], p: Place) -> io::Result<()> {
    match fault_mark::marked(edition, text, p) {
        Mark::Nothing => Ok(()),
        Mark::Line { start, end } => show(rt, text, start, end),
        Mark::Cell {
            start,
            end,
            from,
            to,
        } => {
            show(rt, text, start, end)?;
            underline(rt, from, to)
        }
    }
}

fn fault(rt: &impl Print, edition: Edition, p: Place, texts: &Delivery) -> io::Result<()> {
    println!(rt;
        "fault by {}: {}, refusal {}: {}",
        Dino(edition),
        Spot(p),
        p.number,
        Meaning { edition, place: p }
    )?;
    offence(rt, edition, texts.text(table_of(p)), p)
}

// Reads the delivery by an edition, which is that of the number, and says what came of it.
fn answer(rt: &impl Print, number: u64, edition: Edition, texts: &Delivery) -> io::Result<()> {
    let mut book = [NO_ROW; BOOK_ROWS];
    let verdict = delivery::read(
        number,
        texts.types,
        texts.depots,
        texts.stops,
        texts.points,
        texts.blocks,
        texts.days,
        &mut book,
    );
    match verdict {
        Ok(()) => good(rt, edition, &book),
        Err(p) => fault(rt, edition, p, texts),
    }
}

fn morning(rt: &(impl Files + Print + Eprint), number: u64, edition: Edition) -> io::Result<()> {
    let mut room = [0u8; ROOM];
    let texts = files::load_delivery(rt, &mut room, true);
    answer(rt, number, edition, &texts)
}

// An unknown edition is refused before anything is read.
fn main(rt: HostRuntime) -> io::Result<()> {
    let number = options::edition_asked(&rt);
    match Edition::numbered(number) {
        Some(edition) => morning(&rt, number, edition),
        None => println!(rt; "fault: refusal {}: {NO_EDITION}", Place::UNKNOWN_EDITION),
    }
}
