// A delivery read: the tables in their order.
#![tactic(auto)]

ghost use Rattle.std.specs.Prelude.{◌≡◌, length};
ghost use Rattle.tables.specs.Parts.{book_rows};
ghost use Rattle.book.specs.Holding.{Sound, result_of};
ghost use Rattle.book.specs.Result.{◌▹◌};
ghost use Rattle.book.specs.Book.{empty_by};
ghost use Rattle.book.specs.Room.{book_of};
ghost use Rattle.rules.specs.Points.{NamedIn};
ghost use Rattle.table_reading.specs.Reading.{table_read};
ghost use Rattle.delivery.specs.Delivery.{reading};
ghost use Rattle.delivery.specs.Calls.{delivery, outcome, read_outcome, ReadPermits};

use editions::Edition;
use refusals::{Fault, Place, Verdict};
use rows::Row;
use tables::{BOOK_ROWS, Table};

// The next table, where the earlier ones were accepted.
fn then_table(earlier: Verdict, bytes: &[u8], t: Table, book: &mut [Row]) -> Verdict
    requires { Sound book.old × NamedIn (result_of earlier book.old) }
    ensures { Sound book.new × (result_of result book.new ≡ result_of earlier book.old ▹ table_read t bytes.now) × NamedIn (result_of result book.new) }
{
    earlier?;
    table_reading::take_table(bytes, t, book)
}

// The tables in their order, on a book without rows, by its edition.
fn take_tables(
    types: &[u8],
    depots: &[u8],
    stops: &[u8],
    points: &[u8],
    blocks: &[u8],
    days: &[u8],
    book: &mut [Row],
) -> Verdict
    requires { Sound book.old × (book_of book.old ≡ empty_by (book_of book.old).edition) }
    ensures { Sound book.new × (result_of result book.new ≡ reading (book_of book.old).edition (delivery types.now depots.now stops.now points.now blocks.now days.now)) }
{
    let a = table_reading::take_table(types, Table::VehicleType, book);
    let b = then_table(a, depots, Table::Depot, book);
    let c = then_table(b, stops, Table::Stop, book);
    let d = then_table(c, points, Table::StopPoint, book);
    let e = then_table(d, blocks, Table::Block, book);
    then_table(e, days, Table::Calendar, book)
}

// The reading by an edition, with a book of its size.
fn read_by(
    edition: Edition,
    types: &[u8],
    depots: &[u8],
    stops: &[u8],
    points: &[u8],
    blocks: &[u8],
    days: &[u8],
    book: &mut [Row],
) -> Verdict
    requires { length book.old ≡ book_rows }
    ensures { outcome result book.new ≡ read_outcome (reading edition (delivery types.now depots.now stops.now points.now blocks.now days.now)) }
{
    book::begin(book, edition);
    let verdict = take_tables(types, depots, stops, points, blocks, days, book);
    match verdict {
        Ok(()) => Ok(()),
        Err(p) => {
            book::clear(book);
            Err(p)
        }
    }
}

// The reading of a delivery: its verdict, and the book that it leaves.
pub fn read(
    edition: u64,
    vehicle_type: &[u8],
    depot: &[u8],
    stop: &[u8],
    stop_point: &[u8],
    vehicle_block: &[u8],
    day_type_calendar: &[u8],
    book: &mut [Row],
) -> Verdict
    ensures { ReadPermits edition (delivery vehicle_type.now depot.now stop.now stop_point.now vehicle_block.now day_type_calendar.now) book.old (outcome result book.new) }
{
    if book.len() != BOOK_ROWS {
        return Err(Fault::bad_loan().on(Place::NO_TABLE, Place::NO_LINE));
    }
    match Edition::numbered(edition) {
        Some(e) => read_by(
            e,
            vehicle_type,
            depot,
            stop,
            stop_point,
            vehicle_block,
            day_type_calendar,
            book,
        ),
        None => {
            book::clear(book);
            Err(Fault::unknown_edition().on(Place::NO_TABLE, Place::NO_LINE))
        }
    }
}
