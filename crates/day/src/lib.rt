// A delivery and then the day's slip.
#![tactic(auto)]

ghost use Rattle.std.specs.Prelude.{◌≡◌};
ghost use Rattle.delivery.specs.Calls.{delivery};
ghost use Rattle.slips.specs.Calls.{outcome};
ghost use Rattle.day.specs.Calls.{emptied, DayPermits};

use refusals::{Fault, Place, Verdict};
use rows::{ROWS, Row};
use tables::BOOK_ROWS;

// A book ends empty, where it has a book's length.
fn empty_book(book: &mut [Row])
    ensures { book.new ≡ emptied book.old }
{
    if book.len() == BOOK_ROWS {
        book::clear(book);
    }
}

// A delivery and then the day's slip, which is judged only where the delivery is accepted.
pub fn day(
    edition: u64,
    vehicle_type: &[u8],
    depot: &[u8],
    stop: &[u8],
    stop_point: &[u8],
    vehicle_block: &[u8],
    day_type_calendar: &[u8],
    slip: &[u8],
    book: &mut [Row],
    work: &mut [Row],
) -> Verdict
    ensures { DayPermits edition (delivery vehicle_type.now depot.now stop.now stop_point.now vehicle_block.now day_type_calendar.now) slip.now book.old work.old (outcome result book.new work.new) }
{
    if work.len() != ROWS {
        empty_book(book);
        return Err(Fault::bad_loan().on(Place::NO_TABLE, Place::NO_LINE));
    }
    match delivery::read(
        edition,
        vehicle_type,
        depot,
        stop,
        stop_point,
        vehicle_block,
        day_type_calendar,
        book,
    ) {
        Ok(()) => slips::slip(slip, book, work),
        Err(place) => {
            rows::clear(work);
            Err(place)
        }
    }
}
