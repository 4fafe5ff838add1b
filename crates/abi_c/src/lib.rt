// The library for C, as include/workshop.h says it: each export is the function of abi with its name, under the same contract.
#![tactic(auto)]

ghost use Rattle.std.specs.Prelude.{◌≡◌};
ghost use Rattle.delivery.specs.Calls.{delivery};
ghost use Rattle.radio.specs.Radio.{announce, part, close};
ghost use Rattle.radio.specs.Room.{radio_call, open_call};
ghost use Rattle.radio_rule.specs.Lent.{slices};
ghost use Rattle.abi.specs.Calls.{ReadPermits, SlipPermits, CellPermits, TypePermits, BlockPermits, SeasonPermits, HoursPermits, SeasonHoursPermits, WritePermits, RadioPermits};

use rows::Row;

#[unsafe(no_mangle)]
pub extern "C" fn workshop_read(
    edition: u64,
    vehicle_type: &[u8],
    depot: &[u8],
    stop: &[u8],
    stop_point: &[u8],
    vehicle_block: &[u8],
    day_type_calendar: &[u8],
    book: &mut [Row],
    place: &mut [u64; 4],
) -> u64
    ensures { ReadPermits edition (delivery vehicle_type.now depot.now stop.now stop_point.now vehicle_block.now day_type_calendar.now) book.old result place.new book.new }
{
    abi::workshop_read(
        edition,
        vehicle_type,
        depot,
        stop,
        stop_point,
        vehicle_block,
        day_type_calendar,
        book,
        place,
    )
}

#[unsafe(no_mangle)]
pub extern "C" fn workshop_slip(
    slip: &[u8],
    book: &mut [Row],
    work: &mut [Row],
    place: &mut [u64; 4],
) -> u64
    ensures { SlipPermits slip.now book.old work.old result place.new book.new work.new }
{
    abi::workshop_slip(slip, book, work, place)
}

#[unsafe(no_mangle)]
pub extern "C" fn workshop_cell(
    edition: u64,
    text: &[u8],
    table: u64,
    line: u64,
    column: u64,
    answer: &mut [u64; 4],
    place: &mut [u64; 4],
) -> u64
    ensures { CellPermits edition text.now table line column result place.new answer.new }
{
    abi::workshop_cell(edition, text, table, line, column, answer, place)
}

#[unsafe(no_mangle)]
pub extern "C" fn workshop_type(
    book: &[Row],
    version: u64,
    number: u64,
    answer: &mut [u64; 2],
    place: &mut [u64; 4],
) -> u64
    ensures { TypePermits book.now version number result place.new answer.new }
{
    abi::workshop_type(book, version, number, answer, place)
}

#[unsafe(no_mangle)]
pub extern "C" fn workshop_block(
    book: &[Row],
    version: u64,
    day_type: u64,
    depot: u64,
    block: u64,
    answer: &mut [u64; 7],
    place: &mut [u64; 4],
) -> u64
    ensures { BlockPermits book.now version day_type depot block result place.new answer.new }
{
    abi::workshop_block(book, version, day_type, depot, block, answer, place)
}

#[unsafe(no_mangle)]
pub extern "C" fn workshop_season(
    book: &[Row],
    version: u64,
    number: u64,
    first: u64,
    last: u64,
    seconds: &mut [u64; 1],
    place: &mut [u64; 4],
) -> u64
    ensures { SeasonPermits book.now version number first last result place.new seconds.new }
{
    abi::workshop_season(book, version, number, first, last, seconds, place)
}

#[unsafe(no_mangle)]
pub extern "C" fn workshop_hours(
    book: &[Row],
    version: u64,
    number: u64,
    hours: &mut [f64; 2],
    place: &mut [u64; 4],
) -> u64
    ensures { HoursPermits book.now version number result place.new hours.new }
{
    abi::workshop_hours(book, version, number, hours, place)
}

#[unsafe(no_mangle)]
pub extern "C" fn workshop_season_hours(
    book: &[Row],
    version: u64,
    number: u64,
    first: u64,
    last: u64,
    hours: &mut [f64; 1],
    place: &mut [u64; 4],
) -> u64
    ensures { SeasonHoursPermits book.now version number first last result place.new hours.new }
{
    abi::workshop_season_hours(book, version, number, first, last, hours, place)
}

#[unsafe(no_mangle)]
pub extern "C" fn workshop_write(
    book: &[Row],
    out: &mut [u8],
    length: &mut [u64; 1],
    place: &mut [u64; 4],
) -> u64
    ensures { WritePermits book.now out.old result place.new length.new out.new }
{
    abi::workshop_write(book, out, length, place)
}

#[unsafe(no_mangle)]
pub extern "C" fn workshop_radio_open(
    edition: u64,
    book: &mut [Row],
    kept: &mut [u64],
    lines: &mut [u8],
    place: &mut [u64; 4],
) -> u64
    ensures { RadioPermits (open_call edition (slices book.old kept.old lines.old)) result place.new (slices book.new kept.new lines.new) }
{
    abi::workshop_radio_open(edition, book, kept, lines, place)
}

#[unsafe(no_mangle)]
pub extern "C" fn workshop_radio_announce(
    length: u64,
    book: &[Row],
    kept: &mut [u64],
    lines: &[u8],
    place: &mut [u64; 4],
) -> u64
    ensures { RadioPermits (radio_call (announce length) (slices book.now kept.old lines.now)) result place.new (slices book.now kept.new lines.now) }
{
    abi::workshop_radio_announce(length, book, kept, lines, place)
}

#[unsafe(no_mangle)]
pub extern "C" fn workshop_radio_part(
    bytes: &[u8],
    book: &mut [Row],
    kept: &mut [u64],
    lines: &mut [u8],
    place: &mut [u64; 4],
) -> u64
    ensures { RadioPermits (radio_call (part bytes.now) (slices book.old kept.old lines.old)) result place.new (slices book.new kept.new lines.new) }
{
    abi::workshop_radio_part(bytes, book, kept, lines, place)
}

#[unsafe(no_mangle)]
pub extern "C" fn workshop_radio_close(
    book: &mut [Row],
    kept: &mut [u64],
    lines: &mut [u8],
    place: &mut [u64; 4],
) -> u64
    ensures { RadioPermits (radio_call close (slices book.old kept.old lines.old)) result place.new (slices book.new kept.new lines.new) }
{
    abi::workshop_radio_close(book, kept, lines, place)
}
