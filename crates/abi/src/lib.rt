// What the library for C answers, as include/workshop.h says it: each function tells its verdict by the returned number and the place. abi_c exports them.
#![tactic(auto)]

ghost use Rattle.std.specs.Prelude.{◌≡◌};
ghost use Rattle.refusals.specs.Verdicts.{paper, values};
ghost use Rattle.delivery.specs.Calls.{delivery};
ghost use Rattle.radio.specs.Radio.{announce, part, close};
ghost use Rattle.radio.specs.Room.{radio_call, open_call};
ghost use Rattle.radio_rule.specs.Lent.{slices};
ghost use Rattle.abi.specs.Calls.{ReadPermits, SlipPermits, CellPermits, TypePermits, BlockPermits, SeasonPermits, HoursPermits, SeasonHoursPermits, WritePermits, RadioPermits};

use refusals::{Cell, Verdict};
use rows::Row;

fn on_paper(verdict: Verdict) -> [u64; 4]
    ensures { result ≡ paper verdict }
{
    match verdict {
        Ok(()) => [0, 0, 0, 0],
        Err(p) => [p.number, p.table, p.line, p.column],
    }
}

fn cell_on_paper(cell: Cell) -> [u64; 4]
    ensures { result ≡ values cell }
{
    match cell {
        Cell::Number(n) => [1, n, 0, 0],
        Cell::Text { start, len } => [2, 0, start, len],
        Cell::Empty => [0, 0, 0, 0],
        Cell::Equip21(n) => [3, n, 0, 0],
        Cell::Flags23(n) => [4, n, 0, 0],
    }
}

pub fn workshop_read(
    edition: u64,
    vehicle_type: &[u8],
    depot: &[u8],
    stop: &[u8],
    stop_point: &[u8],
    vehicle_block: &[u8],
    day_type_calendar: &[u8],
    book: &mut [Row],
    place: &mut [u64; 4],
) -> u64
    ensures { ReadPermits edition (delivery vehicle_type.now depot.now stop.now stop_point.now vehicle_block.now day_type_calendar.now) book.old result place.new book.new }
{
    let told = on_paper(delivery::read(
        edition,
        vehicle_type,
        depot,
        stop,
        stop_point,
        vehicle_block,
        day_type_calendar,
        book,
    ));
    *place = told;
    told[0]
}

pub fn workshop_slip(slip: &[u8], book: &mut [Row], work: &mut [Row], place: &mut [u64; 4]) -> u64
    ensures { SlipPermits slip.now book.old work.old result place.new book.new work.new }
{
    let told = on_paper(slips::slip(slip, book, work));
    *place = told;
    told[0]
}

pub fn workshop_cell(
    edition: u64,
    text: &[u8],
    table: u64,
    line: u64,
    column: u64,
    answer: &mut [u64; 4],
    place: &mut [u64; 4],
) -> u64
    ensures { CellPermits edition text.now table line column result place.new answer.new }
{
    let asked = cell_question::cell(edition, text, table, line, column);
    let verdict = asked.verdict;
    let told = on_paper(verdict);
    let cell = asked.cell;
    let shown = cell_on_paper(cell);
    *answer = shown;
    *place = told;
    told[0]
}

pub fn workshop_type(
    book: &[Row],
    version: u64,
    number: u64,
    answer: &mut [u64; 2],
    place: &mut [u64; 4],
) -> u64
    ensures { TypePermits book.now version number result place.new answer.new }
{
    let found = questions::type_answer(book, version, number);
    let verdict = found.verdict;
    let told = on_paper(verdict);
    *answer = [found.seconds, found.count];
    *place = told;
    told[0]
}

pub fn workshop_block(
    book: &[Row],
    version: u64,
    day_type: u64,
    depot: u64,
    block: u64,
    answer: &mut [u64; 7],
    place: &mut [u64; 4],
) -> u64
    ensures { BlockPermits book.now version day_type depot block result place.new answer.new }
{
    let found = questions::block_answer(book, version, day_type, depot, block);
    let verdict = found.verdict;
    let told = on_paper(verdict);
    let numbers = found.numbers;
    *answer = numbers;
    *place = told;
    told[0]
}

pub fn workshop_season(
    book: &[Row],
    version: u64,
    number: u64,
    first: u64,
    last: u64,
    seconds: &mut [u64; 1],
    place: &mut [u64; 4],
) -> u64
    ensures { SeasonPermits book.now version number first last result place.new seconds.new }
{
    let found = seasons::season_answer(book, version, number, first, last);
    let verdict = found.verdict;
    let told = on_paper(verdict);
    *seconds = [found.seconds];
    *place = told;
    told[0]
}

pub fn workshop_hours(
    book: &[Row],
    version: u64,
    number: u64,
    hours: &mut [f64; 2],
    place: &mut [u64; 4],
) -> u64
    ensures { HoursPermits book.now version number result place.new hours.new }
{
    let found = hours::type_hours(book, version, number);
    let verdict = found.verdict;
    let told = on_paper(verdict);
    *hours = [found.hours, found.summed];
    *place = told;
    told[0]
}

pub fn workshop_season_hours(
    book: &[Row],
    version: u64,
    number: u64,
    first: u64,
    last: u64,
    hours: &mut [f64; 1],
    place: &mut [u64; 4],
) -> u64
    ensures { SeasonHoursPermits book.now version number first last result place.new hours.new }
{
    let found = hours::season_hours(book, version, number, first, last);
    let verdict = found.verdict;
    let told = on_paper(verdict);
    *hours = [found.hours];
    *place = told;
    told[0]
}

pub fn workshop_write(
    book: &[Row],
    out: &mut [u8],
    length: &mut [u64; 1],
    place: &mut [u64; 4],
) -> u64
    ensures { WritePermits book.now out.old result place.new length.new out.new }
{
    let written = writer::write(book, out);
    let verdict = written.verdict;
    let told = on_paper(verdict);
    *length = [written.size as u64];
    *place = told;
    told[0]
}

pub fn workshop_radio_open(
    edition: u64,
    book: &mut [Row],
    kept: &mut [u64],
    lines: &mut [u8],
    place: &mut [u64; 4],
) -> u64
    ensures { RadioPermits (open_call edition (slices book.old kept.old lines.old)) result place.new (slices book.new kept.new lines.new) }
{
    let told = on_paper(radio_calls::open(edition, book, kept, lines));
    *place = told;
    told[0]
}

pub fn workshop_radio_announce(
    length: u64,
    book: &[Row],
    kept: &mut [u64],
    lines: &[u8],
    place: &mut [u64; 4],
) -> u64
    ensures { RadioPermits (radio_call (announce length) (slices book.now kept.old lines.now)) result place.new (slices book.now kept.new lines.now) }
{
    let told = on_paper(radio_calls::announce(length, book, kept, lines));
    *place = told;
    told[0]
}

pub fn workshop_radio_part(
    bytes: &[u8],
    book: &mut [Row],
    kept: &mut [u64],
    lines: &mut [u8],
    place: &mut [u64; 4],
) -> u64
    ensures { RadioPermits (radio_call (part bytes.now) (slices book.old kept.old lines.old)) result place.new (slices book.new kept.new lines.new) }
{
    let told = on_paper(radio_calls::part(bytes, book, kept, lines));
    *place = told;
    told[0]
}

pub fn workshop_radio_close(
    book: &mut [Row],
    kept: &mut [u64],
    lines: &mut [u8],
    place: &mut [u64; 4],
) -> u64
    ensures { RadioPermits (radio_call close (slices book.old kept.old lines.old)) result place.new (slices book.new kept.new lines.new) }
{
    let told = on_paper(radio_calls::close(book, kept, lines));
    *place = told;
    told[0]
}
