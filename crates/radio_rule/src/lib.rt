// The test of the rule of what is kept between parts of a delivery by radio: "handed in against that rule it is 16".
#![tactic(auto)]

ghost use Rattle.std.specs.Prelude.{◌≡◌, true, map, ◌≤◌, length};
ghost use Rattle.rows.specs.Room.{same_rows};
ghost use Rattle.tables.specs.Columns as columns;
ghost use Rattle.tables.specs.Parts.{tables, book_rows};
ghost use Rattle.book.specs.Book.{empty};
ghost use Rattle.book.specs.Room.{laid};
ghost use Rattle.header.specs.Header.{member};
ghost use Rattle.radio.specs.Radio.{most_counted};
ghost use Rattle.radio.specs.Rule.{lawful_fault};
ghost use Rattle.radio.specs.Room.{radio_numbers, radio_bytes, fits, keeps_radio};
ghost use Rattle.radio_rule.specs.Lent.{slices};
ghost use Rattle.radio_rule.specs.Testing.{zeros, fault_place, fault_keeps, come, course_keeps, heard_keeps, numbers_keep, header_keeps, lines_keep, book_keeps};

use editions::Edition;
use refusals::Place;
use rows::Row;
use tables::{BOOK_ROWS, Table};

// Room for the header line, and for the unfinished line, which may have one byte more: a carriage return that its line feed drops.
pub const HEAD: usize = lines::MOST_LINE;

pub const REST: usize = HEAD + 1;

pub const LINES: usize = HEAD + REST;

// The places of the numbers that are kept: whose turn it is, how many bytes were announced and came, the number of the unfinished line, the
// lengths of the two lines, whether there is a fault, and the fault itself.
pub const TURN: usize = 0;

pub const ANNOUNCED: usize = 1;

pub const COME: usize = 2;

pub const LINE: usize = 3;

pub const HEAD_LENGTH: usize = 4;

pub const REST_LENGTH: usize = 5;

pub const FAULT: usize = 6;

pub const FAULT_NUMBER: usize = 7;

pub const FAULT_TABLE: usize = 8;

pub const FAULT_LINE: usize = 9;

pub const FAULT_COLUMN: usize = 10;

pub const KEPT: usize = 11;

// Turns: a table to be announced, in reading order, then none, then a table that is heard, in reading order.
pub const OVER: u64 = 6;

pub const HEARD: u64 = 7;

pub const LAST_TURN: u64 = 12;

// Lengths are counted to here, which stands for all that are longer.
pub const MOST_COUNTED: u64 = 65537;

// The numbers of refusal of tables that are read.
const READING_NUMBERS: [u64; 16] = [
    Place::TEXT_TOO_LONG,
    Place::COLUMN_MISSING,
    Place::COLUMN_TWICE,
    Place::TOO_MANY_CELLS,
    Place::TOO_MANY_ROWS,
    Place::QUOTE_FAULT,
    Place::CELL_COUNT,
    Place::NOT_DIGITS,
    Place::KEY_STANDS,
    Place::NO_ROW,
    Place::ENDS_EARLY,
    Place::LINE_TOO_LONG,
    Place::LENGTH_DIFFERS,
    Place::CELL_EMPTY,
    Place::CELL_TOO_LONG,
    Place::OUT_OF_RANGE,
];

fn zero_numbers(list: &[u64]) -> bool
    ensures { result ≡ zeros list.now }
{
    list.iter().all(|number| *number == 0)
}

fn zero_bytes(list: &[u8]) -> bool
    ensures { result ≡ zeros list.now }
{
    list.iter().all(|byte| *byte == 0)
}

// Whether the book is the empty one: a slice that holds a table, the first row of which is unused, has zeros alone.
fn no_rows(book: &[Row]) -> bool
    requires { length book.now ≡ book_rows }
    ensures { result ≡ same_rows book.now (laid empty) }
{
    book[0][0] == 0 && rows::holding(book, 1)
}

fn names_table(number: u64) -> bool
    ensures { result ≡ member number (map columns.number tables) }
{
    Table::numbered(number).is_some()
}

// Whether the fault is one of a table that is read: a call's own 15, 16, 22 and 23 are none.
fn lawful_fault(kept: &[u64]) -> bool
    requires { length kept.now ≡ radio_numbers }
    ensures { result ≡ lawful_fault (fault_place kept.now) }
{
    READING_NUMBERS.contains(&kept[FAULT_NUMBER]) && names_table(kept[FAULT_TABLE])
}

fn fault_keeps(kept: &[u64]) -> bool
    requires { length kept.now ≡ radio_numbers }
    ensures { result ≡ fault_keeps kept.now }
{
    if kept[FAULT] == 0 {
        zero_numbers(&kept[FAULT_NUMBER..KEPT])
    } else {
        kept[FAULT] == 1 && lawful_fault(kept)
    }
}

// Of a table that is heard, without a fault.
fn course_keeps(kept: &[u64]) -> bool
    requires { (length kept.now ≡ radio_numbers) × (come kept.now ≤ most_counted) }
    ensures { result ≡ course_keeps kept.now }
{
    let line = kept[LINE];
    let head = kept[HEAD_LENGTH];
    let rest = kept[REST_LENGTH];
    let most = kept[COME] + 1;
    // No more lines, and bytes behind them, than bytes came. (The line's number alone first: it may be any.)
    1 <= line
        && rest <= REST as u64
        && line <= most
        && line + rest <= most
        && head <= HEAD as u64
        && (line != 1 || head == 0)
}

// Of a table that is heard.
fn heard_keeps(kept: &[u64]) -> bool
    requires { length kept.now ≡ radio_numbers }
    ensures { result ≡ heard_keeps kept.now }
{
    if MOST_COUNTED < kept[ANNOUNCED] || MOST_COUNTED < kept[COME] {
        return false;
    }
    if kept[FAULT] == 0 {
        course_keeps(kept)
    } else {
        zero_numbers(&kept[LINE..FAULT])
    }
}

#[tactic(auto, unfolding(crate::specs::Testing::numbers_keep))]
fn numbers_keep(kept: &[u64]) -> bool
    requires { length kept.now ≡ radio_numbers }
    ensures { result ≡ numbers_keep kept.now }
{
    if LAST_TURN < kept[TURN] || !fault_keeps(kept) {
        return false;
    }
    if kept[TURN] < HEARD {
        zero_numbers(&kept[ANNOUNCED..FAULT])
    } else {
        heard_keeps(kept)
    }
}

// The header line, where there is one: it has passed its checks.
fn header_keeps(edition: Edition, kept: &[u64], lines: &[u8]) -> bool
    requires { (length kept.now ≡ radio_numbers) × (length lines.now ≡ radio_bytes) × (numbers_keep kept.now ≡ true) }
    ensures { result ≡ header_keeps edition kept.now lines.now }
{
    if kept[LINE] <= 1 {
        return true;
    }
    let t = Table::in_order((kept[TURN] - HEARD) as usize);
    let columns = t.column_rules(edition);
    let heading = header::read_header(&lines[0..kept[HEAD_LENGTH] as usize], edition, t, &columns);
    let check = heading.check;
    check.is_ok()
}

#[tactic(auto, unfolding(crate::specs::Testing::lines_keep))]
fn lines_keep(edition: Edition, kept: &[u64], lines: &[u8]) -> bool
    requires { (length kept.now ≡ radio_numbers) × (length lines.now ≡ radio_bytes) × (numbers_keep kept.now ≡ true) }
    ensures { result ≡ lines_keep edition kept.now lines.now }
{
    let head = kept[HEAD_LENGTH] as usize;
    let rest = kept[REST_LENGTH] as usize;
    zero_bytes(&lines[head..HEAD])
        && zero_bytes(&lines[HEAD + rest..LINES])
        && header_keeps(edition, kept, lines)
}

fn book_keeps(kept: &[u64], book: &[Row]) -> bool
    requires { (length kept.now ≡ radio_numbers) × (length book.now ≡ book_rows) }
    ensures { result ≡ book_keeps kept.now book.now }
{
    if kept[FAULT] == 0 {
        keeping::keeps_rule(book)
    } else {
        no_rows(book)
    }
}

// Whether what is lent has the lengths that it must have.
pub fn fit(book: &[Row], kept: &[u64], lines: &[u8]) -> bool
    ensures { result ≡ fits (slices book.now kept.now lines.now) }
{
    book.len() == BOOK_ROWS && kept.len() == KEPT && lines.len() == LINES
}

// 16: the test of the rule of what is kept between parts, for any slices.
pub fn keeps_radio(book: &[Row], kept: &[u64], lines: &[u8]) -> bool
    ensures { result ≡ keeps_radio (slices book.now kept.now lines.now) }
{
    fit(book, kept, lines)
        && numbers_keep(kept)
        && lines_keep(book::edition_of(book), kept, lines)
        && book_keeps(kept, book)
}
