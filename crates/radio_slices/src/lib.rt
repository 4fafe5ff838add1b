// What the calls of a delivery by radio leave in the three lent slices, and take up from them.
#![tactic(auto)]

ghost use Rattle.std.specs.Prelude.{◌≡◌, ◌+◌, ◌<◌, ◌≤◌, length, replicate};
ghost use Rattle.std.proofs.Math.ListN as list;
ghost use Rattle.tables.specs.Parts.{book_rows};
ghost use Rattle.book.specs.Holding.{result_of};
ghost use Rattle.radio.specs.Radio as radio;
ghost use Rattle.radio.specs.Radio.{most_counted};
ghost use Rattle.radio.specs.Room.{radio_numbers, radio_bytes, all_closed, turn_of, flag_of, first_heard, place_of, laid_out};
ghost use Rattle.radio_rule.specs.Lent.{slices};
ghost use Rattle.radio_slices.specs.Numbers.{empty_slices, stopped_slices, numbers_announced};
ghost use Rattle.radio_slices.specs.Hearing.{table_of, taken};
ghost use Rattle.radio_slices.specs.Settling.{Settling};

use editions::Edition;
use radio_lines::Heard;
use radio_rule::{
    FAULT, FAULT_COLUMN, FAULT_LINE, FAULT_NUMBER, FAULT_TABLE, HEAD_LENGTH, HEARD, LINE,
    MOST_COUNTED, OVER, REST_LENGTH, TURN,
};
use refusals::{Place, Verdict};
use rows::Row;
use tables::Table;

// The numbers of one slice into another of the same length.
pub fn copy_numbers(from: &[u64], to: &mut [u64])
    requires { length from.now ≡ length to.old }
    ensures { to.new ≡ from.now }
{
    to.copy_from_slice(from);
}

pub fn clear_bytes(list: &mut [u8])
    ensures { list.new ≡ replicate (length list.old) 0 }
{
    list.fill(0);
}

// A count and so much more: it stops at 65,537, however much comes.
pub fn counted(come: u64, more: u64) -> u64
    requires { come ≤ most_counted }
    ensures { result ≡ radio.counted (come + more) }
{
    if MOST_COUNTED - come < more {
        return MOST_COUNTED;
    }
    come + more
}

// The empty book of an edition, no line, and these numbers.
pub fn empty(
    edition: Edition,
    numbers: &[u64],
    book: &mut [Row],
    kept: &mut [u64],
    lines: &mut [u8],
)
    requires { (length numbers.now ≡ radio_numbers) × (length book.old ≡ book_rows) × (length kept.old ≡ radio_numbers) × (length lines.old ≡ radio_bytes) }
    ensures { slices book.new kept.new lines.new ≡ empty_slices edition numbers.now }
{
    book::begin(book, edition);
    copy_numbers(numbers, kept);
    clear_bytes(lines);
}

// A fault: "A refused reading leaves an empty book", of "2.1 after a refused reading", and nothing else is kept but the fault and the counts.
pub fn stop(
    turn: u64,
    announced: u64,
    come: u64,
    p: Place,
    book: &mut [Row],
    kept: &mut [u64],
    lines: &mut [u8],
)
    requires { (length book.old ≡ book_rows) × (length kept.old ≡ radio_numbers) × (length lines.old ≡ radio_bytes) }
    ensures { slices book.new kept.new lines.new ≡ stopped_slices turn announced come p }
{
    let numbers = [
        turn, announced, come, 0, 0, 0, 1, p.number, p.table, p.line, p.column,
    ];
    empty(Edition::Dino21, &numbers, book, kept, lines);
}

// A table begins: its first line, unless there is a fault.
pub fn begin_table(length: u64, kept: &mut [u64])
    requires { (list.length kept.old ≡ radio_numbers) × (turn_of kept.old < all_closed) × (flag_of kept.old ≤ 1) }
    ensures { kept.new ≡ numbers_announced (radio.counted length) kept.old }
{
    let fault = kept[FAULT];
    let numbers = [
        kept[TURN] + HEARD,
        counted(0, length),
        0,
        1 - fault,
        0,
        0,
        fault,
        kept[FAULT_NUMBER],
        kept[FAULT_TABLE],
        kept[FAULT_LINE],
        kept[FAULT_COLUMN],
    ];
    copy_numbers(&numbers, kept);
}

// What the code takes up of a table that is heard, where there is no fault.
pub fn take_up(kept: &[u64]) -> Heard
    requires { length kept.now ≡ radio_numbers }
    ensures { result ≡ taken kept.now }
{
    Heard {
        verdict: Ok(()),
        line: kept[LINE],
        head: kept[HEAD_LENGTH] as usize,
        rest: kept[REST_LENGTH] as usize,
    }
}

// The fault that is kept.
pub fn kept_fault(kept: &[u64]) -> Place
    requires { length kept.now ≡ radio_numbers }
    ensures { result ≡ place_of kept.now }
{
    Place::new(
        kept[FAULT_NUMBER],
        kept[FAULT_TABLE],
        kept[FAULT_LINE],
        kept[FAULT_COLUMN],
    )
}

// Which table is heard.
pub fn table_heard(kept: &[u64]) -> Table
    requires { (length kept.now ≡ radio_numbers) × (first_heard ≤ turn_of kept.now) }
    ensures { result ≡ table_of kept.now }
{
    Table::in_order((kept[TURN] - HEARD) as usize)
}

// The next table is to be announced, or all are closed.
pub fn settle(verdict: Verdict, book: &mut [Row], kept: &mut [u64], lines: &mut [u8])
    requires { Settling verdict book.old kept.old lines.old }
    ensures { slices book.new kept.new lines.new ≡ laid_out (radio.next (table_of kept.old) (result_of verdict book.old)) }
{
    let turn = kept[TURN] - OVER;
    match verdict {
        Err(p) => stop(turn, 0, 0, p, book, kept, lines),
        Ok(()) => {
            let numbers = [turn, 0, 0, 0, 0, 0, 0, 0, 0, 0, 0];
            copy_numbers(&numbers, kept);
            clear_bytes(lines);
        }
    }
}
