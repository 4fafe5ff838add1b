// The vehicle_block table, written.
#![tactic(auto)]

ghost use Rattle.std.specs.Prelude.{◌≡◌, [], ◌∷◌, ◌++◌, map, ◌+◌, ◌≤◌, ◌*◌, length, take, ltb};
ghost use Rattle.refusals.specs.Verdicts.{nowhere, ◌when◌, output_short};
ghost use Rattle.numbers.specs.Putting.{put};
ghost use Rattle.rows.specs.Rows.{row_numbers};
ghost use Rattle.rows.specs.Room.{most_rows};
ghost use Rattle.writer.specs.Writing.{row_line, lines_written, names_line};
ghost use Rattle.writer.specs.Calls.{outcome, wrote, WritePermits};

use number_lines::LINE_FEED;
use refusals::{Check, Fault, Place, Verdict};
use rows::Row;
use tables::Table;

// What was answered, and how many bytes were written.
#[derive(Clone, Copy)]
pub struct Written {
    pub verdict: Verdict,
    pub size: usize,
}

const SEMICOLON: u8 = 59;

// How long the header line is, with its line feed.
const HEADER: usize = column_names::BLOCK_NAMES.len() + 1;

// How long a row's line is, with its line feed: short enough that the lines of 512 rows add up without wrapping.
fn line_length(row: Row) -> usize
    ensures { (result ≡ length (row_line row) + 1) × (result ≤ row_numbers * 21) }
{
    number_lines::numbers_length(&row)
}

// A row's line, with its line feed.
pub fn write_row(out: &mut [u8], row: Row) -> usize
    requires { length (row_line row) + 1 ≤ length out.old }
    ensures { (result ≡ length (row_line row) + 1) × (out.new ≡ put (row_line row ++ (10 ∷ [])) out.old) }
{
    number_lines::write_numbers(out, &row, SEMICOLON)
}

// The lines of the first n rows of a list: at most 231 bytes each.
fn lines_length(list: &[Row], n: usize) -> usize
    requires { (n ≤ length list.now) × (length list.now ≤ most_rows) }
    ensures { (result ≡ length (lines_written (map row_line (take n list.now)))) × (result ≤ n * (row_numbers * 21)) }
{
    let mut size = 0;
    for row in &list[..n] {
        size += line_length(*row);
    }
    size
}

// Those lines themselves, each at the place the last one ended.
pub fn write_rows(out: &mut [u8], list: &[Row], n: usize) -> usize
    requires { (n ≤ length list.now) × (length (lines_written (map row_line (take n list.now))) ≤ length out.old) }
    ensures { (result ≡ length (lines_written (map row_line (take n list.now)))) × (out.new ≡ put (lines_written (map row_line (take n list.now))) out.old) }
{
    let mut at = 0;
    for row in &list[..n] {
        at += write_row(&mut out[at..], *row);
    }
    at
}

// The header line, with its line feed.
pub fn write_header(out: &mut [u8]) -> usize
    requires { length names_line + 1 ≤ length out.old }
    ensures { (result ≡ length names_line + 1) × (out.new ≡ put (names_line ++ (10 ∷ [])) out.old) }
{
    let at = number_lines::write_bytes(out, &column_names::BLOCK_NAMES);
    out[at] = LINE_FEED;
    at + 1
}

// Nothing is written.
pub fn unwritten(check: Check) -> Written
    ensures { (result.verdict ≡ nowhere check) × (result.size ≡ 0) }
{
    Written {
        verdict: refusals::placed(check, Place::NO_TABLE, Place::NO_LINE),
        size: 0,
    }
}

// 14, or the header line and the lines of the first n rows of a list.
fn write_table(list: &[Row], n: usize, out: &mut [u8]) -> Written
    requires { (n ≤ length list.now) × (length list.now ≤ most_rows) }
    ensures { outcome result.verdict result.size out.new ≡ wrote (nowhere (output_short when ltb (length out.old) (length (lines_written (names_line ∷ map row_line (take n list.now)))))) (lines_written (names_line ∷ map row_line (take n list.now))) out.old }
{
    let size = HEADER + lines_length(list, n);
    if out.len() < size {
        return unwritten(Err(Fault::output_short()));
    }
    let at = write_header(out);
    write_rows(&mut out[at..], list, n);
    Written {
        verdict: Ok(()),
        size,
    }
}

// 16, then 14 with the output untouched; bytes behind the text stay.
pub fn write(book: &[Row], out: &mut [u8]) -> Written
    ensures { WritePermits book.now out.old (outcome result.verdict result.size out.new) }
{
    if !keeping::keeps_rule(book) {
        return unwritten(Err(Fault::bad_loan()));
    }
    let n = book::count_rows(book, Table::Block);
    let blocks = book::table_of(book, Table::Block);
    write_table(blocks, n, out)
}
