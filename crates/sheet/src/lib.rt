// The day sheet, written.
#![tactic(auto)]

ghost use Rattle.std.specs.Prelude.{◌≡◌, [], ◌∷◌, ◌++◌, map, true, ℕ, ◌+◌, ◌≤◌, ◌<◌, ◌*◌, length};
ghost use Rattle.words.specs.Words.{bytes};
ghost use Rattle.numbers.specs.Putting.{put};
ghost use Rattle.rows.specs.Room.{most_rows};
ghost use Rattle.book.specs.Room.{book_of};
ghost use Rattle.keeping.specs.Keeping.{keeps_rule};
ghost use Rattle.writer.specs.Writing.{lines_written};
ghost use Rattle.writer.specs.Calls.{outcome, wrote};
ghost use Rattle.sheet.specs.Sheet.{sheet_line, type_line, sheet_text, refusal_text};
ghost use Rattle.sheet.specs.Calls.{short_for, SheetPermits};

use refusals::{Fault, Place, Verdict};
use rows::Row;
use tables::Table;
use writer::Written;

const TAB: u8 = 9;

// The letters that begin the lines.
const TYPE: u8 = b'T';

const SUMS: u8 = b'S';

const REFUSAL: u8 = b'X';

// How long a line of a letter and numbers is, with its line feed; and the line itself.
fn line_length(numbers: &[u64]) -> usize
    requires { (1 ≤ length numbers.now) × (length numbers.now ≤ 4) }
    ensures { ((letter : ℕ) → result ≡ length (sheet_line (letter ∷ []) numbers.now) + 1) × (result ≤ 86) }
{
    2 + number_lines::numbers_length(numbers)
}

fn write_line(out: &mut [u8], letter: u8, numbers: &[u64]) -> usize
    requires { (1 ≤ length numbers.now) × (length (sheet_line (letter ∷ []) numbers.now) + 1 ≤ length out.old) }
    ensures { (result ≡ length (sheet_line (letter ∷ []) numbers.now) + 1) × (out.new ≡ put (sheet_line (letter ∷ []) numbers.now ++ (10 ∷ [])) out.old) }
{
    out[0] = letter;
    out[1] = TAB;
    2 + number_lines::write_numbers(&mut out[2..], numbers, TAB)
}

// What the line of a type says: version, number, seconds, count.
fn type_numbers(book: &[Row], row: Row) -> [u64; 4]
    requires { keeps_rule book.now ≡ true }
    ensures { type_line (book_of book.now).blocks row ≡ sheet_line (bytes "T") result }
{
    let version = row[0];
    let number = row[1];
    let sums = questions::blocks_summed(book, version, number);
    [version, number, sums.seconds, sums.count]
}

// How long the lines of all types are; and the lines, each at the place the last one ended.
fn types_length(book: &[Row], types: &[Row]) -> usize
    requires { (keeps_rule book.now ≡ true) × (types.now ≡ (book_of book.now).types) }
    ensures { (result ≡ length (lines_written (map (type_line (book_of book.now).blocks) (book_of book.now).types))) × (result ≤ most_rows * 86) }
{
    let mut size = 0;
    for row in types {
        let numbers = type_numbers(book, *row);
        size += line_length(&numbers);
    }
    size
}

fn write_types(out: &mut [u8], book: &[Row], types: &[Row]) -> usize
    requires { (keeps_rule book.now ≡ true) × (types.now ≡ (book_of book.now).types) × (length (lines_written (map (type_line (book_of book.now).blocks) (book_of book.now).types)) ≤ length out.old) }
    ensures { (result ≡ length (lines_written (map (type_line (book_of book.now).blocks) (book_of book.now).types))) × (out.new ≡ put (lines_written (map (type_line (book_of book.now).blocks) (book_of book.now).types)) out.old) }
{
    let mut at = 0;
    for row in types {
        let numbers = type_numbers(book, *row);
        at += write_line(&mut out[at..], TYPE, &numbers);
    }
    at
}

// 14, or a line for each type and the sums.
fn write_sheet(book: &[Row], out: &mut [u8]) -> Written
    requires { keeps_rule book.now ≡ true }
    ensures { outcome result.verdict result.size out.new ≡ wrote (short_for (sheet_text (book_of book.now)) out.old) (sheet_text (book_of book.now)) out.old }
{
    let types = book::rows_of(book, Table::VehicleType);
    let blocks = book::rows_of(book, Table::Block);
    let sums = [types.len() as u64, blocks.len() as u64];
    let size = types_length(book, types) + line_length(&sums);
    if out.len() < size {
        return writer::unwritten(Err(Fault::output_short()));
    }
    let at = write_types(out, book, types);
    write_line(&mut out[at..], SUMS, &sums);
    Written {
        verdict: Ok(()),
        size,
    }
}

// 14, or the line of a refusal.
fn write_refusal(place: Place, out: &mut [u8]) -> Written
    ensures { outcome result.verdict result.size out.new ≡ wrote (short_for (refusal_text place) out.old) (refusal_text place) out.old }
{
    let numbers = [place.number, place.table, place.line, place.column];
    let size = line_length(&numbers);
    if out.len() < size {
        return writer::unwritten(Err(Fault::output_short()));
    }
    write_line(out, REFUSAL, &numbers);
    Written {
        verdict: Ok(()),
        size,
    }
}

// The sheet of a day whose delivery and slip had this verdict: T lines and the S line, or the X line.
pub fn day_sheet(verdict: Verdict, book: &[Row], out: &mut [u8]) -> Written
    ensures { SheetPermits verdict book.now out.old (outcome result.verdict result.size out.new) }
{
    match verdict {
        Ok(()) => {
            if !keeping::keeps_rule(book) {
                return writer::unwritten(Err(Fault::bad_loan()));
            }
            write_sheet(book, out)
        }
        Err(place) => write_refusal(place, out),
    }
}
