// The rules that a row meets in its book: times and references.
#![tactic(auto)]

ghost use Rattle.std.specs.Prelude.{◌≡◌, true, ◌≤◌, ◌<◌, length, get_or};
ghost use Rattle.refusals.specs.Verdicts.{passes};
ghost use Rattle.rows.specs.Rows.{wide, column, row_numbers};
ghost use Rattle.tables.specs.Columns.{references, ref};
ghost use Rattle.book.specs.Room.{book_of};
ghost use Rattle.book.specs.Holding.{Sound};
ghost use Rattle.rules.specs.Rules.{within_day, overnight, time_fault, named, finds, unknown};
ghost use Rattle.rules.specs.Points.{points_named, Referable};

use refusals::{Check, Fault};
use rows::Row;
use tables::Table;

// The seconds of a day.
pub const DAY: u64 = 86400;

// Whether both times of a block are below 86,400.
fn within_day(row: Row) -> bool
    ensures { result ≡ within_day row }
{
    row[7] < DAY && row[10] < DAY
}

// Whether a block runs into the next day.
pub fn overnight(row: Row) -> bool
    ensures { result ≡ overnight row }
{
    within_day(row) && row[10] < row[7]
}

// 11 of a block.
fn ends_early(row: Row) -> bool
    ensures { result ≡ time_fault Table.Block row }
{
    row[10] < row[7] && !within_day(row)
}

// 11. Only a block has times.
pub fn time_fault(t: Table, row: Row) -> bool
    ensures { result ≡ time_fault t row }
{
    t == Table::Block && ends_early(row)
}

// The key that a column names in a table: of a stop point its stop's number stands one column before.
fn named(to: Table, column: usize, row: Row) -> Row
    requires { (2 ≤ column) × (column ≤ row_numbers) }
    ensures { result ≡ wide (named to column row) }
{
    match to {
        Table::StopPoint => [
            row[0],
            row[column - 2],
            row[column - 1],
            0,
            0,
            0,
            0,
            0,
            0,
            0,
            0,
        ],
        _ => book::key(row[0], row[column - 1]),
    }
}

// Whether the reference at place i of a table's finds its row. It is always inlined: where table and place are constants, the table that is searched and
// the width of its keys are too.
#[inline(always)]
fn finds(book: &[Row], t: Table, i: usize, row: Row) -> bool
    requires { Sound book.now × (i < length (references t)) }
    ensures { result ≡ finds (get_or (references t) i (ref 0 Table.VehicleType)) row (book_of book.now) }
{
    let reference = t.reference(i);
    book::knowing(
        book,
        reference.to,
        named(reference.to, reference.column, row),
    )
}

// Whether a block's references all find their rows. Those to its stops, at places 2 and 4, need no search: each stands before one to a point
// of that stop, and a known point's stop is known.
fn block_finds(book: &[Row], row: Row) -> bool
    requires { Sound book.now × (points_named (book_of book.now) ≡ true) }
    ensures { result ≡ passes (unknown Table.Block row (book_of book.now)) }
{
    finds(book, Table::Block, 0, row)
        && finds(book, Table::Block, 1, row)
        && finds(book, Table::Block, 3, row)
        && finds(book, Table::Block, 5, row)
}

// 10: the first reference that finds no row, one by one.
fn first_unknown(book: &[Row], t: Table, row: Row) -> Check
    requires { Sound book.now }
    ensures { result ≡ unknown t row (book_of book.now) }
{
    let mut check = Ok(());
    'references: for i in 0..t.references() {
        if !finds(book, t, i, row) {
            check = Err(Fault::no_row(t.reference(i).column as u64));
            break 'references;
        }
    }
    check
}

// 10. A block's references are sought one by one only to name the first that finds no row.
pub fn unknown_reference(book: &[Row], t: Table, row: Row) -> Check
    requires { Sound book.now × Referable t (book_of book.now) }
    ensures { result ≡ unknown t row (book_of book.now) }
{
    if t == Table::Block && block_finds(book, row) {
        return Ok(());
    }
    first_unknown(book, t, row)
}
