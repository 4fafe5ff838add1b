// The book that is lent, the parts of its tables, and its edition.
#![tactic(auto)]

ghost use Rattle.std.specs.Prelude.{◌≡◌, [], ◌∷◌, ◌≤◌, ◌<◌, length, get_or};
ghost use Rattle.rows.specs.Rows.{wide};
ghost use Rattle.tables.specs.Parts.{book_rows, room};
ghost use Rattle.book.specs.Room.{part, book_of, laid, mark, marks};
ghost use Rattle.book.specs.Book.{knows, rows, empty, empty_by};
ghost use Rattle.book.specs.Holding.{Sound};

use editions::Edition;
use rows::Row;
use tables::{MARKS, Table};

// A table's part of the book.
#[tactic(auto, using(tables::proofs::Parts::part_within, crate::proofs::Laying::part_cut))]
pub fn table_of(book: &[Row], t: Table) -> &[Row]
    requires { length book.now ≡ book_rows }
    ensures { result.now ≡ part t book.now }
{
    let from = t.begin();
    &book[from..from + t.room()]
}

// The key of a row of tables 1 to 3.
pub fn key(version: u64, number: u64) -> Row
    ensures { result ≡ wide (version ∷ number ∷ []) }
{
    [version, number, 0, 0, 0, 0, 0, 0, 0, 0, 0]
}

// Whether the key of a row stands in a table of the book. The key's width is a constant in each arm: a search by a known width compares in
// registers.
pub fn knowing(book: &[Row], t: Table, row: Row) -> bool
    requires { Sound book.now }
    ensures { result ≡ knows t row (book_of book.now) }
{
    let table = table_of(book, t);
    match t {
        Table::StopPoint => rows::standing(table, Table::POINT_KEY, row),
        Table::Block => rows::standing(table, Table::BLOCK_KEY, row),
        _ => rows::standing(table, Table::PAIR_KEY, row),
    }
}

// A table's rows, as they stand in the book: the used ones, which come first in its part.
pub fn rows_of(book: &[Row], t: Table) -> &[Row]
    requires { Sound book.now }
    ensures { result.now ≡ rows t (book_of book.now) }
{
    let table = table_of(book, t);
    let n = rows::count(table);
    &table[..n]
}

// How many rows a table has.
pub fn count_rows(book: &[Row], t: Table) -> usize
    requires { Sound book.now }
    ensures { (result ≡ length (rows t (book_of book.now))) × (result ≤ room t) }
{
    rows_of(book, t).len()
}

// A table's row at place i.
pub fn row_at(book: &[Row], t: Table, i: usize) -> Row
    requires { Sound book.now × (i < length (rows t (book_of book.now))) }
    ensures { result ≡ get_or (rows t (book_of book.now)) i [] }
{
    let table = table_of(book, t);
    table[i]
}

// The empty book.
#[tactic(auto, using(crate::proofs::Laying::laid_empty))]
pub fn clear(book: &mut [Row])
    requires { length book.old ≡ book_rows }
    ensures { book.new ≡ laid empty }
{
    rows::clear(book);
}

// The marks of the editions. That of 2.1 is zero, as in the empty book.
pub const MARK_21: u64 = 0;

pub const MARK_23: u64 = 1;

fn mark(edition: Edition) -> u64
    ensures { result ≡ mark edition }
{
    match edition {
        Edition::Dino21 => MARK_21,
        Edition::Dino23 => MARK_23,
    }
}

// The row of marks.
fn marks(edition: Edition) -> Row
    ensures { result ≡ marks edition }
{
    [mark(edition), 0, 0, 0, 0, 0, 0, 0, 0, 0, 0]
}

// "The delivery's edition, which the book keeps".
pub fn edition_of(book: &[Row]) -> Edition
    requires { length book.now ≡ book_rows }
    ensures { result ≡ (book_of book.now).edition }
{
    if book[MARKS][0] == MARK_23 {
        Edition::Dino23
    } else {
        Edition::Dino21
    }
}

// The book that a reading begins with: no rows, and the delivery's edition.
pub fn begin(book: &mut [Row], edition: Edition)
    requires { length book.old ≡ book_rows }
    ensures { book.new ≡ laid (empty_by edition) }
{
    clear(book);
    book[MARKS] = marks(edition);
}
