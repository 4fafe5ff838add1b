// The test of the book rule.
#![tactic(auto)]

ghost use Rattle.std.specs.Prelude.{◌≡◌, [], true, false, ◌≤◌, take, length, get_or};
ghost use Rattle.words.specs.Words.{same, all};
ghost use Rattle.rows.specs.Rows.{wide, row_numbers};
ghost use Rattle.rows.specs.Spots.{holds};
ghost use Rattle.tables.specs.Columns.{columns_of, kept_width, key_width};
ghost use Rattle.tables.specs.Listing.{listed};
ghost use Rattle.tables.specs.Parts.{book_rows, marks_at};
ghost use Rattle.book.specs.Room.{book_of, part, marks};
ghost use Rattle.book.specs.Holding.{Sound};
ghost use Rattle.book.specs.Book.{rows};
ghost use Rattle.rules.specs.Points.{Referable};
ghost use Rattle.keeping.specs.Keeping.{ranged, lawful, keeps_rule};

use editions::Edition;
use rows::{NUMBERS, Row};
use tables::{BOOK_ROWS, Columns, MARKS, Table};

// Whether each number that the book keeps of a row is in its column's range.
fn in_ranges(t: Table, columns: &Columns, row: Row) -> bool
    ensures { (e : Edition) → columns.now ≡ listed e t → result ≡ ranged (columns_of e t) (take (kept_width t) row) }
{
    for i in 0..t.kept() {
        let rules = tables::rules_at(columns, i);
        if !ranges::takes(rules, row[i]) {
            return false;
        }
    }
    true
}

// Whether a row is zero behind the numbers that the book keeps of it.
fn rest_zero(kept: usize, row: Row) -> bool
    requires { kept ≤ row_numbers }
    ensures { result ≡ same row (wide (take kept row)) }
{
    for i in kept..NUMBERS {
        if row[i] != 0 {
            return false;
        }
    }
    true
}

// Whether a row could stand in its table of this book.
fn is_lawful(book: &[Row], t: Table, columns: &Columns, row: Row) -> bool
    requires { Sound book.now × Referable t (book_of book.now) × (columns.now ≡ listed (book_of book.now).edition t) }
    ensures { result ≡ lawful t (book_of book.now) row }
{
    rest_zero(t.kept(), row)
        && in_ranges(t, columns, row)
        && !rules::time_fault(t, row)
        && rules::unknown_reference(book, t, row).is_ok()
}

fn lawful_rows(book: &[Row], t: Table) -> bool
    requires { Sound book.now × Referable t (book_of book.now) }
    ensures { result ≡ all (lawful t (book_of book.now)) (rows t (book_of book.now)) }
{
    let edition = book::edition_of(book);
    let columns = t.column_rules(edition);
    for row in book::rows_of(book, t) {
        if !is_lawful(book, t, &columns, *row) {
            return false;
        }
    }
    true
}

// Whether a part of the book holds its table.
fn holding(book: &[Row], t: Table) -> bool
    requires { length book.now ≡ book_rows }
    ensures { result ≡ holds (key_width t) (part t book.now) }
{
    rows::holding(book::table_of(book, t), t.keys())
}

// Whether the row of marks is that of an edition.
fn marked(book: &[Row]) -> bool
    requires { length book.now ≡ book_rows }
    ensures { result ≡ same (get_or book.now marks_at []) (marks (book_of book.now).edition) }
{
    let row = book[MARKS];
    row[0] <= book::MARK_23 && rest_zero(1, row)
}

// Whether a slice holds the tables and an edition, where nobody vouches for it.
fn all_tables(book: &[Row]) -> bool
    ensures { (result ≡ true → Sound book.now) × (result ≡ false → keeps_rule book.now ≡ false) }
{
    if book.len() != BOOK_ROWS || !marked(book) {
        return false;
    }
    for t in &Table::ORDER {
        if !holding(book, *t) {
            return false;
        }
    }
    true
}

// 16: the test of the book rule, for any slice.
pub fn keeps_rule(book: &[Row]) -> bool
    ensures { result ≡ keeps_rule book.now }
{
    if !all_tables(book) {
        return false;
    }
    for t in &Table::ORDER {
        if !lawful_rows(book, *t) {
            return false;
        }
    }
    true
}
