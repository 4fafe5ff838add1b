// A table of the book on a shelf, and a row that enters there.
#![tactic(auto)]

ghost use Rattle.std.specs.Prelude.{◌≡◌, true, false, ◌≤◌, ◌<◌, length};
ghost use Rattle.rows.specs.Rows.{rising, column};
ghost use Rattle.rows.specs.Spots.{spot};
ghost use Rattle.shelf.specs.Shelf.{shelved, Shelf};
ghost use Rattle.tables.specs.Parts.{room};
ghost use Rattle.tables.specs.Columns.{key_width};
ghost use Rattle.book.specs.Room.{book_of, laid};
ghost use Rattle.book.specs.Holding.{Sound};
ghost use Rattle.rules.specs.Points.{Referable};
ghost use Rattle.rules.specs.Rules.{time_fault};
ghost use Rattle.intake.specs.Shelving.{shelf_book, OnShelf, Entered};

use refusals::{Check, Fault};
use rows::Row;
use tables::Table;

// A table's rows onto a shelf, and how many they are.
pub fn shelve(book: &[Row], t: Table, slots: &mut [Row], order: &mut [u16]) -> usize
    requires { Sound book.now × Referable t (book_of book.now) × (length slots.old ≡ room t) × (length order.old ≡ room t) }
    ensures { OnShelf t book.now slots.new order.new result × (shelf_book t book.now slots.new order.new result ≡ book_of book.now) }
{
    let used = book::count_rows(book, t);
    let table = book::table_of(book, t);
    // Row by row, as they are laid out again: where nothing says that the two lists lie apart, as in a call from C, the library's `copy_from_slice` becomes
    // a call of `memmove`, and the library for C asks for no such function.
    for i in 0..used {
        let row = table[i];
        slots[i] = row;
    }
    shelf::number_slots(order);
    used
}

// The shelf's rows into their part of the book.
pub fn lay_table(book: &mut [Row], t: Table, slots: &[Row], order: &[u16], n: usize)
    requires { OnShelf t book.old slots.now order.now n }
    ensures { book.new ≡ laid (shelf_book t book.old slots.now order.now n) }
{
    let begin = t.begin();
    let end = begin + t.room();
    shelf::lay_out(slots, order, n, &mut book[begin..end]);
}

// Where the key of a row stands on the table's shelf (`Ok`), or would stand (`Err`). The width is a constant as in `knowing`.
pub fn spot_of(t: Table, slots: &[Row], order: &[u16], n: usize, row: &Row) -> Result<usize, usize>
    requires { Shelf slots.now order.now n × (rising (key_width t) (shelved slots.now order.now n) ≡ true) }
    ensures { result ≡ spot (key_width t) row.now (shelved slots.now order.now n) }
{
    match t {
        Table::StopPoint => shelf::seek_slot(slots, order, n, Table::POINT_KEY, row),
        Table::Block => shelf::seek_slot(slots, order, n, Table::BLOCK_KEY, row),
        _ => shelf::seek_slot(slots, order, n, Table::PAIR_KEY, row),
    }
}

// 10, and a row whose key has a gap on the shelf enters there.
fn put_row(
    book: &[Row],
    t: Table,
    row: Row,
    slots: &mut [Row],
    order: &mut [u16],
    n: usize,
    at: usize,
) -> Check
    requires { OnShelf t book.now slots.old order.old n × (n < room t) × (1 ≤ column 1 row) × (time_fault t row ≡ false) × (spot (key_width t) row (shelved slots.old order.old n) ≡ Err at) }
    ensures { Entered t row book.now slots.old slots.new order.old order.new n result }
{
    rules::unknown_reference(book, t, row)?;
    shelf::put_slot(slots, order, n, at, row);
    Ok(())
}

// 11, 9, 10, for a reading and for a slip line that adds: a row that keeps the rules enters.
pub fn enter(
    book: &[Row],
    t: Table,
    row: Row,
    slots: &mut [Row],
    order: &mut [u16],
    n: usize,
) -> Check
    requires { OnShelf t book.now slots.old order.old n × (n < room t) × (1 ≤ column 1 row) }
    ensures { Entered t row book.now slots.old slots.new order.old order.new n result }
{
    if rules::time_fault(t, row) {
        return Err(Fault::ends_early());
    }
    match spot_of(t, &slots[..], &order[..], n, &row) {
        Ok(_) => Err(Fault::key_stands()),
        Err(at) => put_row(book, t, row, slots, order, n, at),
    }
}
