// A table read: its top, its lines, and the book that they leave.
#![tactic(auto)]

ghost use Rattle.std.specs.Prelude.{◌≡◌, true, ◌<◌, ◌+◌, ◌^◌, length};
ghost use Rattle.tables.specs.Parts.{room};
ghost use Rattle.book.specs.Holding.{Sound, result_of};
ghost use Rattle.book.specs.Room.{book_of};
ghost use Rattle.rules.specs.Points.{points_named, NamedIn};
ghost use Rattle.row_line.specs.Judging.{Guided};
ghost use Rattle.table_reading.specs.Taking.{RowsTaken, LineTaken};
ghost use Rattle.table_reading.specs.Reading.{table_read};

use header::{BOUNDS, Places};
use refusals::Verdict;
use rows::Row;
use table_lines::Reached;
use tables::{Columns, DAYS, Table};

// Rows taken: what they are refused for, and the number of the next line where they are not.
#[derive(Clone, Copy)]
pub struct Taken {
    pub verdict: Verdict,
    pub line: u64,
}

// The rows of a text, from any line on, into their table. They stand on a shelf while they are read, since a row that comes before others
// would move these in the book. A refused table leaves the book as it was.
fn shelve_rows(
    bytes: &[u8],
    first: u64,
    t: Table,
    columns: &Columns,
    at: &Places,
    book: &mut [Row],
    slots: &mut [Row],
    order: &mut [u16],
) -> Taken
    requires { Guided (book_of book.old).edition t columns.now at.now × Sound book.old × (points_named (book_of book.old) ≡ true) × (first + length bytes.now + 1 < 2 ^ 64) × (length slots.old ≡ room t) × (length order.old ≡ room t) }
    ensures { RowsTaken t at.now bytes.now first book.old book.new result }
{
    let n = intake::shelve(&book[..], t, slots, order);
    let filled = table_lines::take_lines(
        bytes,
        Reached {
            line: first,
            count: n,
        },
        t,
        columns,
        at,
        &book[..],
        slots,
        order,
    );
    let verdict = filled.verdict;
    let line = filled.line;
    let count = filled.count;
    match verdict {
        Ok(()) => {
            intake::lay_table(book, t, &slots[..], &order[..], count);
            Taken {
                verdict: Ok(()),
                line,
            }
        }
        Err(p) => Taken {
            verdict: Err(p),
            line,
        },
    }
}

// The same, on a shelf of the table's room.
pub fn take_rows(
    bytes: &[u8],
    first: u64,
    t: Table,
    columns: &Columns,
    at: &Places,
    book: &mut [Row],
) -> Taken
    requires { Guided (book_of book.old).edition t columns.now at.now × Sound book.old × (points_named (book_of book.old) ≡ true) × (first + length bytes.now + 1 < 2 ^ 64) }
    ensures { RowsTaken t at.now bytes.now first book.old book.new result }
{
    let mut slots = [[0u64; 11]; DAYS];
    let mut order = [0u16; DAYS];
    let room = t.room();
    shelve_rows(
        bytes,
        first,
        t,
        columns,
        at,
        book,
        &mut slots[..room],
        &mut order[..room],
    )
}

// One line as it is, wherever its line feed is, into its table. A refused line leaves the book as it was.
fn shelve_line(
    line: &[u8],
    i: u64,
    t: Table,
    columns: &Columns,
    at: &Places,
    book: &mut [Row],
    slots: &mut [Row],
    order: &mut [u16],
) -> Verdict
    requires { Guided (book_of book.old).edition t columns.now at.now × Sound book.old × (points_named (book_of book.old) ≡ true) × (length slots.old ≡ room t) × (length order.old ≡ room t) }
    ensures { LineTaken t at.now line.now i book.old book.new result }
{
    let edition = book::edition_of(&book[..]);
    let mut bounds = [0usize; BOUNDS];
    let n = intake::shelve(&book[..], t, slots, order);
    let read = row_line::read_row(line, edition, t, columns, at, &mut bounds);
    let check = table_lines::take_row(read, t, &book[..], slots, order, n);
    refusals::placed(check, t.number(), i)?;
    intake::lay_table(book, t, &slots[..], &order[..], n + 1);
    Ok(())
}

// The same, on a shelf of the table's room.
pub fn take_line(
    line: &[u8],
    i: u64,
    t: Table,
    columns: &Columns,
    at: &Places,
    book: &mut [Row],
) -> Verdict
    requires { Guided (book_of book.old).edition t columns.now at.now × Sound book.old × (points_named (book_of book.old) ≡ true) }
    ensures { LineTaken t at.now line.now i book.old book.new result }
{
    let mut slots = [[0u64; 11]; DAYS];
    let mut order = [0u16; DAYS];
    let room = t.room();
    shelve_line(
        line,
        i,
        t,
        columns,
        at,
        book,
        &mut slots[..room],
        &mut order[..room],
    )
}

// The top of a text, then its rows.
pub fn take_table(bytes: &[u8], t: Table, book: &mut [Row]) -> Verdict
    requires { Sound book.old × (points_named (book_of book.old) ≡ true) }
    ensures { Sound book.new × (result_of result book.new ≡ table_read t bytes.now (book_of book.old)) × NamedIn (result_of result book.new) }
{
    let edition = book::edition_of(&book[..]);
    let columns = t.column_rules(edition);
    let top = header::read_top(bytes, edition, t, &columns);
    top.verdict?;
    let at = top.at;
    let taken = take_rows(&bytes[top.next..], top.line, t, &columns, &at, book);
    taken.verdict
}
