// The lines of a table, judged in turn and taken onto its shelf.
#![tactic(auto)]

ghost use Rattle.std.specs.Prelude.{◌<◌, ◌+◌, ◌^◌, length};
ghost use Rattle.book.specs.Room.{book_of};
ghost use Rattle.intake.specs.Shelving.{OnShelf};
ghost use Rattle.row_line.specs.Judging.{Guided};
ghost use Rattle.table_lines.specs.Taking.{ReadBy, RowTaken, LinesTaken};

use header::{BOUNDS, Places};
use refusals::{Check, Fault, Verdict};
use rows::Row;
use tables::{Columns, Table};
use values::Judged;

// How far the lines of a table are taken: the number of the next one, and how many rows stand on the shelf.
#[derive(Clone, Copy)]
pub struct Reached {
    pub line: u64,
    pub count: usize,
}

// Lines of a table taken onto its shelf: what they are refused for, and how far they reach where they are not.
#[derive(Clone, Copy)]
pub struct Filled {
    pub verdict: Verdict,
    pub line: u64,
    pub count: usize,
}

// 5, what the line was judged, and 11, 9, 10: a line on the book as the earlier ones left it; where it passes, its row enters the shelf.
pub fn take_row(
    read: Judged,
    t: Table,
    book: &[Row],
    slots: &mut [Row],
    order: &mut [u16],
    n: usize,
) -> Check
    requires { OnShelf t book.now slots.old order.old n × ReadBy (book_of book.now).edition t read }
    ensures { RowTaken t read book.now slots.old slots.new order.old order.new n result }
{
    if n == t.room() {
        return Err(Fault::too_many_rows());
    }
    read.check?;
    intake::enter(book, t, read.row, slots, order, n)
}

// Lines behind the header, from any one on, onto the shelf; the first refusal ends it.
pub fn take_lines(
    bytes: &[u8],
    from: Reached,
    t: Table,
    columns: &Columns,
    at: &Places,
    book: &[Row],
    slots: &mut [Row],
    order: &mut [u16],
) -> Filled
    requires { Guided (book_of book.now).edition t columns.now at.now × OnShelf t book.now slots.old order.old from.count × (from.line + length bytes.now + 1 < 2 ^ 64) }
    ensures { LinesTaken t at.now bytes.now from book.now slots.old slots.new order.old order.new result }
{
    let edition = book::edition_of(book);
    let table = t.number();
    let mut bounds = [0usize; BOUNDS];
    let mut verdict = Ok(());
    let mut count = from.count;
    let mut line = from.line;
    let mut i = 0;
    'rows: while i < bytes.len() {
        let l = lines::next_line(edition, bytes, i);
        let end = l.end;
        let next = l.next;
        let read = row_line::read_row(&bytes[i..end], edition, t, columns, at, &mut bounds);
        let check = take_row(read, t, book, slots, order, count);
        let v = refusals::placed(check, table, line);
        match v {
            Ok(()) => {}
            Err(p) => {
                verdict = Err(p);
                break 'rows;
            }
        }
        count += 1;
        line = lines::line_after(edition, line, &bytes[i..end]);
        i = next;
    }
    Filled {
        verdict,
        line,
        count,
    }
}
