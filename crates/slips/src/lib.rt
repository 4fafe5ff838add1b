// Correction slips, each taken whole or not at all.
#![tactic(auto)]

ghost use Rattle.std.specs.Prelude.{◌≡◌, true, ◌≤◌, length};
ghost use Rattle.lines.specs.Lines.{slip_lines, most_bytes};
ghost use Rattle.tables.specs.Listing.{listed};
ghost use Rattle.book.specs.Room.{book_of};
ghost use Rattle.book.specs.Holding.{Sound};
ghost use Rattle.rules.specs.Points.{points_named};
ghost use Rattle.intake.specs.Shelving.{OnShelf, shelf_book};
ghost use Rattle.slips.specs.Taking.{LinesTaken, behind};
ghost use Rattle.slips.specs.Calls.{outcome, work_rows, cleared, slip_outcome, slip_call, SlipPermits};
ghost use Rattle.slips.specs.Slips.{lines_posted};

use lines::MOST_BYTES;
use refusals::{Fault, Place, Verdict};
use rows::{ROWS, Row};
use tables::{Columns, Table};

// The lines of a slip: their verdict, and how many blocks stand then.
#[derive(Clone, Copy)]
pub struct Posted {
    pub verdict: Verdict,
    pub count: usize,
}

// The lines of a slip, each on what the earlier ones left; the first refusal ends it.
fn take_lines(
    slip: &[u8],
    columns: &Columns,
    book: &[Row],
    slots: &mut [Row],
    order: &mut [u16],
    n: usize,
) -> Posted
    requires { OnShelf Table.Block book.now slots.old order.old n × (length slip.now ≤ most_bytes) × (columns.now ≡ listed (book_of book.now).edition Table.Block) }
    ensures { LinesTaken slip.now book.now slots.old slots.new order.old order.new n result }
{
    let mut verdict = Ok(());
    let mut count = n;
    let mut at: usize = 0;
    let mut number: u64 = 1;
    'lines: while at < slip.len() {
        let here = lines::next_slip_line(slip, at);
        let end = here.end;
        let told = block_change::take_slip_line(&slip[at..end], columns, book, slots, order, count);
        let check = told.check;
        match refusals::placed(check, Place::SLIP, number) {
            Ok(()) => {}
            Err(place) => {
                verdict = Err(place);
                break 'lines;
            }
        }
        count = told.count;
        at = here.next;
        number += 1;
    }
    Posted { verdict, count }
}

// The blocks of the shelf into the book, where the slip is accepted.
fn lay_accepted(verdict: Verdict, book: &mut [Row], slots: &[Row], order: &[u16], n: usize)
    requires { OnShelf Table.Block book.old slots.now order.now n }
    ensures { book.new ≡ behind verdict (shelf_book Table.Block book.old slots.now order.now n) book.old }
{
    match verdict {
        Ok(()) => {
            intake::lay_table(book, Table::Block, slots, order, n);
        }
        Err(_) => {}
    }
}

// All lines or none: they are taken on a shelf, so that the book is touched only where all of them pass. "Slips being judged by the
// delivery's edition, which the book keeps".
fn take_whole(slip: &[u8], book: &mut [Row], work: &mut [Row]) -> Verdict
    requires { Sound book.old × (points_named (book_of book.old) ≡ true) × (length slip.now ≤ most_bytes) × (length work.old ≡ work_rows) }
    ensures { outcome result book.new (cleared work.old) ≡ slip_outcome (lines_posted 1 (slip_lines slip.now) (book_of book.old)) book.old work.old }
{
    let edition = book::edition_of(&book[..]);
    let columns = Table::Block.column_rules(edition);
    let mut order = [0u16; ROWS];
    let n = intake::shelve(&book[..], Table::Block, work, &mut order);
    let posted = take_lines(slip, &columns, &book[..], work, &mut order, n);
    let verdict = posted.verdict;
    let count = posted.count;
    lay_accepted(verdict, book, &work[..], &order, count);
    verdict
}

// 16 of the book, 1, and the lines: with a working area of its size, whatever that holds behind them.
fn post(slip: &[u8], book: &mut [Row], work: &mut [Row]) -> Verdict
    requires { length work.old ≡ work_rows }
    ensures { outcome result book.new (cleared work.old) ≡ slip_call slip.now book.old work.old }
{
    if !keeping::keeps_rule(&book[..]) {
        return Err(Fault::bad_loan().on(Place::NO_TABLE, Place::NO_LINE));
    }
    if MOST_BYTES < slip.len() {
        return Err(Fault::text_too_long().on(Place::SLIP, Place::NO_LINE));
    }
    take_whole(slip, book, work)
}

// A slip, taken whole or not at all. The working area ends all zero; one of another length stays as it came.
pub fn slip(slip: &[u8], book: &mut [Row], work: &mut [Row]) -> Verdict
    ensures { SlipPermits slip.now book.old work.old (outcome result book.new work.new) }
{
    if work.len() != ROWS {
        return Err(Fault::bad_loan().on(Place::NO_TABLE, Place::NO_LINE));
    }
    let verdict = post(slip, book, work);
    rows::clear(work);
    verdict
}
