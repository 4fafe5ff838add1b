// A line of a slip taken on the blocks as they stand on the shelf.
#![tactic(auto)]

ghost use Rattle.std.specs.Prelude.{◌≡◌, true};
ghost use Rattle.refusals.specs.Verdicts.{◌when◌, ends_early, ◌⊳◌};
ghost use Rattle.fields.specs.Fields.{fields};
ghost use Rattle.tables.specs.Listing.{listed};
ghost use Rattle.book.specs.Room.{book_of};
ghost use Rattle.book.specs.Holding.{Sound};
ghost use Rattle.rules.specs.Rules.{time_fault, unknown};
ghost use Rattle.rules.specs.Points.{points_named};
ghost use Rattle.intake.specs.Shelving.{OnShelf};
ghost use Rattle.slip_line.specs.Marks.{FieldsOf};
ghost use Rattle.slip_line.specs.SlipLine.{wish};
ghost use Rattle.block_change.specs.Taking.{Taken};

use fields::Fields;
use refusals::{Check, Fault};
use rows::{NUMBERS, ROWS, Row};
use slip_line::Wish;
use tables::{Columns, Table};
use values::Judged;

// A slip line, taken or refused: what its checks find, and how many blocks stand then.
#[derive(Clone, Copy)]
pub struct Told {
    pub check: Check,
    pub count: usize,
}

// 11
fn early(row: Row) -> Check
    ensures { result ≡ ends_early when time_fault Table.Block row }
{
    if rules::time_fault(Table::Block, row) {
        return Err(Fault::ends_early());
    }
    Ok(())
}

// 5, what is wrong with a field, and the rules of a row that a reading has too.
fn add_block(
    line: &[u8],
    marks: Fields,
    columns: &Columns,
    book: &[Row],
    slots: &mut [Row],
    order: &mut [u16],
    n: usize,
) -> Told
    requires { FieldsOf line.now marks × (wish (fields line.now) ≡ Wish.Add) × OnShelf Table.Block book.now slots.old order.old n × (columns.now ≡ listed (book_of book.now).edition Table.Block) }
    ensures { Taken line.now book.now slots.old slots.new order.old order.new n result }
{
    if n == ROWS {
        return Told {
            check: Err(Fault::too_many_rows()),
            count: n,
        };
    }
    let read = slip_line::read_fields(line, marks, columns, NUMBERS);
    let row = read.row;
    let fields = read.check;
    match fields {
        Ok(()) => {
            let rules = intake::enter(book, Table::Block, row, slots, order, n);
            match rules {
                Ok(()) => Told {
                    check: Ok(()),
                    count: n + 1,
                },
                Err(fault) => Told {
                    check: Err(fault),
                    count: n,
                },
            }
        }
        Err(fault) => Told {
            check: Err(fault),
            count: n,
        },
    }
}

// What is wrong with a field, 11, 13, 10, where it is known whether the block is missing.
fn judge_replace(read: Judged, missing: Check, book: &[Row]) -> Check
    requires { Sound book.now × (points_named (book_of book.now) ≡ true) }
    ensures { result ≡ read.check ⊳ (ends_early when time_fault Table.Block read.row ⊳ (missing ⊳ unknown Table.Block read.row (book_of book.now))) }
{
    let row = read.row;
    let fields = read.check;
    let references = rules::unknown_reference(book, Table::Block, row);
    fields.and(early(row).and(missing.and(references)))
}

// A line that replaces a block: its row comes into the slot of the block's key.
fn replace_block(
    line: &[u8],
    marks: Fields,
    columns: &Columns,
    book: &[Row],
    slots: &mut [Row],
    order: &[u16],
    n: usize,
) -> Told
    requires { FieldsOf line.now marks × (wish (fields line.now) ≡ Wish.Replace) × OnShelf Table.Block book.now slots.old order.now n × (columns.now ≡ listed (book_of book.now).edition Table.Block) }
    ensures { Taken line.now book.now slots.old slots.new order.now order.now n result }
{
    let read = slip_line::read_fields(line, marks, columns, NUMBERS);
    let row = read.row;
    match intake::spot_of(Table::Block, &slots[..], order, n, &row) {
        Ok(at) => {
            let check = judge_replace(read, Ok(()), book);
            match check {
                Ok(()) => {
                    shelf::set_slot(slots, order, n, at, row);
                    Told {
                        check: Ok(()),
                        count: n,
                    }
                }
                Err(fault) => Told {
                    check: Err(fault),
                    count: n,
                },
            }
        }
        Err(_) => Told {
            check: judge_replace(read, Err(Fault::no_block()), book),
            count: n,
        },
    }
}

// What is wrong with a field, 13: a line that deletes a block frees its slot. (Nothing of the book is looked at; the contract speaks of it.)
fn delete_block(
    line: &[u8],
    marks: Fields,
    columns: &Columns,
    book: &[Row],
    slots: &[Row],
    order: &mut [u16],
    n: usize,
) -> Told
    requires { FieldsOf line.now marks × (wish (fields line.now) ≡ Wish.Delete) × OnShelf Table.Block book.now slots.now order.old n × (columns.now ≡ listed (book_of book.now).edition Table.Block) }
    ensures { Taken line.now book.now slots.now slots.now order.old order.new n result }
{
    let read = slip_line::read_fields(line, marks, columns, Table::BLOCK_KEY);
    let row = read.row;
    let fields = read.check;
    match intake::spot_of(Table::Block, slots, &order[..], n, &row) {
        Ok(at) => match fields {
            Ok(()) => {
                shelf::free_slot(order, n, at);
                Told {
                    check: Ok(()),
                    count: n - 1,
                }
            }
            Err(fault) => Told {
                check: Err(fault),
                count: n,
            },
        },
        Err(_) => Told {
            check: fields.and(Err(Fault::no_block())),
            count: n,
        },
    }
}

// 12, then the checks of its kind: a line on the blocks as they stand on the shelf, which it changes where it passes.
pub fn take_slip_line(
    line: &[u8],
    columns: &Columns,
    book: &[Row],
    slots: &mut [Row],
    order: &mut [u16],
    n: usize,
) -> Told
    requires { OnShelf Table.Block book.now slots.old order.old n × (columns.now ≡ listed (book_of book.now).edition Table.Block) }
    ensures { Taken line.now book.now slots.old slots.new order.old order.new n result }
{
    let marks = fields::fields_of(line);
    match slip_line::wish_of(line, marks) {
        Wish::Add => add_block(line, marks, columns, book, slots, order, n),
        Wish::Replace => replace_block(line, marks, columns, book, slots, &order[..], n),
        Wish::Delete => delete_block(line, marks, columns, book, &slots[..], order, n),
        Wish::Unknown => Told {
            check: Err(Fault::unknown_line()),
            count: n,
        },
    }
}
