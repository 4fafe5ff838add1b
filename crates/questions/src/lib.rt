// What the book is asked: the blocks of a type, and a block.
#![tactic(auto)]

ghost use Rattle.std.specs.Prelude.{Err, ◌≡◌, true, [], ◌∷◌};
ghost use Rattle.refusals.specs.Verdicts.{nowhere};
ghost use Rattle.rows.specs.Rows.{wide, found};
ghost use Rattle.rows.specs.Spots.{row_of};
ghost use Rattle.tables.specs.Columns.{key_width};
ghost use Rattle.book.specs.Room.{book_of};
ghost use Rattle.book.specs.Holding.{Sound};
ghost use Rattle.rules.specs.Rules.{seconds};
ghost use Rattle.keeping.specs.Keeping.{keeps_rule};
ghost use Rattle.questions.specs.Questions.{of_type, seconds_of, count_of, seven};
ghost use Rattle.questions.specs.Calls.{type_answered, block_answered, TypePermits, BlockPermits};

use refusals::{Fault, Place, Verdict};
use rows::Row;
use rules::DAY;
use tables::Table;

// The answer for a type: its blocks' seconds, and how many they are.
#[derive(Clone, Copy)]
pub struct TypeAnswer {
    pub verdict: Verdict,
    pub seconds: u64,
    pub count: u64,
}

// The answer for a block: its columns 5 to 11.
#[derive(Clone, Copy)]
pub struct BlockAnswer {
    pub verdict: Verdict,
    pub numbers: [u64; 7],
}

// What the blocks of a type come to.
#[derive(Clone, Copy)]
pub struct Totals {
    pub seconds: u64,
    pub count: u64,
}

pub fn of_type(row: Row, version: u64, number: u64) -> bool
    ensures { result ≡ of_type version number row }
{
    row[0] == version && row[4] == number
}

// The seconds of a block. As in the definition, nothing is asked of the row: an end below its begin that is 11 leaves 0.
pub fn seconds_of(row: Row) -> u64
    ensures { result ≡ seconds row }
{
    if rules::overnight(row) {
        row[10] + DAY - row[7]
    } else {
        row[10].saturating_sub(row[7])
    }
}

// Seconds and count of a type's blocks, summed up anew for each question.
pub fn blocks_summed(book: &[Row], version: u64, number: u64) -> Totals
    requires { keeps_rule book.now ≡ true }
    ensures { (result.seconds ≡ seconds_of version number (book_of book.now).blocks) × (result.count ≡ count_of version number (book_of book.now).blocks) }
{
    let mut seconds: u64 = 0;
    let mut count: u64 = 0;
    for row in book::rows_of(book, Table::Block) {
        if of_type(*row, version, number) {
            seconds += seconds_of(*row);
            count += 1;
        }
    }
    Totals { seconds, count }
}

// A refusal with zeros for numbers.
fn no_type(fault: Fault) -> TypeAnswer
    ensures { result ≡ type_answered (nowhere (Err fault)) 0 0 }
{
    TypeAnswer {
        verdict: Err(fault.on(Place::NO_TABLE, Place::NO_LINE)),
        seconds: 0,
        count: 0,
    }
}

// 16, 15, or seconds and count of a type's blocks.
pub fn type_answer(book: &[Row], version: u64, number: u64) -> TypeAnswer
    ensures { TypePermits book.now version number result }
{
    if !keeping::keeps_rule(book) {
        return no_type(Fault::bad_loan());
    }
    if !book::knowing(book, Table::VehicleType, book::key(version, number)) {
        return no_type(Fault::not_there());
    }
    let found = blocks_summed(book, version, number);
    TypeAnswer {
        verdict: Ok(()),
        seconds: found.seconds,
        count: found.count,
    }
}

fn block_key(version: u64, day_type: u64, depot: u64, block: u64) -> Row
    ensures { result ≡ wide (version ∷ day_type ∷ depot ∷ block ∷ []) }
{
    [version, day_type, depot, block, 0, 0, 0, 0, 0, 0, 0]
}

// The block of a key, or zeros.
fn block_of(book: &[Row], row: Row) -> Row
    requires { Sound book.now }
    ensures { result ≡ row_of (found (key_width Table.Block) row (book_of book.now).blocks) }
{
    let k = Table::Block.keys();
    let table = book::table_of(book, Table::Block);
    rows::row_of(table, k, row)
}

// A block's columns 5 to 11, place by place: the check does not cover a pattern that takes the rest of an array, and a copy over zeros is no plainer.
fn seven_numbers(row: Row) -> [u64; 7]
    ensures { result ≡ seven row }
{
    [row[4], row[5], row[6], row[7], row[8], row[9], row[10]]
}

fn no_block(fault: Fault) -> BlockAnswer
    ensures { result ≡ block_answered (nowhere (Err fault)) (0 ∷ 0 ∷ 0 ∷ 0 ∷ 0 ∷ 0 ∷ 0 ∷ []) }
{
    BlockAnswer {
        verdict: Err(fault.on(Place::NO_TABLE, Place::NO_LINE)),
        numbers: [0; 7],
    }
}

// 16, 15, or a block's seven numbers behind its key.
pub fn block_answer(
    book: &[Row],
    version: u64,
    day_type: u64,
    depot: u64,
    block: u64,
) -> BlockAnswer
    ensures { BlockPermits book.now version day_type depot block result }
{
    if !keeping::keeps_rule(book) {
        return no_block(Fault::bad_loan());
    }
    let key = block_key(version, day_type, depot, block);
    if !book::knowing(book, Table::Block, key) {
        return no_block(Fault::not_there());
    }
    BlockAnswer {
        verdict: Ok(()),
        numbers: seven_numbers(block_of(book, key)),
    }
}
