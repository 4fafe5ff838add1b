// Which days are of a span, and what a type's blocks run on a day, tallied by day type.
#![tactic(auto)]

ghost use Rattle.std.specs.Prelude.{◌≡◌, true, ◌+◌, ◌*◌, ◌≤◌, ◌<◌, length};
ghost use Rattle.words.specs.Words.{whether◌then◌else◌};
ghost use Rattle.rows.specs.Rows.{column};
ghost use Rattle.book.specs.Room.{book_of};
ghost use Rattle.rules.specs.Rules.{seconds};
ghost use Rattle.keeping.specs.Keeping.{keeps_rule};
ghost use Rattle.questions.specs.Questions.{of_type};
ghost use Rattle.day_tally.specs.Days.{in_span};
ghost use Rattle.day_tally.specs.Tally.{seconds_at, held, shares, added, last_of, Rises, Tallied};

use rows::Row;
use tables::Table;

// A day type, and what blocks of it run.
pub type Share = [u64; 2];

// The room of a tally. Day type 0 stands first, without seconds, so that no tally is empty; there are no more others than blocks.
pub const SHARES: usize = 513;

// Whether a row of the calendar is of this version, on a day of the span.
pub fn in_span(row: Row, version: u64, first: u64, last: u64) -> bool
    ensures { result ≡ in_span first last version row }
{
    row[0] == version && first <= row[1] && row[1] <= last
}

// Seconds of a day type more, where it is the last one or comes behind it.
fn add(tally: &mut [Share], at: usize, kind: u64, more: u64) -> usize
    requires { (at + 1 < length tally.old) × (seconds_at tally.old at ≤ 512 * 999999) × (more ≤ 999999) }
    ensures { (tally.new ≡ added at kind more tally.old) × (result ≡ last_of at kind tally.old) }
{
    let last = tally[at];
    if last[0] == kind {
        tally[at] = [kind, last[1] + more];
        return at;
    }
    tally[at + 1] = [kind, more];
    at + 1
}

// A block more, where it is of the type.
fn add_block(tally: &mut [Share], at: usize, row: Row, version: u64, number: u64) -> usize
    requires { (at + 1 < length tally.old) × (seconds_at tally.old at ≤ 512 * 999999) × (seconds row ≤ 999999) }
    ensures { (tally.new ≡ (whether of_type version number row then added at (column 2 row) (seconds row) tally.old else tally.old)) × (result ≡ (whether of_type version number row then last_of at (column 2 row) tally.old else at)) }
{
    if !questions::of_type(row, version, number) {
        return at;
    }
    let more = questions::seconds_of(row);
    add(tally, at, row[1], more)
}

// What the blocks of a type run on a day of each day type. A version's blocks stand by rising day type, so each block is of the last day type or of
// the next one. The last place of the tally is given back.
pub fn tally_blocks(book: &[Row], version: u64, number: u64, tally: &mut [Share]) -> usize
    requires { (keeps_rule book.now ≡ true) × (length tally.old ≡ 513) }
    ensures { Tallied version number (book_of book.now).blocks tally.new result }
{
    let n = book::count_rows(book, Table::Block);
    tally[0] = [0, 0];
    let mut at = 0;
    for i in 0..n {
        let row = book::row_at(book, Table::Block, i);
        at = add_block(tally, at, row, version, number);
    }
    at
}

// What a tally's blocks run on a day of a day type. (By halving.)
pub fn seconds_on(tally: &[Share], at: usize, kind: u64) -> u64
    requires { Rises tally.now at × (at < length tally.now) }
    ensures { result ≡ held kind (shares tally.now at) }
{
    let mut low = 0;
    let mut high = at + 1;
    'shares: while low < high {
        let half = low + ((high - low) >> 1);
        let share = tally[half];
        if share[0] == kind {
            return share[1];
        }
        if share[0] < kind {
            low = half + 1;
        } else {
            high = half;
        }
    }
    0
}
