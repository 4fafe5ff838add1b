// What a type's blocks run in a season: from a first day to a last one, by the calendar.
#![tactic(auto)]

ghost use Rattle.std.specs.Prelude.{Err, ◌≡◌, true, ◌&&◌, ℕ, ◌*◌, ◌≤◌, ◌<◌, length};
ghost use Rattle.refusals.specs.Verdicts.{nowhere};
ghost use Rattle.dates.specs.Calendar.{is_date};
ghost use Rattle.book.specs.Room.{book_of};
ghost use Rattle.keeping.specs.Keeping.{keeps_rule};
ghost use Rattle.day_tally.specs.Tally.{held, shares, Rises};
ghost use Rattle.seasons.specs.Seasons.{season};
ghost use Rattle.seasons.specs.Calls.{season_answered, SeasonPermits};
ghost use Rattle.seasons.specs.Summing.{on_day, on_days};

use day_tally::{SHARES, Share};
use refusals::{Fault, Place, Verdict};
use rows::Row;
use tables::Table;

// The answer for a type and a span: what its blocks run in it.
#[derive(Clone, Copy)]
pub struct SeasonAnswer {
    pub verdict: Verdict,
    pub seconds: u64,
}

// What a tally's blocks run on the day of a row of the calendar.
fn on_day(tally: &[Share], at: usize, day: Row, version: u64, first: u64, last: u64) -> u64
    requires { Rises tally.now at × (at < length tally.now) }
    ensures { result ≡ on_day first last version (shares tally.now at) day }
{
    if day_tally::in_span(day, version, first, last) {
        day_tally::seconds_on(tally, at, day[2])
    } else {
        0
    }
}

// What a tally's blocks run on all days of the calendar. 512 blocks of less than 1,000,000 seconds on 800 days stay below 2 to the 39th.
fn days_summed(book: &[Row], tally: &[Share], at: usize, version: u64, first: u64, last: u64) -> u64
    requires { (keeps_rule book.now ≡ true) × Rises tally.now at × (at < length tally.now) × ((kind : ℕ) → held kind (shares tally.now at) ≤ 512 * 999999) }
    ensures { result ≡ on_days first last version (shares tally.now at) (book_of book.now).days }
{
    let days = book::rows_of(book, Table::Calendar);
    let mut sum: u64 = 0;
    for day in days {
        sum += on_day(tally, at, *day, version, first, last);
    }
    sum
}

// What a type's blocks run in a span: their seconds by day type first, in one go over the blocks, and then one go over the days. Nothing is multiplied:
// each day adds what runs on it.
pub fn season_of(book: &[Row], version: u64, number: u64, first: u64, last: u64) -> u64
    requires { keeps_rule book.now ≡ true }
    ensures { result ≡ season first last version number (book_of book.now).blocks (book_of book.now).days }
{
    let mut tally = [[0u64; 2]; SHARES];
    let at = day_tally::tally_blocks(book, version, number, &mut tally);
    days_summed(book, &tally, at, version, first, last)
}

// Whether both ends of a span are dates.
fn are_dates(first: u64, last: u64) -> bool
    ensures { result ≡ (is_date first && is_date last) }
{
    dates::is_date(first) && dates::is_date(last)
}

// A refusal with zero for its number.
fn no_season(fault: Fault) -> SeasonAnswer
    ensures { result ≡ season_answered (nowhere (Err fault)) 0 }
{
    SeasonAnswer {
        verdict: Err(fault.on(Place::NO_TABLE, Place::NO_LINE)),
        seconds: 0,
    }
}

// 16, 15, 23, or what a type's blocks run from the first day to the last, both included.
pub fn season_answer(book: &[Row], version: u64, number: u64, first: u64, last: u64) -> SeasonAnswer
    ensures { SeasonPermits book.now version number first last result }
{
    if !keeping::keeps_rule(book) {
        return no_season(Fault::bad_loan());
    }
    if !book::knowing(book, Table::VehicleType, book::key(version, number)) {
        return no_season(Fault::not_there());
    }
    if !are_dates(first, last) {
        return no_season(Fault::no_date());
    }
    let seconds = season_of(book, version, number, first, last);
    SeasonAnswer {
        verdict: Ok(()),
        seconds,
    }
}
