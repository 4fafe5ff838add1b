// What the ledger is handed: a type's hours, and the hours of a season.
#![tactic(auto)]

ghost use Rattle.std.specs.Prelude.{◌≡◌, true};
ghost use Rattle.book.specs.Room.{book_of};
ghost use Rattle.keeping.specs.Keeping.{keeps_rule};
ghost use Rattle.hour_numbers.specs.Hours.{clerk};
ghost use Rattle.hours.specs.Calls.{seconds_each, HoursPermits, SeasonHoursPermits};

use refusals::Verdict;
use rows::Row;
use tables::Table;

// The answer for a type: its seconds in hours, and its blocks' hours summed as the ledger clerk does.
#[derive(Clone, Copy)]
pub struct HoursAnswer {
    pub verdict: Verdict,
    pub hours: f64,
    pub summed: f64,
}

// The answer for a type and a span: what its blocks run in it, in hours.
#[derive(Clone, Copy)]
pub struct SeasonHours {
    pub verdict: Verdict,
    pub hours: f64,
}

// As the ledger clerk sums: each block's hours rounded, added in rising key order. The bits depend on the order.
fn hours_summed(book: &[Row], version: u64, number: u64) -> f64
    requires { keeps_rule book.now ≡ true }
    ensures { result ≡ clerk (seconds_each version number (book_of book.now).blocks) }
{
    let blocks = book::rows_of(book, Table::Block);
    let mut sum = 0.0;
    for row in blocks {
        if questions::of_type(*row, version, number) {
            sum += hour_numbers::hours(questions::seconds_of(*row));
        }
    }
    sum
}

// 16, 15, or a type's hours twice: of its seconds together, and of its blocks one by one. A refused type has no seconds, and those are 0.0 hours.
pub fn type_hours(book: &[Row], version: u64, number: u64) -> HoursAnswer
    ensures { HoursPermits book.now version number result }
{
    let found = questions::type_answer(book, version, number);
    let verdict = found.verdict;
    let hours = hour_numbers::hours(found.seconds);
    match verdict {
        Ok(()) => {
            let summed = hours_summed(book, version, number);
            HoursAnswer {
                verdict,
                hours,
                summed,
            }
        }
        Err(_) => HoursAnswer {
            verdict,
            hours,
            summed: 0.0,
        },
    }
}

// 16, 15, 23, or the hours that a type's blocks run from the first day to the last, both included.
pub fn season_hours(book: &[Row], version: u64, number: u64, first: u64, last: u64) -> SeasonHours
    ensures { SeasonHoursPermits book.now version number first last result }
{
    let found = seasons::season_answer(book, version, number, first, last);
    let verdict = found.verdict;
    let hours = hour_numbers::hours(found.seconds);
    SeasonHours { verdict, hours }
}
