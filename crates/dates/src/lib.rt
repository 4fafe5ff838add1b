// The Gregorian calendar of the years 1600 to 9999, told without a division.
#![tactic(auto)]

ghost use Rattle.std.specs.Prelude.{◌≡◌, ◌≤◌, ◌<◌, ◌+◌, ◌*◌, ◌^◌, ◌%◌, eqb, get_or};
ghost use Rattle.dates.specs.Calendar.{leap, month_days, days_in, is_date};

// The first and the last number whose first four digits are one of those years, with four digits behind them.
const FIRST: u64 = 16000000;

const LAST: u64 = 99999999;

// The two digits of n at a power of ten and above it, taken off one by one, and what is left below the power.
fn two_digits(n: u64, power: u64) -> (u64, u64)
    requires { (n < 100 * power) × (power ≤ 10 ^ 17) }
    ensures { (result.0 * power + result.1 ≡ n) × (result.1 < power) × (result.0 < 100) }
{
    let tens = numbers::digit_of(n, power * 10);
    let ones = numbers::digit_of(tens.left, power);
    (
        u64::from(tens.digit) * 10 + u64::from(ones.digit),
        ones.left,
    )
}

// Whether n is a multiple of four: nothing is lost with its last two bits.
fn by_four(n: u64) -> bool
    ensures { result ≡ eqb (n % 4) 0 }
{
    (n >> 2) * 4 == n
}

// Whether a year has a 29 February, by its hundreds and its last two digits. 100 is a multiple of four, so the last two tell, unless they are 0.
fn is_leap(century: u64, year: u64) -> bool
    requires { year < 100 }
    ensures { result ≡ leap (century * 100 + year) }
{
    by_four(if year == 0 { century } else { year })
}

// How long a month of any year is, 29 February left out. What is no month has no days.
fn month_days(month: u64) -> u64
    ensures { result ≡ get_or month_days month 0 }
{
    match month {
        1 | 3 | 5 | 7 | 8 | 10 | 12 => 31,
        4 | 6 | 9 | 11 => 30,
        2 => 28,
        _ => 0,
    }
}

// How long a month is.
fn days_in(century: u64, year: u64, month: u64) -> u64
    requires { year < 100 }
    ensures { result ≡ days_in (century * 100 + year) month }
{
    if month == 2 && is_leap(century, year) {
        29
    } else {
        month_days(month)
    }
}

// Whether YYYYMMDD is a date of the years 1600 to 9999. The years are tested first, on the whole number: it then has the eight digits that are taken off.
pub fn is_date(n: u64) -> bool
    ensures { result ≡ is_date n }
{
    if n < FIRST || LAST < n {
        return false;
    }
    let (century, rest) = two_digits(n, 1000000);
    let (year, rest) = two_digits(rest, 10000);
    let (month, day) = two_digits(rest, 100);
    1 <= day && day <= days_in(century, year, month)
}
