// Decimal numbers, read and written.
#![tactic(auto)]

ghost use Rattle.std.specs.Prelude.{◌≡◌, ◌≤◌, ◌<◌, ◌+◌, ◌*◌, ◌^◌, length, leb};
ghost use Rattle.words.specs.Words.{whether◌then◌else◌};
ghost use Rattle.numbers.specs.Decimals.{decimal_of};
ghost use Rattle.numbers.specs.Numbers.{decimal};
ghost use Rattle.numbers.specs.Powers.{powers_of_ten};
ghost use Rattle.numbers.specs.Putting.{put};

// 10 to the 19 is the last power of ten in 64 bits.
const LAST_POWER: usize = 19;

const LAST_TEN: u64 = 10000000000000000000;

// The powers of ten below the last one, by how many digits stand behind theirs.
pub type Powers = [u64; LAST_POWER];

static POWERS: Powers = [
    1,
    10,
    100,
    1000,
    10000,
    100000,
    1000000,
    10000000,
    100000000,
    1000000000,
    10000000000,
    100000000000,
    1000000000000,
    10000000000000,
    100000000000000,
    1000000000000000,
    10000000000000000,
    100000000000000000,
    1000000000000000000,
];

// A digit, and what is left of a number below the digit's power of ten.
#[derive(Clone, Copy)]
pub struct Digit {
    pub digit: u8,
    pub left: u64,
}

// The value of 1 to `width` digits, for any width of which every number fits 64 bits.
pub fn number_of(digits: &[u8], width: usize) -> Option<u64>
    requires { width ≤ 19 }
    ensures { result ≡ decimal_of width digits.now }
{
    if digits.is_empty() || width < digits.len() {
        return None;
    }
    let mut v = 0;
    for byte in digits {
        if !byte.is_ascii_digit() {
            return None;
        }
        v = v * 10 + u64::from(*byte - b'0');
    }
    Some(v)
}

// How many digits n has.
pub fn digit_count(n: u64) -> usize
    ensures { result ≡ length (decimal n) }
{
    let mut bound = 1;
    for count in 1..=LAST_POWER {
        bound *= 10;
        if n < bound {
            return count;
        }
    }
    LAST_POWER + 1
}

// The powers where they stand: a static is read in place, and never laid out.
pub fn powers_of_ten() -> &'static Powers
    ensures { result.now ≡ powers_of_ten }
{
    &POWERS
}

// 1 where an amount is reached, 0 where it is not: a number to add up, nothing to branch on.
fn reached(amount: u64, left: u64) -> u64
    ensures { (result ≡ (whether leb amount left then 1 else 0)) × (result ≤ 1) }
{
    u64::from(amount <= left)
}

// The digit of n at a power of ten, without a division: how many fours of the power are reached, and of what is left how many ones.
pub fn digit_of(n: u64, power: u64) -> Digit
    requires { (n < 10 * power) × (power ≤ 10 ^ 18) }
    ensures { (result.digit * power + result.left ≡ n) × (result.left < power) × (result.digit < 10) }
{
    let four = power * 4;
    let fours = reached(four, n) + reached(four * 2, n);
    let rest = n - fours * four;
    let ones = reached(power, rest) + reached(power * 2, rest) + reached(power * 3, rest);
    Digit {
        digit: (fours * 4 + ones) as u8,
        left: rest - ones * power,
    }
}

// The digits of n at the head of the output, the first of them first; answers how many. Of twenty digits the first is 1, and the last digit is what is left.
pub fn write_number(out: &mut [u8], n: u64) -> usize
    requires { length (decimal n) ≤ length out.old }
    ensures { (result ≡ length (decimal n)) × (out.new ≡ put (decimal n) out.old) }
{
    let count = digit_count(n);
    let last = count - 1;
    let powers = powers_of_ten();
    let mut left = n;
    let mut first = 0;
    if last == LAST_POWER {
        out[0] = b'1';
        left = n - LAST_TEN;
        first = 1;
    }
    for i in first..last {
        let d = digit_of(left, powers[last - i]);
        out[i] = b'0' + d.digit;
        left = d.left;
    }
    out[last] = b'0' + left as u8;
    count
}
