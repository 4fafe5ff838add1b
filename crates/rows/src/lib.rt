// A table's rows in a lent slice, by rising key.
#![tactic(auto)]

ghost use Rattle.std.specs.Prelude.{◌≡◌, [], true, false, ◌<◌, ◌≤◌, ◌-◌, length, get_or, take, drop, replicate, eqb};
ghost use Rattle.words.specs.Words.{whether◌then◌else◌, same};
ghost use Rattle.rows.specs.Rows.{key_order, stands, found, column, by_order, rising};
ghost use Rattle.rows.specs.Room.{filled, used, zeros, same_rows};
ghost use Rattle.rows.specs.Spots.{Holds, spot, row_of, holds};

use std::cmp::Ordering;

// How many numbers a row has; its key is the first k of them.
pub const NUMBERS: usize = 11;

pub type Row = [u64; NUMBERS];

// The room of a table: a list of rows is made as `[NO_ROW; ROWS]` and handed on as a slice.
pub const ROWS: usize = 512;

pub const NO_ROW: Row = [0; NUMBERS];

// The order of two rows by their first k numbers, for every k: past their end both rows read as 0.
pub fn compare(a: &Row, b: &Row, k: usize) -> Ordering
    ensures { result ≡ key_order k a.now b.now }
{
    let mut order = Ordering::Equal;
    'keys: for i in 0..NUMBERS {
        if i == k {
            break 'keys;
        }
        // Two tests of one comparison: the library's `cmp` compares the numbers that differ twice, and a search is slower by it.
        let x = a[i];
        let y = b[i];
        if x < y {
            order = Ordering::Less;
            break 'keys;
        }
        if y < x {
            order = Ordering::Greater;
            break 'keys;
        }
    }
    order
}

// How many rows are used. (By halving: O(log n).)
pub fn count(list: &[Row]) -> usize
    requires { list.now ≡ filled (length list.now) (used list.now) }
    ensures { result ≡ length (used list.now) }
{
    let mut low = 0;
    let mut high = list.len();
    'rows: while low < high {
        let half = low + ((high - low) >> 1);
        if list[half][0] == 0 {
            high = half;
        } else {
            low = half + 1;
        }
    }
    low
}

// Where a key stands (`Ok`), or would stand (`Err`). (By halving over the whole slice: the used rows need not be counted.)
pub fn seek(list: &[Row], k: usize, row: Row) -> Result<usize, usize>
    requires { Holds k list.now }
    ensures { result ≡ spot k row (used list.now) }
{
    let mut low = 0;
    let mut high = list.len();
    'rows: while low < high {
        let mid = low + ((high - low) >> 1);
        match order_at(list, mid, k, &row) {
            Ordering::Less => {
                high = mid;
            }
            Ordering::Equal => {
                return Ok(mid);
            }
            Ordering::Greater => {
                low = mid + 1;
            }
        }
    }
    Err(low)
}

pub fn standing(list: &[Row], k: usize, row: Row) -> bool
    requires { Holds k list.now }
    ensures { result ≡ stands k row (used list.now) }
{
    seek(list, k, row).is_ok()
}

// The row of a key, or zeros.
pub fn row_of(list: &[Row], k: usize, row: Row) -> Row
    requires { Holds k list.now }
    ensures { result ≡ row_of (found k row (used list.now)) }
{
    match seek(list, k, row) {
        Ok(i) => list[i],
        Err(_) => NO_ROW,
    }
}

// Whether a slice holds a table, where nobody vouches for it.
pub fn holding(list: &[Row], k: usize) -> bool
    ensures { result ≡ holds k list.now }
{
    let n = first_unused(list);
    rises(list, n, k) && blank_from(list, n)
}

// No rows: every row zero.
pub fn clear(list: &mut [Row])
    ensures { list.new ≡ filled (length list.old) [] }
{
    list.fill(NO_ROW);
}

// The order of a row to the one at a place; an unused row lies above every key.
fn order_at(list: &[Row], at: usize, k: usize, row: &Row) -> Ordering
    requires { at < length list.now }
    ensures { result ≡ (whether eqb (column 1 (get_or list.now at [])) 0 then Ordering.Less else key_order k row.now (get_or list.now at [])) }
{
    if list[at][0] == 0 {
        return Ordering::Less;
    }
    compare(row, &list[at], k)
}

// How many rows are used, of any rows: one by one.
fn first_unused(list: &[Row]) -> usize
    ensures { result ≡ length (used list.now) }
{
    list.iter()
        .position(|row| row[0] == 0)
        .unwrap_or(list.len())
}

// Whether the key of a is below that of b.
fn below(a: &Row, b: &Row, k: usize) -> bool
    ensures { result ≡ by_order (key_order k a.now b.now) true false false }
{
    compare(a, b, k).is_lt()
}

// Whether each key of the first n rows is below the next one.
fn rises(list: &[Row], n: usize, k: usize) -> bool
    requires { n ≤ length list.now }
    ensures { result ≡ rising k (take n list.now) }
{
    for i in 1..n {
        if !below(&list[i - 1], &list[i], k) {
            return false;
        }
    }
    true
}

fn blank(row: &Row) -> bool
    ensures { result ≡ same row.now zeros }
{
    row.iter().all(|number| *number == 0)
}

// Whether every row from place n on is zero.
fn blank_from(list: &[Row], n: usize) -> bool
    requires { n ≤ length list.now }
    ensures { result ≡ same_rows (drop n list.now) (replicate (length list.now - n) zeros) }
{
    list[n..].iter().all(blank)
}
