// Numbers written one behind the other, with what parts and ends them.
#![tactic(auto)]

ghost use Rattle.std.specs.Prelude.{◌≡◌, [], ◌∷◌, ◌++◌, map, ◌≤◌, ◌+◌, ℕ, ◌*◌, length};
ghost use Rattle.cells.specs.Cells.{parted};
ghost use Rattle.numbers.specs.Putting.{put};
ghost use Rattle.numbers.specs.Numbers.{decimal};
ghost use Rattle.rows.specs.Rows.{row_numbers};

pub const LINE_FEED: u8 = 10;

// Bytes as they are (names, separators).
pub fn write_bytes(out: &mut [u8], bytes: &[u8]) -> usize
    requires { length bytes.now ≤ length out.old }
    ensures { (result ≡ length bytes.now) × (out.new ≡ put bytes.now out.old) }
{
    // Not by `copy_from_slice`: it goes through a type of the library that has a method with a division, and scripts/undivided takes none in a writing.
    for (i, byte) in bytes.iter().enumerate() {
        out[i] = *byte;
    }
    bytes.len()
}

// A number, and the byte that ends its cell.
fn write_cell(out: &mut [u8], n: u64, end: u8) -> usize
    requires { length (decimal n) + 1 ≤ length out.old }
    ensures { (result ≡ length (decimal n) + 1) × (out.new ≡ put (decimal n ++ (end ∷ [])) out.old) }
{
    let at = numbers::write_number(out, n);
    out[at] = end;
    at + 1
}

// How long numbers are that a byte parts, with the line feed behind the last. A number has at most 20 digits.
pub fn numbers_length(numbers: &[u64]) -> usize
    requires { (1 ≤ length numbers.now) × (length numbers.now ≤ row_numbers) }
    ensures { ((separator : ℕ) → result ≡ length (parted separator (map decimal numbers.now)) + 1) × (result ≤ length numbers.now * 21) }
{
    let mut size = 0;
    for n in numbers {
        size += numbers::digit_count(*n) + 1;
    }
    size
}

// The numbers themselves.
pub fn write_numbers(out: &mut [u8], numbers: &[u64], separator: u8) -> usize
    requires { (1 ≤ length numbers.now) × (length (parted separator (map decimal numbers.now)) + 1 ≤ length out.old) }
    ensures { (result ≡ length (parted separator (map decimal numbers.now)) + 1) × (out.new ≡ put (parted separator (map decimal numbers.now) ++ (10 ∷ [])) out.old) }
{
    let Some((last, others)) = numbers.split_last() else {
        unreachable!();
    };
    let mut at = 0;
    for n in others {
        at += write_cell(&mut out[at..], *n, separator);
    }
    at + write_cell(&mut out[at..], *last, LINE_FEED)
}
