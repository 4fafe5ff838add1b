// The content of a cell.
#![tactic(auto)]

ghost use Rattle.std.specs.Prelude.{◌≡◌, false, ◌+◌, ◌<◌, eqb, length};
ghost use Rattle.words.specs.Words.{whether◌then◌else◌};
ghost use Rattle.cells.specs.Cells.{quoted, stretch, once, content};

pub fn is_quoted(cell: &[u8]) -> bool
    ensures { result ≡ quoted cell.now }
{
    matches!(cell, [b'"', ..])
}

// The bytes between a cell's quotes, or the whole cell where it has none.
pub fn stretch_of(cell: &[u8]) -> &[u8]
    ensures { result.now ≡ stretch cell.now }
{
    match cell {
        [b'"', inner @ .., _] => inner,
        [b'"'] => &[],
        _ => cell,
    }
}

// What a byte adds to the content's length: nothing where it is the double of the quote before it.
fn counted(n: usize, doubled: bool) -> usize
    requires { n < 18446744073709551615 }
    ensures { result ≡ n + (whether doubled then 0 else 1) }
{
    n + usize::from(!doubled)
}

// Whether the byte behind this one is left out: behind a quote that is itself no double.
fn doubles(doubled: bool, byte: u8) -> bool
    ensures { result ≡ (whether doubled then false else eqb byte 34) }
{
    !doubled && byte == b'"'
}

// How many bytes a stretch has, doubled quotes counted once.
fn length_once(stretch: &[u8]) -> usize
    ensures { result ≡ length (once false stretch.now) }
{
    let mut n: usize = 0;
    let mut doubled = false;
    for byte in stretch {
        n = counted(n, doubled);
        doubled = doubles(doubled, *byte);
    }
    n
}

// How many bytes of content a cell has, doubled quotes counted once.
pub fn content_length(cell: &[u8]) -> usize
    ensures { result ≡ length (content cell.now) }
{
    if is_quoted(cell) {
        length_once(stretch_of(cell))
    } else {
        cell.len()
    }
}
