// The cells of a line, and their bounds.
#![tactic(auto)]

ghost use Rattle.std.specs.Prelude.{◌≡◌, List, ◌<◌, ◌+◌, drop, set, length, get_or};
ghost use Rattle.words.specs.Words.{Bytes};
ghost use Rattle.editions.specs.declared.Edition.{Edition};
ghost use Rattle.cells.specs.Cells.{quoted, kind, cells, cut, cells_of, is_break};
ghost use Rattle.cells.specs.declared.State.TheVariants.{Inside, Plain, Fresh};
ghost use Rattle.cells.specs.Ends.{stays, stop_at, end_from, break_next};
ghost use Rattle.cells.specs.Marks.{BoundsOf, answer_of};
ghost use Rattle.cells.specs.Numbered.{begin_at, cell_numbered, MarksOf};

use editions::Edition;

// What a byte, or the line's end, is to a cell. The specification alone speaks of kinds and states.
#[derive(Clone, Copy)]
pub enum Kind {
    Quote,
    Semicolon,
    Control,
    Other,
    End,
}

// How far a cell is read.
#[derive(Clone, Copy, PartialEq, Eq)]
pub enum State {
    Fresh,
    Plain,
    Inside,
    Closed,
    Over,
    Fault,
}

const LINE_FEED: u8 = 10;

const CARRIAGE_RETURN: u8 = 13;

// Whether a quote stands at a place.
pub fn quote_at(line: &[u8], i: usize) -> bool
    ensures { result ≡ quoted (drop i line.now) }
{
    line.get(i) == Some(&b'"')
}

// Whether a byte leaves a cell inside its quotes: no quote and no control byte. Most bytes lie above the quote, so that is asked first, by a branch of its own:
// joined to one condition, both sides are worked out for each byte, and a run over long quoted cells takes a third more instructions.
fn stays_inside(b: u8) -> bool
    ensures { result ≡ stays Inside (kind b) }
{
    if b'"' < b {
        b != 127
    } else {
        matches!(b, 32..=33)
    }
}

// Whether a byte leaves a cell plain: no quote, no control byte and no semicolon.
fn stays_plain(b: u8) -> bool
    ensures { result ≡ stays Plain (kind b) }
{
    b != b';' && stays_inside(b)
}

// The end of a cell that goes on no further than to a place: a semicolon or the line's end must stand there.
fn end_at(line: &[u8], i: usize) -> Option<usize>
    ensures { result ≡ stop_at i (drop i line.now) }
{
    match line.get(i) {
        None | Some(b';') => Some(i),
        Some(_) => None,
    }
}

// The end of a plain cell that is read up to a place: it has no quotes in which a break may stand.
fn plain_end(line: &[u8], from: usize) -> Option<usize>
    ensures { (e : Edition) → result ≡ end_from e Plain from (drop from line.now) }
{
    for i in from..line.len() {
        if !stays_plain(line[i]) {
            return end_at(line, i);
        }
    }
    Some(from.max(line.len()))
}

// Whether a break begins at a place, with or without its carriage return.
fn feeds_at(line: &[u8], i: usize) -> bool
    requires { i < length line.now }
    ensures { result ≡ is_break (get_or line.now i 0) (drop (i + 1) line.now) }
{
    matches!(
        &line[i..],
        [LINE_FEED, ..] | [CARRIAGE_RETURN, LINE_FEED, ..]
    )
}

// Whether a break stands at a place that may stand there, inside quotes: by 2.3 alone.
fn break_at(edition: Edition, line: &[u8], i: usize) -> bool
    requires { i < length line.now }
    ensures { result ≡ break_next edition (drop i line.now) }
{
    match edition {
        Edition::Dino21 => false,
        Edition::Dino23 => feeds_at(line, i),
    }
}

// The end of a quoted cell that is read up to a place inside its quotes.
fn quoted_end(edition: Edition, line: &[u8], from: usize) -> Option<usize>
    ensures { result ≡ end_from edition Inside from (drop from line.now) }
{
    let mut i = from;
    'bytes: while i < line.len() {
        if stays_inside(line[i]) {
            i += 1;
        } else if break_at(edition, line, i) {
            i += 1;
        } else if line[i] != 34 {
            return None;
        } else if quote_at(line, i + 1) {
            i += 2;
        } else {
            return end_at(line, i + 1);
        }
    }
    None
}

// The end of the cell that begins at a place; none if it is faulty.
fn cell_end(edition: Edition, line: &[u8], from: usize) -> Option<usize>
    ensures { result ≡ end_from edition Fresh from (drop from line.now) }
{
    if quote_at(line, from) {
        return quoted_end(edition, line, from + 1);
    }
    plain_end(line, from)
}

// Notes a place as number n, where there is room for it.
pub fn note(places: &mut [usize], n: usize, place: usize)
    ensures { places.new ≡ set places.old n place }
{
    if n < places.len() {
        places[n] = place;
    }
}

// The cells of a line, one by one: how many they are, with their bounds where there is room for them; or the first faulty one, counted from 1.
pub fn cells_of(edition: Edition, line: &[u8], bounds: &mut [usize]) -> Result<usize, usize>
    ensures { (result ≡ answer_of (cut edition line.now)) × ((cs : List Bytes) → cut edition line.now ≡ cells cs → BoundsOf cs (length bounds.new) bounds.new) }
{
    let mut n: usize = 0;
    let mut from: usize = 0;
    note(bounds, n, from);
    'cells: loop {
        let i = cell_end(edition, line, from).ok_or(n + 1)?;
        n += 1;
        from = i + 1;
        note(bounds, n, from);
        if i == line.len() {
            return Ok(n);
        }
    }
}

// Where a cell, by its number from 1, begins; 0 for a cell that is not there.
pub fn begin_of(bounds: &[usize], cells: usize, cell: usize) -> usize
    requires { cells < length bounds.now }
    ensures { result ≡ begin_at bounds.now cells cell }
{
    if cell == 0 || cells < cell {
        return 0;
    }
    bounds[cell - 1]
}

// The cell of that number; an empty part of the line where there is none. (The contract alone speaks of the edition, by which the line was cut.)
pub fn cell_of<'a, 'b>(
    edition: Edition,
    line: &'a [u8],
    bounds: &'b [usize],
    cells: usize,
    cell: usize,
) -> &'a [u8]
    requires { MarksOf edition line.now bounds.now cells }
    ensures { result.now ≡ cell_numbered cell (cells_of (cut edition line.now)) }
{
    if cell == 0 || cells < cell {
        return &line[0..0];
    }
    let from = bounds[cell - 1];
    let to = bounds[cell] - 1;
    &line[from..to]
}
