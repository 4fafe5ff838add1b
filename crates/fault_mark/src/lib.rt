// What is marked of a table's text, to show a person a place of refusal in it: the line, and the cell on it.
#![tactic(auto)]

ghost use Rattle.std.specs.Prelude.{◌≡◌, ◌+◌, ◌-◌, ◌≤◌, drop};
ghost use Rattle.words.specs.Words.{whether◌then◌else◌};
ghost use Rattle.cells.specs.Cells.{kind, cut, cells_of};
ghost use Rattle.cells.specs.declared.State.TheVariants.{Fresh};
ghost use Rattle.cells.specs.Numbered.{MarksOf};
ghost use Rattle.header.specs.Header.{header, place_from};
ghost use Rattle.fault_mark.specs.Marks.{past, over, resumed, size_from, begin_from, columns_named, second_place, cell_named, marked_on, marked_of, MarkPermits, NumberedPermits};

use cells::{Kind, State};
use editions::Edition;
use header::{BOUNDS, MOST_CELLS};
use refusals::Place;
use tables::Table;

// What is marked of a text: nothing, or a line from start to end, by 2.3 with the breaks in it, or such a line and a cell on it, which begins and
// ends so many bytes behind the line's start.
#[derive(Clone, Copy)]
pub enum Mark {
    Nothing,
    Line {
        start: usize,
        end: usize,
    },
    Cell {
        start: usize,
        end: usize,
        from: usize,
        to: usize,
    },
}

fn kind_of(byte: u8) -> Kind
    ensures { result ≡ kind byte }
{
    match byte {
        b'"' => Kind::Quote,
        b';' => Kind::Semicolon,
        0..=31 | 127 => Kind::Control,
        _ => Kind::Other,
    }
}

// What a byte makes of a cell, which stays as it was where that byte is a fault.
fn past_byte(s: State, k: Kind) -> State
    ensures { result ≡ past s k }
{
    match (s, k) {
        (State::Fresh | State::Closed, Kind::Quote) => State::Inside,
        (State::Inside, Kind::Quote) => State::Closed,
        (State::Fresh | State::Plain | State::Closed, Kind::Semicolon | Kind::End) => State::Over,
        (State::Fresh, _) => State::Plain,
        _ => s,
    }
}

fn is_over(s: State) -> bool
    ensures { result ≡ over s }
{
    s == State::Over
}

// Where a cell is over the next one begins.
fn resume(s: State) -> State
    ensures { result ≡ resumed s }
{
    if is_over(s) { State::Fresh } else { s }
}

// Where the cell that begins at a place ends.
fn cell_end(line: &[u8], from: usize) -> usize
    ensures { result ≡ from + size_from Fresh (drop from line.now) }
{
    let mut state = State::Fresh;
    for i in from..line.len() {
        state = past_byte(state, kind_of(line[i]));
        if is_over(state) {
            return i;
        }
    }
    from.max(line.len())
}

fn fewer(left: u64, passed: bool) -> u64
    requires { 1 ≤ left }
    ensures { result ≡ (whether passed then left - 1 else left) }
{
    left - u64::from(passed)
}

// Where the cell begins that comes behind so many others; the line's end where there are fewer.
fn cell_begin(line: &[u8], others: u64) -> usize
    ensures { result ≡ begin_from others Fresh line.now }
{
    let mut state = State::Fresh;
    let mut left = others;
    for (i, byte) in line.iter().enumerate() {
        if left == 0 {
            return i;
        }
        let next = past_byte(state, kind_of(*byte));
        left = fewer(left, is_over(next));
        state = resume(next);
    }
    line.len()
}

// The first cell of a header, behind some, that names a column, counted from 1; 0 where there is none.
fn named_behind(
    edition: Edition,
    head: &[u8],
    bounds: &[usize],
    cells: usize,
    t: Table,
    column: u64,
    behind: usize,
) -> usize
    requires { MarksOf edition head.now bounds.now cells }
    ensures { result ≡ place_from behind column (drop behind (header edition t (cells_of (cut edition head.now)))) }
{
    for i in behind..cells {
        let named = column_names::column_of(
            edition,
            t,
            contents::stretch_of(cells::cell_of(edition, head, bounds, cells, i + 1)),
        );
        if header::wide(named) == column {
            return i + 1;
        }
    }
    0
}

// The cell of a header that names a column, the first or the second one.
fn named_cell(edition: Edition, head: &[u8], t: Table, column: u64, second: bool) -> usize
    ensures { result ≡ (whether second then second_place column (columns_named edition t head.now) else place_from 0 column (columns_named edition t head.now)) }
{
    let mut bounds = [0usize; BOUNDS];
    match cells::cells_of(edition, head, &mut bounds) {
        Err(_) => 0,
        Ok(cells) => {
            if MOST_CELLS < cells {
                return 0;
            }
            let first = named_behind(edition, head, &bounds, cells, t, column, 0);
            if second {
                return named_behind(edition, head, &bounds, cells, t, column, first);
            }
            first
        }
    }
}

// The cell that a fault is of, counted from 1; 0 where it is of none.
#[tactic(auto, unfolding(crate::specs::Marks::cell_named))]
fn faulty_cell(edition: Edition, head: &[u8], t: Table, number: u64, column: u64) -> u64
    ensures { result ≡ cell_named edition t head.now number column }
{
    if column == 0 {
        return 0;
    }
    match number {
        Place::COLUMN_MISSING => 0,
        Place::COLUMN_TWICE => header::wide(named_cell(edition, head, t, column, true)),
        Place::QUOTE_FAULT => column,
        _ => header::wide(named_cell(edition, head, t, column, false)),
    }
}

// The cell of that number on a line, counted from 1; an empty part of it where there is none.
pub fn cell_numbered(line: &[u8], cell: u64) -> &[u8]
    ensures { NumberedPermits cell line.now result.now }
{
    if cell == 0 {
        return &line[0..0];
    }
    let from = cell_begin(line, cell - 1);
    let to = cell_end(line, from);
    &line[from..to]
}

fn marked_cell(line: &[u8], start: usize, end: usize, cell: u64) -> Mark
    ensures { result ≡ marked_on line.now start end cell }
{
    if cell == 0 {
        return Mark::Line { start, end };
    }
    let from = cell_begin(line, cell - 1);
    let to = cell_end(line, from);
    Mark::Cell {
        start,
        end,
        from,
        to,
    }
}

fn marked_line(edition: Edition, text: &[u8], t: Table, place: Place) -> Mark
    ensures { result ≡ marked_of edition t text.now place }
{
    if place.line == 0 {
        return Mark::Nothing;
    }
    let start = lines::row_begin(edition, text, place.line);
    if text.len() <= start {
        return Mark::Nothing;
    }
    let head = lines::next_line(edition, text, 0);
    let head_end = head.end;
    let cell = faulty_cell(edition, &text[0..head_end], t, place.number, place.column);
    let line = lines::next_line(edition, text, start);
    let end = line.end;
    marked_cell(&text[start..end], start, end, cell)
}

// What is marked of a table's text, by its edition, for a place in it.
#[tactic(auto, unfolding(crate::specs::Marks::marked_in))]
pub fn marked(edition: Edition, text: &[u8], place: Place) -> Mark
    ensures { MarkPermits edition text.now place result }
{
    match Table::numbered(place.table) {
        Some(t) => marked_line(edition, text, t, place),
        None => Mark::Nothing,
    }
}
