// The header of a text.
#![tactic(auto)]

ghost use Rattle.std.specs.Prelude.{◌≡◌, List, ◌&&◌, not, ℕ, ◌<◌, eqb, get_or, set, Err};
ghost use Rattle.words.specs.Words.{whether◌then◌else◌};
ghost use Rattle.cells.specs.Cells.{cut, cells_of};
ghost use Rattle.cells.specs.Numbered.{MarksOf};
ghost use Rattle.tables.specs.Listing.{listed};
ghost use Rattle.header.specs.Heading.{headed, header_places, places, LineCut, NamesOf, names_check, heading};
ghost use Rattle.header.specs.Header.{missing, header};
ghost use Rattle.header.specs.Top.{TopOf};

use editions::Edition;
use lines::{MOST_BYTES, MOST_LINE};
use refusals::{Check, Fault, Place, Verdict};
use tables::{COLUMN_ROOM, Columns, Table};

// What is kept of a header: at place 0 how many cells it has, and at the place of each column the cell that names it, counted from 1, or 0.
pub type Places = [usize; PLACES];

// The names of a header: a known column that comes twice, or 0, and where each column is named.
#[derive(Clone, Copy)]
pub struct Noted {
    pub twice: usize,
    pub at: Places,
}

// A line cut into its cells: what it is refused for, and how many they are where it is not.
#[derive(Clone, Copy)]
pub struct CutLine {
    pub check: Check,
    pub cells: usize,
}

// A header: what its checks find, and what is kept of it.
#[derive(Clone, Copy)]
pub struct Heading {
    pub check: Check,
    pub at: Places,
}

// The top of a table's text: what is judged before its rows, what is kept of the header, where the rows begin, and on which line the
// first one starts.
#[derive(Clone, Copy)]
pub struct Top {
    pub verdict: Verdict,
    pub at: Places,
    pub next: usize,
    pub line: u64,
}

// The most cells that a header has, and room for their bounds.
pub const MOST_CELLS: usize = 32;

pub const BOUNDS: usize = MOST_CELLS + 1;

// The cell count and the columns.
const PLACES: usize = COLUMN_ROOM + 1;

const NO_PLACES: Places = [0; PLACES];

pub fn wide(n: usize) -> u64
    ensures { result ≡ n }
{
    n as u64
}

// Nothing is kept of a header that has a fault.
fn no_heading(fault: Fault) -> Heading
    ensures { (h : List ℕ) → result ≡ headed (Err fault) h }
{
    Heading {
        check: Err(fault),
        at: NO_PLACES,
    }
}

// Whether a known column has a cell already.
fn comes_again(at: &Places, column: usize) -> bool
    requires { column < header_places }
    ensures { result ≡ (not (eqb column 0) && not (eqb (get_or at.now column 0) 0)) }
{
    column != 0 && at[column] != 0
}

// Notes the cell of a known column.
fn note(mut at: Places, column: usize, cell: usize) -> Places
    requires { column < header_places }
    ensures { result ≡ (whether eqb column 0 then at else set at column cell) }
{
    if column != 0 {
        at[column] = cell;
    }
    at
}

fn lacks(required: bool, cell: usize) -> bool
    ensures { result ≡ (required && eqb cell 0) }
{
    required && cell == 0
}

// The lowest required column that no cell names, or 0.
fn lowest_missing(edition: Edition, t: Table, columns: &Columns, at: &Places) -> usize
    requires { columns.now ≡ listed edition t }
    ensures { (h : List ℕ) → at.now ≡ places h → result ≡ missing edition t h }
{
    let count = t.columns(edition);
    let mut lowest = 0;
    'columns: for k in 0..count {
        let rules = tables::rules_at(columns, k);
        if lacks(rules.required, at[k + 1]) {
            lowest = k + 1;
            break 'columns;
        }
    }
    lowest
}

// The names of a header from left to right, up to a known column that comes again.
fn note_names(line: &[u8], bounds: &[usize], cells: usize, edition: Edition, t: Table) -> Noted
    requires { MarksOf edition line.now bounds.now cells }
    ensures { NamesOf (header edition t (cells_of (cut edition line.now))) result }
{
    let mut at = NO_PLACES;
    at[0] = cells;
    let mut twice = 0;
    'names: for i in 0..cells {
        let column = column_names::column_of(
            edition,
            t,
            contents::stretch_of(cells::cell_of(edition, line, bounds, cells, i + 1)),
        );
        if comes_again(&at, column) {
            twice = column;
            break 'names;
        }
        at = note(at, column, i + 1);
    }
    Noted { twice, at }
}

// 3, 2: the names of a header, and what it lacks.
fn map_names(
    line: &[u8],
    bounds: &[usize],
    cells: usize,
    edition: Edition,
    t: Table,
    columns: &Columns,
) -> Heading
    requires { MarksOf edition line.now bounds.now cells × (columns.now ≡ listed edition t) }
    ensures { result ≡ headed (names_check edition t (header edition t (cells_of (cut edition line.now)))) (header edition t (cells_of (cut edition line.now))) }
{
    let Noted { twice, at } = note_names(line, bounds, cells, edition, t);
    if twice != 0 {
        return no_heading(Fault::column_twice(twice as u64));
    }
    let lowest = lowest_missing(edition, t, columns, &at);
    if lowest != 0 {
        return no_heading(Fault::column_missing(lowest as u64));
    }
    Heading { check: Ok(()), at }
}

// 17 and 6, of any line of a table. The bounds of its cells are kept where the caller has room for them.
pub fn cut_line(edition: Edition, line: &[u8], bounds: &mut [usize]) -> CutLine
    ensures { LineCut edition line.now bounds.new result }
{
    if MOST_LINE < line.len() {
        return CutLine {
            check: Err(Fault::line_too_long()),
            cells: 0,
        };
    }
    match cells::cells_of(edition, line, bounds) {
        Err(cell) => CutLine {
            check: Err(Fault::quote_fault(wide(cell))),
            cells: 0,
        },
        Ok(cells) => CutLine {
            check: Ok(()),
            cells,
        },
    }
}

// 17, 6, 4, 3, 2: a header line.
pub fn read_header(line: &[u8], edition: Edition, t: Table, columns: &Columns) -> Heading
    requires { columns.now ≡ listed edition t }
    ensures { result ≡ heading edition t line.now }
{
    let mut bounds = [0usize; BOUNDS];
    let cut = cut_line(edition, line, &mut bounds);
    let check = cut.check;
    let cells = cut.cells;
    match check {
        Err(fault) => no_heading(fault),
        Ok(()) => {
            if MOST_CELLS < cells {
                return no_heading(Fault::too_many_cells());
            }
            map_names(line, &bounds, cells, edition, t, columns)
        }
    }
}

// 1 and the header: the top of a table's text.
pub fn read_top(bytes: &[u8], edition: Edition, t: Table, columns: &Columns) -> Top
    requires { columns.now ≡ listed edition t }
    ensures { TopOf edition t bytes.now result }
{
    if MOST_BYTES < bytes.len() {
        let verdict = Err(Fault::text_too_long().on(t.number(), Place::NO_LINE));
        return Top {
            verdict,
            at: NO_PLACES,
            next: 0,
            line: 0,
        };
    }
    let l = lines::next_line(edition, bytes, 0);
    let end = l.end;
    let next = l.next;
    let heading = read_header(&bytes[0..end], edition, t, columns);
    let check = heading.check;
    let at = heading.at;
    let verdict = refusals::placed(check, t.number(), Place::HEADER_LINE);
    let line = lines::line_after(edition, Place::HEADER_LINE, &bytes[0..end]);
    Top {
        verdict,
        at,
        next,
        line,
    }
}
