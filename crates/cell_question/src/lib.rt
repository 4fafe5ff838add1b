// The question for a cell.
#![tactic(auto)]

ghost use Rattle.std.specs.Prelude.{◌≡◌, List, ℕ, ◌≤◌, ◌+◌, ◌<◌, length, Ok, Err};
ghost use Rattle.refusals.specs.Verdicts.{placed, nowhere, not_there, fault};
ghost use Rattle.lines.specs.Lines.{most_bytes, line_start};
ghost use Rattle.tables.specs.Listing.{listed};
ghost use Rattle.tables.specs.Columns.{columns_of, numbered};
ghost use Rattle.header.specs.Heading.{header_places, places, cells_kept};
ghost use Rattle.header.specs.Header.{most_cells, top_faults};
ghost use Rattle.header.specs.Top.{TopKept};
ghost use Rattle.cell_question.specs.CellQuestion.{answered, said, is_equip, meant, table_cell, asked_of, CellPermits, StretchPermits};
ghost use Rattle.cell_question.specs.Asking.{cell_judged, row_answer, fault_above, WayOf};

use editions::Edition;
use header::{BOUNDS, Places, Top};
use refusals::{Cell, Check, Fault, Place, Verdict};
use tables::{Columns, Sort, Table};
use values::Value;

// The answer to a question for a cell.
#[derive(Clone, Copy)]
pub struct CellAnswer {
    pub verdict: Verdict,
    pub cell: Cell,
}

// The way down to a row: a refusal, or where the row begins.
#[derive(Clone, Copy)]
pub struct Way {
    pub verdict: Verdict,
    pub begin: usize,
}

// VEH_TYPE_ACCESS_EQUIP of vehicle_type.
const ACCESS_EQUIP: usize = 11;

// A refusal says nothing of a cell.
fn refused(fault: Fault, table: u64, line: u64) -> CellAnswer
    ensures { (c : Cell) → result ≡ answered (placed table line (Err fault)) c }
{
    CellAnswer {
        verdict: Err(fault.on(table, line)),
        cell: Cell::Empty,
    }
}

// 15, which names no place.
fn not_there() -> CellAnswer
    ensures { (c : Cell) → result ≡ answered (nowhere not_there) c }
{
    refused(Fault::not_there(), Place::NO_TABLE, Place::NO_LINE)
}

fn accepted(cell: Cell) -> CellAnswer
    ensures { result ≡ answered (Ok tt) cell }
{
    CellAnswer {
        verdict: Ok(()),
        cell,
    }
}

// Whether a column is the access equipment.
fn is_equip(t: Table, column: usize) -> bool
    ensures { result ≡ is_equip t column }
{
    matches!(t, Table::VehicleType) && column == ACCESS_EQUIP
}

// A number; that of the access equipment names its edition: "A 2 there means a ramp, in 2.1 lift or ramp; the cell answer must name which."
fn number_said(edition: Edition, equip: bool, n: u64) -> Cell
    ensures { result ≡ meant edition equip (Cell.Number n) }
{
    if !equip {
        return Cell::Number(n);
    }
    match edition {
        Edition::Dino21 => Cell::Equip21(n),
        Edition::Dino23 => Cell::Flags23(n),
    }
}

// The stretch of a cell that begins at a place of the text.
fn text_said(cell: &[u8], at: usize) -> Cell
    requires { at ≤ most_bytes }
    ensures { result ≡ said Sort.Text at cell.now }
{
    let start = if contents::is_quoted(cell) {
        at + 1
    } else {
        at
    };
    Cell::Text {
        start: start as u64,
        len: contents::stretch_of(cell).len() as u64,
    }
}

// 19, 20, 8 or 21, and what the cell holds.
fn judged_cell(
    edition: Edition,
    cell: &[u8],
    at: usize,
    t: Table,
    columns: &Columns,
    line: u64,
    column: usize,
) -> CellAnswer
    requires { (at ≤ most_bytes) × (1 ≤ column) × (column < header_places) × (columns.now ≡ listed edition t) }
    ensures { result ≡ cell_judged edition t line column at cell.now }
{
    let rules = tables::rules_at(columns, column - 1);
    let value = Value::of_cell(rules, cell);
    match value {
        Value::Number(n) => accepted(number_said(edition, is_equip(t, column), n)),
        Value::Text => accepted(text_said(cell, at)),
        Value::Empty => accepted(Cell::Empty),
        Value::Bad(number) => refused(Fault::new(number, column as u64), t.number(), line),
    }
}

// 17, 6, 7, and then the column's cell.
fn cell_in_row(
    edition: Edition,
    row: &[u8],
    begin: usize,
    t: Table,
    columns: &Columns,
    at: &Places,
    line: u64,
    column: usize,
) -> CellAnswer
    requires { (begin + length row.now ≤ most_bytes) × (1 ≤ column) × (column < header_places) × (cells_kept at.now ≤ most_cells) × (columns.now ≡ listed edition t) }
    ensures { (h : List ℕ) → at.now ≡ places h → result ≡ row_answer edition t h line column begin row.now }
{
    let mut bounds = [0usize; BOUNDS];
    let cells = at[0];
    let check = row_line::cut_row(edition, row, cells, &mut bounds);
    match check {
        Err(fault) => refused(fault, t.number(), line),
        Ok(()) => {
            let number = at[column];
            let from = begin + cells::begin_of(&bounds, cells, number);
            let cell = cells::cell_of(edition, row, &bounds, cells, number);
            judged_cell(edition, cell, from, t, columns, line, column)
        }
    }
}

// 17, then 6, of a row above the line that is asked for: by 2.3 "a 6 or 17 in a row above comes first", by 2.1 "Other rows and 5 do not matter."
fn check_above(edition: Edition, row: &[u8]) -> Check
    ensures { result ≡ fault_above edition row.now }
{
    match edition {
        Edition::Dino21 => Ok(()),
        Edition::Dino23 => {
            let mut bounds = [0usize; 1];
            let cut = header::cut_line(Edition::Dino23, row, &mut bounds);
            cut.check
        }
    }
}

// 15: no row starts on the line.
fn no_row() -> Way
    ensures { result.verdict ≡ nowhere not_there }
{
    let verdict = Err(Fault::not_there().on(Place::NO_TABLE, Place::NO_LINE));
    Way { verdict, begin: 0 }
}

// The way to the row that starts on a line, "its line is the one it starts on", among the rows that begin at a place; the first of them starts on
// line `first`.
fn row_asked(edition: Edition, bytes: &[u8], table: u64, from: usize, first: u64, line: u64) -> Way
    requires { (length bytes.now ≤ most_bytes) × (1 ≤ first) × (first ≤ 65538) × (from ≤ length bytes.now) × (from ≡ line_start first bytes.now) }
    ensures { WayOf edition table line first bytes.now from result }
{
    let mut i = first;
    let mut at = from;
    'rows: while i < line {
        if bytes.len() <= at {
            return no_row();
        }
        let l = lines::next_line(edition, bytes, at);
        let end = l.end;
        let next = l.next;
        let verdict = refusals::placed(check_above(edition, &bytes[at..end]), table, i);
        match verdict {
            Err(p) => {
                return Way {
                    verdict: Err(p),
                    begin: at,
                };
            }
            Ok(()) => {
                i = lines::line_after(edition, i, &bytes[at..end]);
                at = next;
            }
        }
    }
    if line < i || bytes.len() <= at {
        return no_row();
    }
    Way {
        verdict: Ok(()),
        begin: at,
    }
}

// The cell of the row on a line, under a header that has no fault.
fn cell_on_line(
    edition: Edition,
    bytes: &[u8],
    t: Table,
    columns: &Columns,
    top: Top,
    line: u64,
    column: usize,
) -> CellAnswer
    requires { (1 ≤ column) × (column ≤ length (columns_of edition t)) × TopKept edition t bytes.now top × (top_faults edition t bytes.now ≡ Ok tt) × (columns.now ≡ listed edition t) }
    ensures { result ≡ table_cell edition t bytes.now line column }
{
    let way = row_asked(edition, bytes, t.number(), top.next, top.line, line);
    let verdict = way.verdict;
    let begin = way.begin;
    let at = top.at;
    match verdict {
        Err(p) => CellAnswer {
            verdict: Err(p),
            cell: Cell::Empty,
        },
        Ok(()) => {
            let l = lines::next_line(edition, bytes, begin);
            let end = l.end;
            cell_in_row(
                edition,
                &bytes[begin..end],
                begin,
                t,
                columns,
                &at,
                line,
                column,
            )
        }
    }
}

// 15 for the column, then the top of the text, then the line.
fn cell_in_table(edition: Edition, bytes: &[u8], t: Table, line: u64, column: u64) -> CellAnswer
    ensures { result ≡ table_cell edition t bytes.now line column }
{
    if column == 0 || (t.columns(edition) as u64) < column {
        return not_there();
    }
    let columns = t.column_rules(edition);
    let top = header::read_top(bytes, edition, t, &columns);
    let verdict = top.verdict;
    match verdict {
        Err(p) => CellAnswer {
            verdict: Err(p),
            cell: Cell::Empty,
        },
        Ok(()) => cell_on_line(edition, bytes, t, &columns, top, line, column as usize),
    }
}

// 15 for the table.
fn cell_by(edition: Edition, text: &[u8], table: u64, line: u64, column: u64) -> CellAnswer
    ensures { result ≡ asked_of edition (numbered table) text.now line column }
{
    match Table::numbered(table) {
        Some(t) => cell_in_table(edition, text, t, line, column),
        None => not_there(),
    }
}

// The cell of a column on a line of a table's text, by the edition of a number; 22 where it is no edition's.
pub fn cell(edition: u64, text: &[u8], table: u64, line: u64, column: u64) -> CellAnswer
    ensures { CellPermits edition text.now table line column result }
{
    match Edition::numbered(edition) {
        Some(e) => cell_by(e, text, table, line, column),
        None => refused(Fault::unknown_edition(), Place::NO_TABLE, Place::NO_LINE),
    }
}

// The caller's own bytes: a part of the lent text, not a copy.
pub fn stretch(edition: u64, text: &[u8], table: u64, line: u64, column: u64) -> &[u8]
    ensures { StretchPermits edition text.now table line column result.now }
{
    let answer = cell(edition, text, table, line, column);
    let Cell::Text { start, len } = answer.cell else {
        return &text[..0];
    };
    let from = start as usize;
    let to = from + len as usize;
    &text[from..to]
}
