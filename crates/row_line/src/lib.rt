// A line behind the header, and its row.
#![tactic(auto)]

ghost use Rattle.std.specs.Prelude.{◌≡◌, List, ℕ, ◌<◌, length};
ghost use Rattle.cells.specs.Numbered.{MarksOf};
ghost use Rattle.tables.specs.Listing.{listed};
ghost use Rattle.values.specs.Judged.{rowed};
ghost use Rattle.header.specs.Heading.{places, cells_kept};
ghost use Rattle.row_line.specs.RowLine.{row_read};
ghost use Rattle.row_line.specs.Judging.{cells_check, CutOf, read};

use editions::Edition;
use header::Places;
use refusals::{Check, Fault};
use rows::NO_ROW;
use tables::{Columns, Table};
use values::{Judged, Value};

// 19, 20, 8 or 21 by column number: the cells of a line, and its row.
fn read_columns(
    line: &[u8],
    bounds: &[usize],
    edition: Edition,
    t: Table,
    columns: &Columns,
    at: &Places,
) -> Judged
    requires { MarksOf edition line.now bounds.now (cells_kept at.now) × (columns.now ≡ listed edition t) }
    ensures { (h : List ℕ) → at.now ≡ places h → result ≡ rowed (cells_check edition t h line.now) (row_read edition t h line.now) }
{
    let cells = at[0];
    let kept = t.kept();
    let mut check = Ok(());
    let mut row = NO_ROW;
    'columns: for k in 0..t.columns(edition) {
        let rules = tables::rules_at(columns, k);
        let value = Value::of_cell(
            rules,
            cells::cell_of(edition, line, bounds, cells, at[k + 1]),
        );
        let here = value.check((k + 1) as u64);
        match here {
            Ok(()) => {}
            Err(fault) => {
                check = Err(fault);
                row = NO_ROW;
                break 'columns;
            }
        }
        if k < kept {
            row[k] = values::kept_number(value);
        }
    }
    Judged { check, row }
}

// 17, 6 and 7: the cells of a row, as many as its header has. Their bounds are kept where the caller has room for them.
pub fn cut_row(edition: Edition, line: &[u8], cells: usize, bounds: &mut [usize]) -> Check
    requires { cells < length bounds.old }
    ensures { CutOf edition line.now cells bounds.new result }
{
    let cut = header::cut_line(edition, line, bounds);
    cut.check?;
    if cut.cells != cells {
        return Err(Fault::cell_count());
    }
    Ok(())
}

// 17, 6, 7, what is wrong with a cell, and the row of a line, without looking at a book.
pub fn read_row(
    line: &[u8],
    edition: Edition,
    t: Table,
    columns: &Columns,
    at: &Places,
    bounds: &mut [usize],
) -> Judged
    requires { (columns.now ≡ listed edition t) × (cells_kept at.now < length bounds.old) }
    ensures { (h : List ℕ) → at.now ≡ places h → result ≡ read edition t h line.now }
{
    let check = cut_row(edition, line, at[0], bounds);
    match check {
        Ok(()) => read_columns(line, &bounds[..], edition, t, columns, at),
        Err(fault) => values::no_row(Err(fault)),
    }
}
