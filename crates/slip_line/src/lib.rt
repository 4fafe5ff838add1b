// A line of a slip: what it asks for, and its numbers.
#![tactic(auto)]

ghost use Rattle.std.specs.Prelude.{◌≡◌, ◌≤◌, length};
ghost use Rattle.fields.specs.Fields.{fields};
ghost use Rattle.rows.specs.Rows.{row_numbers};
ghost use Rattle.tables.specs.Listing.{listed};
ghost use Rattle.slip_line.specs.SlipLine.{counted, letter, wish, numbers};
ghost use Rattle.slip_line.specs.Marks.{FieldsOf, fields_read};

use editions::Edition;
use fields::Fields;
use rows::{NO_ROW, NUMBERS};
use tables::{Columns, Table};
use values::{Judged, Value};

// What a slip line asks for.
#[derive(Clone, Copy)]
pub enum Wish {
    Add,
    Replace,
    Delete,
    Unknown,
}

impl Wish {
    // Whether a line of this wish has that many numbers: otherwise its kind is unknown.
    fn with_numbers(self, n: usize) -> Wish
        ensures { result ≡ counted self n }
    {
        match self {
            Wish::Add | Wish::Replace if n == NUMBERS => self,
            Wish::Delete if n == Table::BLOCK_KEY => self,
            _ => Wish::Unknown,
        }
    }
}

fn kind_of(field: &[u8]) -> Wish
    ensures { result ≡ letter field.now }
{
    match field {
        [b'A'] => Wish::Add,
        [b'R'] => Wish::Replace,
        [b'D'] => Wish::Delete,
        _ => Wish::Unknown,
    }
}

// What a line asks for, by its first field and by how many follow. With more numbers than a block has it is of no kind, and its bounds are not kept.
pub fn wish_of(line: &[u8], marks: Fields) -> Wish
    requires { FieldsOf line.now marks }
    ensures { result ≡ wish (fields line.now) }
{
    let n = marks.count - 1;
    if NUMBERS < n {
        return Wish::Unknown;
    }
    let bounds = marks.bounds;
    let from = bounds[0];
    let to = bounds[1] - 1;
    kind_of(&line[from..to]).with_numbers(n)
}

// 19, 20, 8 or 21, by the columns of an edition, and the row of a line of n numbers. What this walk shares with `row_line`'s stands in
// `values`: one walk for both would take where a value stands, how it is read and which numbers are kept as closures, and be longer than either.
pub fn read_fields(line: &[u8], marks: Fields, columns: &Columns, n: usize) -> Judged
    requires { FieldsOf line.now marks × (length (numbers (fields line.now)) ≡ n) × (n ≤ row_numbers) × ((e : Edition) × (columns.now ≡ listed e Table.Block)) }
    ensures { (e : Edition) → columns.now ≡ listed e Table.Block → result ≡ fields_read e (numbers (fields line.now)) }
{
    let bounds = marks.bounds;
    let mut check = Ok(());
    let mut row = NO_ROW;
    'columns: for i in 0..n {
        let from = bounds[i + 1];
        let to = bounds[i + 2] - 1;
        let value = Value::of_field(tables::rules_at(columns, i), &line[from..to]);
        let here = value.check((i + 1) as u64);
        match here {
            Ok(()) => row[i] = values::kept_number(value),
            Err(fault) => {
                check = Err(fault);
                row = NO_ROW;
                break 'columns;
            }
        }
    }
    Judged { check, row }
}
