// What content is to a column, and what the cells of a line come to.
#![tactic(auto)]

ghost use Rattle.std.specs.Prelude.{◌≡◌, ◌≤◌};
ghost use Rattle.words.specs.Words.{whether◌then◌else◌};
ghost use Rattle.refusals.specs.Verdicts.{cell_empty, out_of_range};
ghost use Rattle.cells.specs.Cells.{content};
ghost use Rattle.numbers.specs.Decimals.{decimal_of};
ghost use Rattle.tables.specs.Columns.{in_range};
ghost use Rattle.values.specs.Judged.{against, by_length, by_digits, value_of, check_of, unkept, kept_number};

use refusals::{Check, Fault, Place};
use rows::{NO_ROW, Row};
use tables::{Rules, Sort};

// What content is to a column: a number, a text, nothing, or against its rules, by the number of refusal.
#[derive(Clone, Copy)]
pub enum Value {
    Number(u64),
    Text,
    Empty,
    Bad(u64),
}

// A line: what its checks find, and its row.
#[derive(Clone, Copy)]
pub struct Judged {
    pub check: Check,
    pub row: Row,
}

// What the content of a decimal's cell is read as.
pub fn number_in(cell: &[u8], width: usize) -> Option<u64>
    requires { width ≤ 19 }
    ensures { result ≡ decimal_of width (content cell.now) }
{
    numbers::number_of(contents::stretch_of(cell), width)
}

impl Value {
    // Empty content is nothing, unless the column is required.
    fn of_nothing(rules: Rules) -> Value
        ensures { result ≡ (whether rules.required then against (cell_empty 0) else Value.Empty) }
    {
        if rules.required {
            Value::Bad(Place::CELL_EMPTY)
        } else {
            Value::Empty
        }
    }

    // "where two hold, 20 comes first": by its length content is nothing or too long; else it is what it says.
    fn of_length(rules: Rules, count: usize, said: Value) -> Value
        ensures { result ≡ by_length rules count said }
    {
        if count == 0 {
            return Value::of_nothing(rules);
        }
        if rules.width < count {
            return Value::Bad(Place::CELL_TOO_LONG);
        }
        said
    }

    fn of_number(rules: Rules, n: u64) -> Value
        ensures { result ≡ (whether in_range rules n then Value.Number n else against (out_of_range 0)) }
    {
        if ranges::takes(rules, n) {
            Value::Number(n)
        } else {
            Value::Bad(Place::OUT_OF_RANGE)
        }
    }

    // What the content of a decimal column says.
    fn of_digits(rules: Rules, digits: Option<u64>) -> Value
        ensures { result ≡ by_digits rules digits }
    {
        match digits {
            None => Value::Bad(Place::NOT_DIGITS),
            Some(n) => Value::of_number(rules, n),
        }
    }

    // Content of so many bytes, which is read as a number where the column asks for one.
    fn of_content<F: FnOnce() -> Option<u64>>(rules: Rules, count: usize, read: F) -> Value
        requires { rules.sort ≡ Sort.Decimal → F.pre read }
        ensures decimal { rules.sort ≡ Sort.Decimal → (digits : _) × F.post read digits × (result ≡ by_length rules count (by_digits rules digits)) }
        ensures text { rules.sort ≡ Sort.Text → result ≡ by_length rules count Value.Text }
    {
        let said = match rules.sort {
            Sort::Decimal => Value::of_digits(rules, read()),
            Sort::Text => Value::Text,
        };
        Value::of_length(rules, count, said)
    }

    // What a cell of the column holds, by its content.
    pub fn of_cell(rules: Rules, cell: &[u8]) -> Value
        requires { rules.sort ≡ Sort.Decimal → rules.width ≤ 19 }
        ensures { result ≡ value_of rules (content cell.now) }
    {
        let count = contents::content_length(cell);
        Value::of_content(rules, count, || number_in(cell, rules.width))
    }

    // What a field of a slip line holds: bytes that are never quoted.
    pub fn of_field(rules: Rules, field: &[u8]) -> Value
        requires { rules.sort ≡ Sort.Decimal → rules.width ≤ 19 }
        ensures { result ≡ value_of rules field.now }
    {
        let count = field.len();
        Value::of_content(rules, count, || numbers::number_of(field, rules.width))
    }

    // The check of a value at a column.
    pub fn check(self, column: u64) -> Check
        ensures { result ≡ check_of column self }
    {
        match self {
            Value::Number(_) | Value::Text | Value::Empty => Ok(()),
            Value::Bad(number) => Err(Fault::new(number, column)),
        }
    }
}

// Nothing is kept of a line that has a fault.
pub fn no_row(fault: Check) -> Judged
    ensures { result ≡ unkept fault }
{
    Judged {
        check: fault,
        row: NO_ROW,
    }
}

// The number that a row keeps of a value; 0 where it is no number.
pub fn kept_number(value: Value) -> u64
    ensures { result ≡ kept_number value }
{
    match value {
        Value::Number(n) => n,
        Value::Text | Value::Empty | Value::Bad(_) => 0,
    }
}
