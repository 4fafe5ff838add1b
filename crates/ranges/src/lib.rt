// Which numbers a column takes.
#![tactic(auto)]

ghost use Rattle.std.specs.Prelude.{◌≡◌};
ghost use Rattle.tables.specs.Columns.{in_range};

use tables::Rules;

// Whether a number is in the range of its column and, where the column's numbers are days, a date. Asked of a cell's content and of a book's row.
pub fn takes(rules: Rules, n: u64) -> bool
    ensures { result ≡ in_range rules n }
{
    rules.low <= n && n <= rules.high && (!rules.date || dates::is_date(n))
}
