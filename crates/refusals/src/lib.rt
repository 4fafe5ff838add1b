// What is answered: a verdict with its place, and what a cell holds.
#![tactic(auto)]

ghost use Rattle.std.specs.Prelude.{◌≡◌, Err};
ghost use Rattle.refusals.specs.Verdicts.{fault, place, placed, text_too_long, column_missing, column_twice, too_many_cells, too_many_rows, quote_fault, cell_count, key_stands, no_row, ends_early, unknown_line, no_block, output_short, not_there, bad_loan, line_too_long, length_differs, unknown_edition, no_date};

// Where something is refused: the number of refusal, the table, the line, and the column or the cell, each 0 where it is not named.
#[derive(Clone, Copy)]
pub struct Place {
    pub number: u64,
    pub table: u64,
    pub line: u64,
    pub column: u64,
}

// What a check of a line finds wrong, before table and line are known: the number of refusal, and the column or the cell.
#[derive(Clone, Copy)]
pub struct Fault {
    pub number: u64,
    pub column: u64,
}

// A check of a line passes or finds a fault.
pub type Check = Result<(), Fault>;

// What is read, asked or written is accepted, or refused at a place.
pub type Verdict = Result<(), Place>;

// The answer to a question for a cell: a number, a stretch of the text, or nothing. The access equipment of a vehicle type is a number that names
// its edition, since a 2 there means a lift or ramp by 2.1 and a ramp by 2.3, where the number is a set of flags.
#[derive(Clone, Copy)]
pub enum Cell {
    Number(u64),
    Text { start: u64, len: u64 },
    Empty,
    Equip21(u64),
    Flags23(u64),
}

impl Place {
    pub const TEXT_TOO_LONG: u64 = 1;

    pub const COLUMN_MISSING: u64 = 2;

    pub const COLUMN_TWICE: u64 = 3;

    pub const TOO_MANY_CELLS: u64 = 4;

    pub const TOO_MANY_ROWS: u64 = 5;

    pub const QUOTE_FAULT: u64 = 6;

    pub const CELL_COUNT: u64 = 7;

    pub const NOT_DIGITS: u64 = 8;

    pub const KEY_STANDS: u64 = 9;

    pub const NO_ROW: u64 = 10;

    pub const ENDS_EARLY: u64 = 11;

    pub const UNKNOWN_LINE: u64 = 12;

    pub const NO_BLOCK: u64 = 13;

    pub const OUTPUT_SHORT: u64 = 14;

    pub const NOT_THERE: u64 = 15;

    pub const BAD_LOAN: u64 = 16;

    pub const LINE_TOO_LONG: u64 = 17;

    pub const LENGTH_DIFFERS: u64 = 18;

    pub const CELL_EMPTY: u64 = 19;

    pub const CELL_TOO_LONG: u64 = 20;

    pub const OUT_OF_RANGE: u64 = 21;

    pub const UNKNOWN_EDITION: u64 = 22;

    pub const NO_DATE: u64 = 23;

    // The tables' numbers; a slip has one in places only.
    pub const VEHICLE_TYPE: u64 = 1;

    pub const DEPOT: u64 = 2;

    pub const STOP: u64 = 3;

    pub const VEHICLE_BLOCK: u64 = 4;

    pub const SLIP: u64 = 5;

    pub const STOP_POINT: u64 = 6;

    pub const DAY_TYPE_CALENDAR: u64 = 7;

    // The lines of a place that names no row.
    pub const NO_LINE: u64 = 0;

    pub const HEADER_LINE: u64 = 1;

    pub const NO_TABLE: u64 = 0;

    pub fn new(number: u64, table: u64, line: u64, column: u64) -> Place
        ensures { result ≡ place number table line column }
    {
        Place {
            number,
            table,
            line,
            column,
        }
    }
}

impl Fault {
    pub fn new(number: u64, column: u64) -> Fault
        ensures { result ≡ fault number column }
    {
        Fault { number, column }
    }

    pub fn text_too_long() -> Fault
        ensures { Err result ≡ text_too_long }
    {
        Fault::new(Place::TEXT_TOO_LONG, 0)
    }

    pub fn column_missing(column: u64) -> Fault
        ensures { Err result ≡ column_missing column }
    {
        Fault::new(Place::COLUMN_MISSING, column)
    }

    pub fn column_twice(column: u64) -> Fault
        ensures { Err result ≡ column_twice column }
    {
        Fault::new(Place::COLUMN_TWICE, column)
    }

    pub fn too_many_cells() -> Fault
        ensures { Err result ≡ too_many_cells }
    {
        Fault::new(Place::TOO_MANY_CELLS, 0)
    }

    pub fn too_many_rows() -> Fault
        ensures { Err result ≡ too_many_rows }
    {
        Fault::new(Place::TOO_MANY_ROWS, 0)
    }

    pub fn quote_fault(cell: u64) -> Fault
        ensures { Err result ≡ quote_fault cell }
    {
        Fault::new(Place::QUOTE_FAULT, cell)
    }

    pub fn cell_count() -> Fault
        ensures { Err result ≡ cell_count }
    {
        Fault::new(Place::CELL_COUNT, 0)
    }

    pub fn key_stands() -> Fault
        ensures { Err result ≡ key_stands }
    {
        Fault::new(Place::KEY_STANDS, 0)
    }

    pub fn no_row(column: u64) -> Fault
        ensures { Err result ≡ no_row column }
    {
        Fault::new(Place::NO_ROW, column)
    }

    pub fn ends_early() -> Fault
        ensures { Err result ≡ ends_early }
    {
        Fault::new(Place::ENDS_EARLY, 11)
    }

    pub fn unknown_line() -> Fault
        ensures { Err result ≡ unknown_line }
    {
        Fault::new(Place::UNKNOWN_LINE, 0)
    }

    pub fn no_block() -> Fault
        ensures { Err result ≡ no_block }
    {
        Fault::new(Place::NO_BLOCK, 0)
    }

    pub fn output_short() -> Fault
        ensures { Err result ≡ output_short }
    {
        Fault::new(Place::OUTPUT_SHORT, 0)
    }

    pub fn not_there() -> Fault
        ensures { Err result ≡ not_there }
    {
        Fault::new(Place::NOT_THERE, 0)
    }

    pub fn bad_loan() -> Fault
        ensures { Err result ≡ bad_loan }
    {
        Fault::new(Place::BAD_LOAN, 0)
    }

    pub fn line_too_long() -> Fault
        ensures { Err result ≡ line_too_long }
    {
        Fault::new(Place::LINE_TOO_LONG, 0)
    }

    pub fn length_differs() -> Fault
        ensures { Err result ≡ length_differs }
    {
        Fault::new(Place::LENGTH_DIFFERS, 0)
    }

    pub fn unknown_edition() -> Fault
        ensures { Err result ≡ unknown_edition }
    {
        Fault::new(Place::UNKNOWN_EDITION, 0)
    }

    pub fn no_date() -> Fault
        ensures { Err result ≡ no_date }
    {
        Fault::new(Place::NO_DATE, 0)
    }

    // Its place, on this line of this table.
    pub fn on(self, table: u64, line: u64) -> Place
        ensures { Err result ≡ placed table line (Err self) }
    {
        Place::new(self.number, table, line, self.column)
    }
}

// The verdict of a check that was made on this line of this table.
pub fn placed(check: Check, table: u64, line: u64) -> Verdict
    ensures { result ≡ placed table line check }
{
    check.map_err(|fault| fault.on(table, line))
}
