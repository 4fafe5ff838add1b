// The tables of a delivery, their figures and their columns.
#![tactic(auto)]

ghost use Rattle.std.specs.Prelude.{◌≡◌, ◌<◌, get_or, length, eqb};
ghost use Rattle.words.specs.Words.{whether◌then◌else◌};
ghost use Rattle.tables.specs.Columns.{column_at, references, ref, columns_of, number, key_width, kept_width, numbered};
ghost use Rattle.tables.specs.Listing.{column_room, listed, figures_of, chosen};
ghost use Rattle.tables.specs.Parts.{tables, room, begin};

use editions::Edition;
use refusals::Place;
use rows::{NUMBERS, ROWS};

// A column as seven numbers.
pub type Column = [u64; 7];

// How many columns a table has room for. The columns are handed out once for a table, and lent on.
pub const COLUMN_ROOM: usize = 12;

pub type Columns = [Column; COLUMN_ROOM];

#[derive(Clone, Copy, PartialEq, Eq, Debug)]
pub enum Table {
    VehicleType,
    Depot,
    Stop,
    StopPoint,
    Block,
    Calendar,
}

// A decimal number or a text.
#[derive(Clone, Copy, PartialEq, Eq, Debug)]
pub enum Sort {
    Decimal,
    Text,
}

// What the cells of a column must keep to.
#[derive(Clone, Copy)]
pub struct Rules {
    pub sort: Sort,
    pub width: usize,
    pub low: u64,
    pub high: u64,
    pub key: bool,
    pub required: bool,
    pub date: bool,
}

// What a table is counted by: its number in places, how many columns it has by 2.1 and by 2.3, how many of them are its key, how many numbers of a row the book
// keeps, and how many references a row has.
#[derive(Clone, Copy)]
pub struct TableFigures {
    pub number: u64,
    pub columns21: usize,
    pub columns23: usize,
    pub keys: usize,
    pub kept: usize,
    pub references: usize,
}

// A column whose number, together with VERSION, is the key of a row in another table; of a stop point together with its stop's number, one
// column before.
#[derive(Clone, Copy)]
pub struct Reference {
    pub column: usize,
    pub to: Table,
}

// The columns of the tables. Each line is a column: its sort (0 decimal, 1 text), its width, the lowest and the highest number it takes, then 1 for a
// key, 1 for a required column, and 1 for one whose numbers are dates.
pub const VERSION: Column = [0, 2, 1, 99, 1, 1, 0];

// Of a stop and of a stop point.
pub const STOP_NR: Column = [0, 5, 1, 99999, 1, 1, 0];

// Behind a table's last column.
const NO_COLUMN: Column = [1, 0, 0, 0, 0, 0, 0];

const VEHICLE_TYPE_COLUMNS: Columns = [
    VERSION,
    [0, 8, 0, 99999999, 1, 1, 0], // VEH_TYPE_NR
    [0, 3, 0, 999, 0, 0, 0], // VEH_TYPE_SEATS
    [0, 3, 0, 999, 0, 0, 0], // VEH_TYPE_STRAPS
    [0, 3, 0, 999, 0, 0, 0], // PLACES_FOR_DISABLED_PERSONS
    [1, 40, 0, 0, 0, 0, 0], // VEH_TYPE_TEXT
    [1, 4, 0, 0, 0, 0, 0], // STR_VEH_TYPE
    [0, 4, 0, 9999, 0, 0, 0], // VEH_TYPE_DOOR_WIDTH
    [0, 4, 0, 9999, 0, 0, 0], // VEH_TYPE_WIDTH
    [0, 4, 0, 9999, 0, 0, 0], // VEH_TYPE_HEIGHT
    [0, 1, 0, 2, 0, 0, 0], // VEH_TYPE_ACCESS_EQUIP
    NO_COLUMN,
];

// By 2.3 "VEH_TYPE_ACCESS_EQUIP is a set of flags 1 lift, 2 ramp, 4 multi-purpose space, so 0 to 7; VEH_DELFI_TYPE c10 is an optional column 12".
const VEHICLE_TYPE_COLUMNS_23: Columns = [
    VERSION,
    [0, 8, 0, 99999999, 1, 1, 0], // VEH_TYPE_NR
    [0, 3, 0, 999, 0, 0, 0], // VEH_TYPE_SEATS
    [0, 3, 0, 999, 0, 0, 0], // VEH_TYPE_STRAPS
    [0, 3, 0, 999, 0, 0, 0], // PLACES_FOR_DISABLED_PERSONS
    [1, 40, 0, 0, 0, 0, 0], // VEH_TYPE_TEXT
    [1, 4, 0, 0, 0, 0, 0], // STR_VEH_TYPE
    [0, 4, 0, 9999, 0, 0, 0], // VEH_TYPE_DOOR_WIDTH
    [0, 4, 0, 9999, 0, 0, 0], // VEH_TYPE_WIDTH
    [0, 4, 0, 9999, 0, 0, 0], // VEH_TYPE_HEIGHT
    [0, 1, 0, 7, 0, 0, 0], // VEH_TYPE_ACCESS_EQUIP
    [1, 10, 0, 0, 0, 0, 0], // VEH_DELFI_TYPE
];

const DEPOT_COLUMNS: Columns = [
    VERSION,
    [0, 5, 0, 99999, 1, 1, 0], // DEPOT_NR
    NO_COLUMN,
    NO_COLUMN,
    NO_COLUMN,
    NO_COLUMN,
    NO_COLUMN,
    NO_COLUMN,
    NO_COLUMN,
    NO_COLUMN,
    NO_COLUMN,
    NO_COLUMN,
];

const STOP_COLUMNS: Columns = [
    VERSION,
    STOP_NR,
    [1, 50, 0, 0, 0, 1, 0], // STOP_NAME
    NO_COLUMN,
    NO_COLUMN,
    NO_COLUMN,
    NO_COLUMN,
    NO_COLUMN,
    NO_COLUMN,
    NO_COLUMN,
    NO_COLUMN,
    NO_COLUMN,
];

// By 2.3 "STOP_NAME is up to 255 bytes".
const STOP_COLUMNS_23: Columns = [
    VERSION,
    STOP_NR,
    [1, 255, 0, 0, 0, 1, 0], // STOP_NAME
    NO_COLUMN,
    NO_COLUMN,
    NO_COLUMN,
    NO_COLUMN,
    NO_COLUMN,
    NO_COLUMN,
    NO_COLUMN,
    NO_COLUMN,
    NO_COLUMN,
];

const STOP_POINT_COLUMNS: Columns = [
    VERSION,
    STOP_NR,
    [0, 2, 0, 99, 1, 1, 0], // STOPPING_POINT_NR
    NO_COLUMN,
    NO_COLUMN,
    NO_COLUMN,
    NO_COLUMN,
    NO_COLUMN,
    NO_COLUMN,
    NO_COLUMN,
    NO_COLUMN,
    NO_COLUMN,
];

const BLOCK_COLUMNS: Columns = [
    VERSION,
    [0, 9, 0, 999999999, 1, 1, 0], // DAY_TYPE_NR
    [0, 5, 0, 99999, 1, 1, 0], // DEPOT_NR
    [0, 8, 0, 99999999, 1, 1, 0], // BLOCK_NR
    [0, 2, 0, 99, 0, 1, 0], // VEH_TYP_NR
    [0, 6, 0, 999999, 0, 1, 0], // DEP_STOP_NR
    [0, 2, 0, 99, 0, 1, 0], // DEP_STOPPING_POINT_NR
    [0, 6, 0, 999999, 0, 1, 0], // BEGIN_OF_BLOCK
    [0, 6, 0, 999999, 0, 1, 0], // ARR_STOP_NR
    [0, 2, 0, 99, 0, 1, 0], // ARR_STOPPING_POINT_NR
    [0, 6, 0, 999999, 0, 1, 0], // END_OF_BLOCK
    NO_COLUMN,
];

// By 2.3 "a block's two stop numbers are d5, 1 to 99999".
const BLOCK_COLUMNS_23: Columns = [
    VERSION,
    [0, 9, 0, 999999999, 1, 1, 0], // DAY_TYPE_NR
    [0, 5, 0, 99999, 1, 1, 0], // DEPOT_NR
    [0, 8, 0, 99999999, 1, 1, 0], // BLOCK_NR
    [0, 2, 0, 99, 0, 1, 0], // VEH_TYP_NR
    [0, 5, 1, 99999, 0, 1, 0], // DEP_STOP_NR
    [0, 2, 0, 99, 0, 1, 0], // DEP_STOPPING_POINT_NR
    [0, 6, 0, 999999, 0, 1, 0], // BEGIN_OF_BLOCK
    [0, 5, 1, 99999, 0, 1, 0], // ARR_STOP_NR
    [0, 2, 0, 99, 0, 1, 0], // ARR_STOPPING_POINT_NR
    [0, 6, 0, 999999, 0, 1, 0], // END_OF_BLOCK
    NO_COLUMN,
];

const CALENDAR_COLUMNS: Columns = [
    VERSION,
    [0, 8, 0, 99999999, 1, 1, 1], // DAY
    [0, 9, 0, 999999999, 0, 1, 0], // DAY_TYPE_NR
    NO_COLUMN,
    NO_COLUMN,
    NO_COLUMN,
    NO_COLUMN,
    NO_COLUMN,
    NO_COLUMN,
    NO_COLUMN,
    NO_COLUMN,
    NO_COLUMN,
];

// The references: the column, counted from 1, and the table in which its number stands.
const STOP_OF_POINT: Reference = Reference {
    column: 2,
    to: Table::Stop,
};

const DEPOT_OF_BLOCK: Reference = Reference {
    column: 3,
    to: Table::Depot,
};

const TYPE_OF_BLOCK: Reference = Reference {
    column: 5,
    to: Table::VehicleType,
};

const DEPARTURE_STOP: Reference = Reference {
    column: 6,
    to: Table::Stop,
};

const DEPARTURE_POINT: Reference = Reference {
    column: 7,
    to: Table::StopPoint,
};

const ARRIVAL_STOP: Reference = Reference {
    column: 9,
    to: Table::Stop,
};

const ARRIVAL_POINT: Reference = Reference {
    column: 10,
    to: Table::StopPoint,
};

static STOP_POINT_REFERENCES: [Reference; 1] = [STOP_OF_POINT];

static BLOCK_REFERENCES: [Reference; 6] = [
    DEPOT_OF_BLOCK,
    TYPE_OF_BLOCK,
    DEPARTURE_STOP,
    DEPARTURE_POINT,
    ARRIVAL_STOP,
    ARRIVAL_POINT,
];

// How many rows a calendar has room for: no table has room for more.
pub const DAYS: usize = 800;

// Where the row of marks stands in a lent book: behind the rooms of all tables.
pub const MARKS: usize = 5 * ROWS + DAYS;

// How many rows a lent book has: the rooms of all tables, and the row of marks.
pub const BOOK_ROWS: usize = MARKS + 1;

// What the cells of the column at place i, counted from 0, must keep to, of the columns that a table handed out.
#[tactic(auto, using(crate::proofs::Listing::listed_back))]
pub fn rules_at(columns: &Columns, i: usize) -> Rules
    requires { i < column_room }
    ensures { (e : Edition) (t : Table) → columns.now ≡ listed e t → result ≡ (column_at e t i).rules }
{
    let column = columns[i];
    Rules {
        sort: Sort::of(column[0]),
        width: column[1] as usize,
        low: column[2],
        high: column[3],
        key: column[4] == 1,
        required: column[5] == 1,
        date: column[6] == 1,
    }
}

impl Table {
    // How many numbers a key has: VERSION and the number of a type, depot or stop, or a day; of a stop point its stop's too; of a block four.
    pub const PAIR_KEY: usize = 2;

    pub const POINT_KEY: usize = 3;

    pub const BLOCK_KEY: usize = 4;

    pub const VEHICLE_TYPE: TableFigures = TableFigures {
        number: Place::VEHICLE_TYPE,
        columns21: 11,
        columns23: 12,
        keys: Table::PAIR_KEY,
        kept: Table::PAIR_KEY,
        references: 0,
    };

    pub const DEPOT: TableFigures = TableFigures {
        number: Place::DEPOT,
        columns21: 2,
        columns23: 2,
        keys: Table::PAIR_KEY,
        kept: Table::PAIR_KEY,
        references: 0,
    };

    pub const STOP: TableFigures = TableFigures {
        number: Place::STOP,
        columns21: 3,
        columns23: 3,
        keys: Table::PAIR_KEY,
        kept: Table::PAIR_KEY,
        references: 0,
    };

    pub const STOP_POINT: TableFigures = TableFigures {
        number: Place::STOP_POINT,
        columns21: 3,
        columns23: 3,
        keys: Table::POINT_KEY,
        kept: Table::POINT_KEY,
        references: 1,
    };

    pub const BLOCK: TableFigures = TableFigures {
        number: Place::VEHICLE_BLOCK,
        columns21: NUMBERS,
        columns23: NUMBERS,
        keys: Table::BLOCK_KEY,
        kept: NUMBERS,
        references: 6,
    };

    pub const CALENDAR: TableFigures = TableFigures {
        number: Place::DAY_TYPE_CALENDAR,
        columns21: 3,
        columns23: 3,
        keys: Table::PAIR_KEY,
        kept: 3,
        references: 0,
    };

    // The table of a number, if it is one's.
    pub fn numbered(n: u64) -> Option<Table>
        ensures { result ≡ numbered n }
    {
        match n {
            Place::VEHICLE_TYPE => Some(Table::VehicleType),
            Place::DEPOT => Some(Table::Depot),
            Place::STOP => Some(Table::Stop),
            Place::VEHICLE_BLOCK => Some(Table::Block),
            Place::STOP_POINT => Some(Table::StopPoint),
            Place::DAY_TYPE_CALENDAR => Some(Table::Calendar),
            _ => None,
        }
    }

    #[tactic(auto, unfolding(crate::specs::Columns::columns_of))]
    pub fn figures(self) -> TableFigures
        ensures { result ≡ figures_of self }
    {
        match self {
            Table::VehicleType => Table::VEHICLE_TYPE,
            Table::Depot => Table::DEPOT,
            Table::Stop => Table::STOP,
            Table::StopPoint => Table::STOP_POINT,
            Table::Block => Table::BLOCK,
            Table::Calendar => Table::CALENDAR,
        }
    }

    pub fn number(self) -> u64
        ensures { result ≡ number self }
    {
        self.figures().number
    }

    pub fn columns(self, edition: Edition) -> usize
        ensures { result ≡ length (columns_of edition self) }
    {
        let figures = self.figures();
        match edition {
            Edition::Dino21 => figures.columns21,
            Edition::Dino23 => figures.columns23,
        }
    }

    pub fn keys(self) -> usize
        ensures { result ≡ key_width self }
    {
        self.figures().keys
    }

    pub fn kept(self) -> usize
        ensures { result ≡ kept_width self }
    {
        self.figures().kept
    }

    pub fn references(self) -> usize
        ensures { result ≡ length (references self) }
    {
        self.figures().references
    }

    // What the cells of each column must keep to. A constant is laid out where it is named: this is asked once for a table.
    #[tactic(auto, using(crate::proofs::Listing::chosen_listed), unfolding(crate::specs::Columns::columns_of, crate::specs::Listing::listed, crate::specs::Listing::listing))]
    pub fn column_rules(self, edition: Edition) -> Columns
        ensures { result ≡ listed edition self }
    {
        match self {
            Table::VehicleType => choose(edition, VEHICLE_TYPE_COLUMNS, VEHICLE_TYPE_COLUMNS_23),
            Table::Depot => DEPOT_COLUMNS,
            Table::Stop => choose(edition, STOP_COLUMNS, STOP_COLUMNS_23),
            Table::StopPoint => STOP_POINT_COLUMNS,
            Table::Block => choose(edition, BLOCK_COLUMNS, BLOCK_COLUMNS_23),
            Table::Calendar => CALENDAR_COLUMNS,
        }
    }

    // The references of a row, in the order of their columns.
    fn all_references(self) -> &'static [Reference]
        ensures { result.now ≡ references self }
    {
        match self {
            Table::StopPoint => &STOP_POINT_REFERENCES,
            Table::Block => &BLOCK_REFERENCES,
            _ => &[],
        }
    }

    pub fn reference(self, i: usize) -> Reference
        requires { i < length (references self) }
        ensures { result ≡ get_or (references self) i (ref 0 Table.VehicleType) }
    {
        self.all_references()[i]
    }
}

// The columns of a table that differ by edition.
fn choose(edition: Edition, by21: Columns, by23: Columns) -> Columns
    ensures { result ≡ chosen edition by21 by23 }
{
    match edition {
        Edition::Dino21 => by21,
        Edition::Dino23 => by23,
    }
}

impl Sort {
    // The sort of a column, by its first number.
    fn of(n: u64) -> Sort
        ensures { result ≡ (whether eqb n 0 then Sort.Decimal else Sort.Text) }
    {
        match n {
            0 => Sort::Decimal,
            _ => Sort::Text,
        }
    }
}

impl Table {
    // How many tables there are.
    pub const COUNT: usize = 6;

    // How many rows each table has room for, and where its part of the book begins: behind the rooms of the tables before it.
    pub const ROOM: [usize; Table::COUNT] = [ROWS, ROWS, ROWS, ROWS, ROWS, DAYS];

    pub const BEGIN: [usize; Table::COUNT] = [0, ROWS, 2 * ROWS, 3 * ROWS, 4 * ROWS, 5 * ROWS];

    // The tables in the order of reading.
    pub const ORDER: [Table; Table::COUNT] = [
        Table::VehicleType,
        Table::Depot,
        Table::Stop,
        Table::StopPoint,
        Table::Block,
        Table::Calendar,
    ];

    pub fn room(self) -> usize
        ensures { result ≡ room self }
    {
        Table::ROOM[self as usize]
    }

    pub fn begin(self) -> usize
        ensures { result ≡ begin self }
    {
        Table::BEGIN[self as usize]
    }

    // The table at place i of the order of reading, counted from 0; past the last one it is the last.
    pub fn in_order(i: usize) -> Table
        ensures { result ≡ get_or tables i Table.Calendar }
    {
        match Table::ORDER.get(i) {
            Some(t) => *t,
            None => Table::Calendar,
        }
    }
}
