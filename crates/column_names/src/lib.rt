// The names of the tables' columns.
#![tactic(auto)]

ghost use Rattle.std.specs.Prelude.{◌≡◌};
ghost use Rattle.words.specs.Words.{same, whether◌then◌else◌};
ghost use Rattle.tables.specs.Columns.{column_number};
ghost use Rattle.column_names.specs.Naming.{names_in, number_in};

use editions::Edition;
use tables::{STOP_NR, Table, VERSION};

const SEMICOLON: u8 = 59;

// The names of the columns in their order, as a header has them. Blocks are written under theirs.
pub const VEHICLE_TYPE_NAMES: [u8; 178] =
    *b"VERSION;VEH_TYPE_NR;VEH_TYPE_SEATS;VEH_TYPE_STRAPS;PLACES_FOR_DISABLED_PERSONS;VEH_TYPE_TEXT;STR_VEH_TYPE;VEH_TYPE_DOOR_WIDTH;VEH_TYPE_WIDTH;VEH_TYPE_HEIGHT;VEH_TYPE_ACCESS_EQUIP";

// By 2.3 vehicle_type has a column more.
pub const VEHICLE_TYPE_NAMES_23: [u8; 193] =
    *b"VERSION;VEH_TYPE_NR;VEH_TYPE_SEATS;VEH_TYPE_STRAPS;PLACES_FOR_DISABLED_PERSONS;VEH_TYPE_TEXT;STR_VEH_TYPE;VEH_TYPE_DOOR_WIDTH;VEH_TYPE_WIDTH;VEH_TYPE_HEIGHT;VEH_TYPE_ACCESS_EQUIP;VEH_DELFI_TYPE";

pub const DEPOT_NAMES: [u8; 16] = *b"VERSION;DEPOT_NR";

pub const STOP_NAMES: [u8; 25] = *b"VERSION;STOP_NR;STOP_NAME";

pub const STOP_POINT_NAMES: [u8; 33] = *b"VERSION;STOP_NR;STOPPING_POINT_NR";

pub const BLOCK_NAMES: [u8; 144] =
    *b"VERSION;DAY_TYPE_NR;DEPOT_NR;BLOCK_NR;VEH_TYP_NR;DEP_STOP_NR;DEP_STOPPING_POINT_NR;BEGIN_OF_BLOCK;ARR_STOP_NR;ARR_STOPPING_POINT_NR;END_OF_BLOCK";

pub const CALENDAR_NAMES: [u8; 23] = *b"VERSION;DAY;DAY_TYPE_NR";

// Two columns have another name too; it stands for the column of that number.
const VEHICLE_TYPE_OTHER: [u8; 15] = *b"HANDICAP_PLACES";

const VEHICLE_TYPE_OTHER_COLUMN: usize = 5;

const BLOCK_OTHER: [u8; 11] = *b"VEH_TYPE_NR";

const BLOCK_OTHER_COLUMN: usize = 5;

// The other tables have none: the empty name is unknown.
const NO_OTHER: [u8; 0] = *b"";

const NO_OTHER_COLUMN: usize = 0;

// The number of a name among those that semicolons part, counted from 1, or 0.
fn place_in(names: &[u8], name: &[u8]) -> usize
    ensures { result ≡ number_in 1 (names_in names.now) name.now }
{
    match names
        .split(|b| *b == SEMICOLON)
        .position(|each| name == each)
    {
        Some(i) => i + 1,
        None => 0,
    }
}

// The same, where another name stands for a column.
#[tactic(auto, using(crate::proofs::Naming::alike))]
fn column_in(names: &[u8], other: &[u8], column: usize, name: &[u8]) -> usize
    ensures { result ≡ (whether same name.now other.now then column else number_in 1 (names_in names.now) name.now) }
{
    if name == other {
        return column;
    }
    place_in(names, name)
}

fn vehicle_type_column(edition: Edition, name: &[u8]) -> usize
    ensures { result ≡ column_number edition Table.VehicleType name.now }
{
    match edition {
        Edition::Dino21 => column_in(
            &VEHICLE_TYPE_NAMES,
            &VEHICLE_TYPE_OTHER,
            VEHICLE_TYPE_OTHER_COLUMN,
            name,
        ),
        Edition::Dino23 => column_in(
            &VEHICLE_TYPE_NAMES_23,
            &VEHICLE_TYPE_OTHER,
            VEHICLE_TYPE_OTHER_COLUMN,
            name,
        ),
    }
}

// The number of the column of that name, counted from 1, or 0.
pub fn column_of(edition: Edition, t: Table, name: &[u8]) -> usize
    ensures { result ≡ column_number edition t name.now }
{
    match t {
        Table::VehicleType => vehicle_type_column(edition, name),
        Table::Depot => column_in(&DEPOT_NAMES, &NO_OTHER, NO_OTHER_COLUMN, name),
        Table::Stop => column_in(&STOP_NAMES, &NO_OTHER, NO_OTHER_COLUMN, name),
        Table::StopPoint => column_in(&STOP_POINT_NAMES, &NO_OTHER, NO_OTHER_COLUMN, name),
        Table::Block => column_in(&BLOCK_NAMES, &BLOCK_OTHER, BLOCK_OTHER_COLUMN, name),
        Table::Calendar => column_in(&CALENDAR_NAMES, &NO_OTHER, NO_OTHER_COLUMN, name),
    }
}
