// The fields of a slip line.
#![tactic(auto)]

ghost use Rattle.std.specs.Prelude.{◌≡◌, true, length, get_or, eqb, ltb};
ghost use Rattle.words.specs.Words.{whether◌then◌else◌};
ghost use Rattle.cells.specs.Marks.{BoundsOf};
ghost use Rattle.fields.specs.Fields.{fields};
ghost use Rattle.fields.specs.Marks.{field_bounds};

// The fields of a slip line: how many, and the bounds of up to MOST_FIELDS.
#[derive(Clone, Copy)]
pub struct Fields {
    pub count: usize,
    pub bounds: [usize; BOUNDS],
}

// The most fields that a slip line of some kind has, its letter and the 11 numbers of a block, and room for their bounds.
pub const MOST_FIELDS: usize = 12;

pub const BOUNDS: usize = MOST_FIELDS + 1;

// Whether a field ends at a place: before a tab, or at the line's end.
fn field_ends(line: &[u8], i: usize) -> bool
    ensures { result ≡ (whether ltb i (length line.now) then eqb (get_or line.now i 0) 9 else true) }
{
    matches!(line.get(i), None | Some(b'\t'))
}

// The fields of a slip line, in one pass.
pub fn fields_of(line: &[u8]) -> Fields
    ensures { (result.count ≡ length (fields line.now)) × BoundsOf (fields line.now) field_bounds result.bounds }
{
    let mut bounds = [0usize; BOUNDS];
    let mut count = 0;
    for i in 0..=line.len() {
        if field_ends(line, i) {
            count += 1;
            cells::note(&mut bounds, count, i + 1);
        }
    }
    Fields { count, bounds }
}
