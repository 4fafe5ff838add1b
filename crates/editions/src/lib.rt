// The edition of a delivery.
#![tactic(auto)]

ghost use Rattle.std.specs.Prelude.{◌≡◌};
ghost use Rattle.editions.specs.Editions.{choice};

// Whose tables they are: DINO 2.1 or 2.3, one for a whole delivery.
#[derive(Clone, Copy, Debug, PartialEq, Eq)]
pub enum Edition {
    Dino21,
    Dino23,
}

impl Edition {
    // The numbers by which a caller chooses.
    pub const BY_21: u64 = 21;

    pub const BY_23: u64 = 23;

    // The edition that a number asks for, if it asks for one.
    pub fn numbered(n: u64) -> Option<Edition>
        ensures { result ≡ choice n }
    {
        match n {
            Edition::BY_21 => Some(Edition::Dino21),
            Edition::BY_23 => Some(Edition::Dino23),
            _ => None,
        }
    }
}
