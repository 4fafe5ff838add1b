// What several programs say in the same words: an edition, a number that names none, and a refusal.
#![tactic(auto)]

ghost use Rattle.std.specs.Prelude.{◌≡◌, Some, IsOk};
ghost use Rattle.editions.specs.Editions.{choice};
ghost use Rattle.phrases.specs.Phrases.{edition_named, refusal_line};

use editions::Edition;
use refusals::Place;
use std::{fmt, io};

// What is said of a number that names no edition.
pub const NO_EDITION: &str = "this edition is not known: 2.1 or 2.3";

// An edition by its name.
#[derive(Clone, Copy)]
pub struct Dino(pub Edition);

// A refusal as a line of `X` with number, table, line and column, parted by tabs.
#[derive(Clone, Copy)]
pub struct Refusal(pub Place);

impl fmt::Display for Dino {
    ghost output = { λ d. Some (edition_named d.0) };

    fn fmt<W: fmt::Write>(&self, f: &mut fmt::Formatter<W>) -> fmt::Result {
        match self.0 {
            Edition::Dino21 => f.write_str("DINO 2.1"),
            Edition::Dino23 => f.write_str("DINO 2.3"),
        }
    }
}

impl fmt::Display for Refusal {
    ghost output = { λ r. Some (refusal_line r.0) };

    fn fmt<W: fmt::Write>(&self, f: &mut fmt::Formatter<W>) -> fmt::Result {
        let p = self.0;
        write!(f, "X\t{}\t{}\t{}\t{}", p.number, p.table, p.line, p.column)
    }
}

// Says on standard error that a number names no edition. Of one that names an edition nothing is said, so that nothing can fail.
pub fn tell_no_edition(rt: &impl Eprint, program: &str, number: u64) -> io::Result<()>
    ensures { (e : Edition) → choice number ≡ Some e → IsOk result }
{
    match Edition::numbered(number) {
        Some(_) => Ok(()),
        None => eprintln!(rt; "{program}: {NO_EDITION}"),
    }
}
