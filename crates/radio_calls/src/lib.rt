// The calls of a delivery by radio: "Please take each table in parts, cut anywhere".
#![tactic(auto)]

ghost use Rattle.std.specs.Prelude.{◌≡◌};
ghost use Rattle.refusals.specs.Verdicts.{nowhere, bad_loan, not_there, unknown_edition};
ghost use Rattle.radio.specs.Radio as radio;
ghost use Rattle.radio.specs.Room.{outcome};
ghost use Rattle.radio_rule.specs.Lent.{slices};
ghost use Rattle.radio_calls.specs.Calls.{OpenPermits, RadioPermits};
ghost use Rattle.radio_calls.specs.Turns.{admitted};

use editions::Edition;
use radio_rule::{HEARD, KEPT, LAST_TURN, OVER, TURN};
use refusals::{Fault, Place, Verdict};
use rows::Row;

fn bad_loan() -> Verdict
    ensures { result ≡ nowhere bad_loan }
{
    Err(Fault::bad_loan().on(Place::NO_TABLE, Place::NO_LINE))
}

fn unknown_edition() -> Verdict
    ensures { result ≡ nowhere unknown_edition }
{
    Err(Fault::unknown_edition().on(Place::NO_TABLE, Place::NO_LINE))
}

fn out_of_turn() -> Verdict
    ensures { result ≡ nowhere not_there }
{
    Err(Fault::not_there().on(Place::NO_TABLE, Place::NO_LINE))
}

// 16, then 15: slices against the rule, or a turn that is not from this one to that.
fn admit(first: u64, last: u64, book: &[Row], kept: &[u64], lines: &[u8]) -> Verdict
    ensures { result ≡ admitted first last (slices book.now kept.now lines.now) }
{
    if !radio_rule::keeps_radio(book, kept, lines) {
        return bad_loan();
    }
    let turn = kept[TURN];
    if turn < first {
        return out_of_turn();
    }
    if last < turn {
        return out_of_turn();
    }
    Ok(())
}

// A delivery begins by the edition of this number, whatever the slices held. 16, then 22.
pub fn open(edition: u64, book: &mut [Row], kept: &mut [u64], lines: &mut [u8]) -> Verdict
    ensures { OpenPermits edition (slices book.old kept.old lines.old) (outcome result (slices book.new kept.new lines.new)) }
{
    if !radio_rule::fit(book, kept, lines) {
        return bad_loan();
    }
    match Edition::numbered(edition) {
        None => unknown_edition(),
        Some(chosen) => {
            radio_slices::empty(chosen, &[0; KEPT], book, kept, lines);
            Ok(())
        }
    }
}

// "The length of each table is announced before its first byte."
pub fn announce(length: u64, book: &[Row], kept: &mut [u64], lines: &[u8]) -> Verdict
    ensures { RadioPermits (radio.announce length) (slices book.now kept.old lines.now) (outcome result (slices book.now kept.new lines.now)) }
{
    admit(0, OVER - 1, book, kept, lines)?;
    radio_slices::begin_table(length, kept);
    Ok(())
}

// "Please take each table in parts, cut anywhere"
pub fn part(bytes: &[u8], book: &mut [Row], kept: &mut [u64], lines: &mut [u8]) -> Verdict
    ensures { RadioPermits (radio.part bytes.now) (slices book.old kept.old lines.old) (outcome result (slices book.new kept.new lines.new)) }
{
    let admitted = admit(HEARD, LAST_TURN, book, kept, lines);
    admitted?;
    radio_parts::take_part(bytes, book, kept, lines);
    Ok(())
}

// A table is closed: the verdict of the tables that are closed.
pub fn close(book: &mut [Row], kept: &mut [u64], lines: &mut [u8]) -> Verdict
    ensures { RadioPermits radio.close (slices book.old kept.old lines.old) (outcome result (slices book.new kept.new lines.new)) }
{
    admit(HEARD, LAST_TURN, book, kept, lines)?;
    radio_closing::close_heard(book, kept, lines)
}
