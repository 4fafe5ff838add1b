// The day of the working folder, for the programs that begin with it.
#![tactic(auto)]

ghost use Rattle.folder.specs.Folder.{DayOfTexts};

use files::{ROOM, TEXT_ROOM};
use refusals::Verdict;
use rows::Row;
use std::rt::Files;

// The delivery of the working folder by an edition, and then its slip; a file that cannot be opened counts as empty.
pub fn day(rt: &(impl Files + Eprint), edition: u64, book: &mut [Row], work: &mut [Row]) -> Verdict
    ensures { DayOfTexts edition result book.old book.new work.old work.new }
{
    let mut room = [0u8; ROOM];
    let mut slip_room = [0u8; TEXT_ROOM];
    let texts = files::load_delivery(rt, &mut room, false);
    let slip = files::load_slip(rt, &mut slip_room);
    day::day(
        edition,
        texts.types,
        texts.depots,
        texts.stops,
        texts.points,
        texts.blocks,
        texts.days,
        slip,
        book,
        work,
    )
}
