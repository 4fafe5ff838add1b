// A table that is closed: 1, 18, its last line.
#![tactic(auto)]

ghost use Rattle.std.specs.Prelude.{◌≡◌, ◌+◌, ◌-◌, ◌<◌, ◌^◌, length, take, drop};
ghost use Rattle.lines.specs.Lines.{most_line};
ghost use Rattle.book.specs.Room.{book_of};
ghost use Rattle.radio.specs.Radio as radio;
ghost use Rattle.radio.specs.Room.{course_in, radio_numbers, announced_of, come_of, outcome};
ghost use Rattle.radio_rule.specs.Lent.{slices};
ghost use Rattle.radio_lines.specs.Lines.{Holding};
ghost use Rattle.radio_slices.specs.Hearing.{table_of, Hears};
ghost use Rattle.radio_closing.specs.Closing.{earlier_fault, none_left, Comes, closed_heard};

use lines::MOST_BYTES;
use radio_lines::Heard;
use radio_rule::{ANNOUNCED, COME, FAULT, FAULT_TABLE, HEAD, LINE, REST, REST_LENGTH};
use refusals::{Check, Fault, Place, Verdict};
use rows::Row;
use tables::Table;

// "an announced length over 65,536 is 1, before 18"
fn judge_length(announced: u64, come: u64) -> Check
    ensures { result ≡ radio.length_check announced come }
{
    if (MOST_BYTES as u64) < announced {
        return Err(Fault::text_too_long());
    }
    if announced != come {
        return Err(Fault::length_differs());
    }
    Ok(())
}

// Whether the fault that is kept is an earlier table's.
fn faulty_before(table: u64, kept: &[u64]) -> bool
    requires { length kept.now ≡ radio_numbers }
    ensures { result ≡ earlier_fault table kept.now }
{
    kept[FAULT] != 0 && kept[FAULT_TABLE] != table
}

fn none_left(kept: &[u64]) -> bool
    requires { length kept.now ≡ radio_numbers }
    ensures { result ≡ none_left kept.now }
{
    kept[LINE] != Place::HEADER_LINE && kept[REST_LENGTH] == 0
}

// "A last line may lack its line feed": the unfinished line is the last. It is copied, for its room is lent on.
fn last_line(t: Table, book: &mut [Row], lines: &mut [u8], from: Heard) -> Verdict
    requires { Holding t from book.old lines.old × (from.line + from.rest + 1 < 2 ^ 64) }
    ensures { Comes (radio.came_to (radio.line_heard t (take from.rest (drop most_line lines.old)) (book_of book.old) from.line (take from.head lines.old))) result book.new }
{
    let rest = from.rest;
    let mut room = [0u8; REST];
    number_lines::write_bytes(&mut room, &lines[HEAD..HEAD + rest]);
    let heard = radio_lines::hear_line(&room[0..rest], t, book, lines, from);
    heard.verdict
}

// All bytes of a table have come.
fn finish(t: Table, book: &mut [Row], kept: &[u64], lines: &mut [u8]) -> Verdict
    requires { Hears book.old kept.now lines.old × (t ≡ table_of kept.now) }
    ensures { Comes (radio.finished t (course_in (slices book.old kept.now lines.old))) result book.new }
{
    if kept[FAULT] != 0 {
        return Err(radio_slices::kept_fault(kept));
    }
    if none_left(kept) {
        return Ok(());
    }
    let from = radio_slices::take_up(kept);
    last_line(t, book, lines, from)
}

// A table is closed: "The first fault ends the reading", and 1 or 18 stands "in place of that table's other faults".
fn close_table(t: Table, book: &mut [Row], kept: &[u64], lines: &mut [u8]) -> Verdict
    requires { Hears book.old kept.now lines.old × (t ≡ table_of kept.now) }
    ensures { Comes (radio.closing t (announced_of kept.now) (come_of kept.now) (course_in (slices book.old kept.now lines.old))) result book.new }
{
    if faulty_before(t.number(), kept) {
        return Err(radio_slices::kept_fault(kept));
    }
    let check = judge_length(kept[ANNOUNCED], kept[COME]);
    refusals::placed(check, t.number(), Place::NO_LINE)?;
    finish(t, book, kept, lines)
}

// A table that is heard is closed: the verdict of the tables that are closed, and the next turn.
pub fn close_heard(book: &mut [Row], kept: &mut [u64], lines: &mut [u8]) -> Verdict
    requires { Hears book.old kept.old lines.old }
    ensures { outcome result (slices book.new kept.new lines.new) ≡ closed_heard book.old kept.old lines.old }
{
    let t = radio_slices::table_heard(kept);
    let verdict = close_table(t, book, kept, lines);
    radio_slices::settle(verdict, book, kept, lines);
    verdict
}
