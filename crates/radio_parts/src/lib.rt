// A part of a table: its bytes are counted, those that were announced are heard, and what they came to is kept.
#![tactic(auto)]

ghost use Rattle.std.specs.Prelude.{◌≡◌, ◌+◌, ◌-◌, ◌≤◌, length, take, drop};
ghost use Rattle.lines.specs.Lines.{most_line};
ghost use Rattle.radio.specs.Radio as radio;
ghost use Rattle.radio.specs.Radio.{kept_line};
ghost use Rattle.radio.specs.Room.{two_lines, laid_out, course_in, radio_bytes, announced_of, come_of};
ghost use Rattle.radio.specs.Hearing.{bytes_heard};
ghost use Rattle.radio_rule.specs.Lent.{slices};
ghost use Rattle.radio_lines.specs.Lines.{course_held};
ghost use Rattle.radio_slices.specs.Hearing.{table_of, Hears};
ghost use Rattle.radio_parts.specs.Keeping.{Keeping};

use radio_lines::Heard;
use radio_rule::{ANNOUNCED, COME, FAULT, HEAD, LINES, TURN};
use rows::Row;

// Of the bytes that come those that were announced: a surplus is counted and not read.
fn to_be_read(announced: u64, come: u64, bytes: &[u8]) -> &[u8]
    ensures { result.now ≡ take (announced - come) bytes.now }
{
    let left = announced.saturating_sub(come);
    let n = left.min(bytes.len() as u64) as usize;
    &bytes[..n]
}

// Zeros behind both lines.
fn clear_behind(head: usize, rest: usize, lines: &mut [u8])
    requires { (length lines.old ≡ radio_bytes) × (head ≤ most_line) × (rest ≤ kept_line) }
    ensures { lines.new ≡ two_lines (take head lines.old) (take rest (drop most_line lines.old)) }
{
    radio_slices::clear_bytes(&mut lines[head..HEAD]);
    radio_slices::clear_bytes(&mut lines[HEAD + rest..LINES]);
}

// What a part came to is kept.
fn keep(heard: Heard, come: u64, book: &mut [Row], kept: &mut [u64], lines: &mut [u8])
    requires { Keeping heard book.old kept.old lines.old }
    ensures { slices book.new kept.new lines.new ≡ laid_out (radio.hears (table_of kept.old) (announced_of kept.old) come (course_held heard.verdict heard.line heard.head heard.rest book.old lines.old)) }
{
    let turn = kept[TURN];
    let announced = kept[ANNOUNCED];
    let verdict = heard.verdict;
    match verdict {
        Err(p) => radio_slices::stop(turn, announced, come, p, book, kept, lines),
        Ok(()) => {
            let head = heard.head;
            let rest = heard.rest;
            let numbers = [
                turn,
                announced,
                come,
                heard.line,
                head as u64,
                rest as u64,
                0,
                0,
                0,
                0,
                0,
            ];
            radio_slices::copy_numbers(&numbers, kept);
            clear_behind(head, rest, lines);
        }
    }
}

// The bytes of a part are counted, and those that were announced are heard.
pub fn take_part(bytes: &[u8], book: &mut [Row], kept: &mut [u64], lines: &mut [u8])
    requires { Hears book.old kept.old lines.old }
    ensures { slices book.new kept.new lines.new ≡ laid_out (radio.hears (table_of kept.old) (announced_of kept.old) (radio.counted (come_of kept.old + length bytes.now)) (bytes_heard (table_of kept.old) (take (announced_of kept.old - come_of kept.old) bytes.now) (course_in (slices book.old kept.old lines.old)))) }
{
    let come = radio_slices::counted(kept[COME], bytes.len() as u64);
    if kept[FAULT] != 0 {
        kept[COME] = come;
        return;
    }
    let t = radio_slices::table_heard(kept);
    let from = radio_slices::take_up(kept);
    let heard = radio_hearing::hear(
        to_be_read(kept[ANNOUNCED], kept[COME], bytes),
        t,
        book,
        lines,
        from,
    );
    keep(heard, come, book, kept, lines);
}
