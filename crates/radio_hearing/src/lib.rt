// The bytes of a part of a table, heard line by line.
#![tactic(auto)]

ghost use Rattle.std.specs.Prelude.{◌≡◌, ◌++◌, ◌+◌, ◌<◌, ◌≤◌, ◌^◌, length, take, drop};
ghost use Rattle.words.specs.Words.{Bytes};
ghost use Rattle.cells.specs.declared.State.TheVariants.{Fresh};
ghost use Rattle.lines.specs.Lines.{most_line, quoting_behind};
ghost use Rattle.lines.specs.Ends.{feed_from};
ghost use Rattle.book.specs.Room.{book_of};
ghost use Rattle.radio.specs.Radio.{kept_line, line_heard, ended};
ghost use Rattle.radio.specs.Hearing.{bytes_heard};
ghost use Rattle.radio_lines.specs.Lines.{kept, Holding, CameTo};
ghost use Rattle.radio_hearing.specs.Hearing.{Feedless, BehindRows};

use cells::State;
use editions::Edition;
use lines::MOST_LINE;
use radio_lines::Heard;
use rows::Row;
use tables::Table;

// Of an unfinished line so many bytes are kept: the last may be a carriage return that is dropped.
pub const KEPT_LINE: usize = MOST_LINE + 1;

const CARRIAGE_RETURN: u8 = 13;

// How the quotes of a row stand behind what came of it; by 2.1 they do not matter.
fn quotes_of(edition: Edition, came: &[u8]) -> State
    ensures { (s : Bytes) → feed_from edition result s ≡ feed_from edition (quoting_behind Fresh came.now) s }
{
    match edition {
        Edition::Dino21 => State::Fresh,
        Edition::Dino23 => lines::quotes_behind(came),
    }
}

// The line feed of a part that ends the line of which some came before, or the part's end.
fn first_feed(edition: Edition, came: &[u8], part: &[u8]) -> usize
    ensures { result ≡ feed_from edition (quoting_behind Fresh came.now) part.now }
{
    let state = quotes_of(edition, came);
    lines::row_feed(edition, part, 0, state)
}

// What came of a line before and the bytes up to its line feed, put together; one carriage return at the end is dropped.
fn put_together(rest: &[u8], more: &[u8], room: &mut [u8]) -> usize
    requires { length rest.now + length more.now ≤ length room.old }
    ensures { (result ≤ length room.new) × (take result room.new ≡ ended (rest.now ++ more.now)) }
{
    let a = number_lines::write_bytes(room, rest);
    let b = number_lines::write_bytes(&mut room[a..], more);
    let n = a + b;
    match &room[..n] {
        [.., CARRIAGE_RETURN] => n - 1,
        _ => n,
    }
}

// A line whose line feed is in the part. Where nothing of it came before, it is read where it lies.
fn end_line(
    part: &[u8],
    feed: usize,
    t: Table,
    book: &mut [Row],
    lines: &mut [u8],
    from: Heard,
) -> Heard
    requires { Holding t from book.old lines.old × (from.line + from.rest + feed + 1 < 2 ^ 64) × (feed ≡ feed_from (book_of book.old).edition (quoting_behind Fresh (take from.rest (drop most_line lines.old))) part.now) × (feed < length part.now) × (from.rest + feed ≤ kept_line) }
    ensures { CameTo t (line_heard t (ended (take from.rest (drop most_line lines.old) ++ take feed part.now)) (book_of book.old) from.line (take from.head lines.old)) book.new lines.new result × (from.line < result.line) × (result.line ≤ from.line + from.rest + feed + 1) × (result.rest ≡ 0) }
{
    let rest = from.rest;
    if rest == 0 {
        let edition = book::edition_of(&book[..]);
        let l = lines::next_line(edition, part, 0);
        let end = l.end;
        return radio_lines::hear_line(&part[0..end], t, book, lines, from);
    }
    let mut room = [0u8; KEPT_LINE];
    let end = put_together(
        &lines[MOST_LINE..MOST_LINE + rest],
        &part[0..feed],
        &mut room,
    );
    radio_lines::hear_line(&room[0..end], t, book, lines, from)
}

// Bytes that do not end the line: they are kept behind those that came, or the line is too long.
fn keep_tail(tail: &[u8], t: Table, book: &[Row], lines: &mut [u8], from: Heard) -> Heard
    requires { Holding t from book.now lines.old × Feedless (book_of book.now).edition (quoting_behind Fresh (take from.rest (drop most_line lines.old))) tail.now }
    ensures { CameTo t (bytes_heard t tail.now (kept from book.now lines.old)) book.now lines.new result }
{
    let line = from.line;
    let head = from.head;
    let rest = from.rest;
    if KEPT_LINE - rest < tail.len() {
        let verdict = radio_lines::too_long(t, line, book);
        return Heard {
            verdict,
            line,
            head,
            rest,
        };
    }
    let n = number_lines::write_bytes(&mut lines[MOST_LINE + rest..], tail);
    Heard {
        verdict: Ok(()),
        line,
        head,
        rest: rest + n,
    }
}

// Behind the last row that ends behind a place, or the place itself.
fn behind_rows(edition: Edition, part: &[u8], from: usize) -> usize
    requires { from ≤ length part.now }
    ensures { BehindRows edition part.now from result }
{
    let mut at = from;
    'rows: while at < part.len() {
        let feed = lines::row_feed(edition, part, at, State::Fresh);
        if part.len() <= feed {
            return at;
        }
        at = feed + 1;
    }
    at
}

// The part from behind a line feed on: the rows that are finished, then what is left.
fn hear_behind(
    part: &[u8],
    start: usize,
    t: Table,
    book: &mut [Row],
    lines: &mut [u8],
    from: Heard,
) -> Heard
    requires { Holding t from book.old lines.old × (start ≤ length part.now) × (2 ≤ from.line) × (from.line + length part.now + 1 < 2 ^ 64 + start) × (from.rest ≡ 0) }
    ensures { CameTo t (bytes_heard t (drop start part.now) (kept from book.old lines.old)) book.new lines.new result }
{
    let edition = book::edition_of(&book[..]);
    let end = behind_rows(edition, part, start);
    let heard = radio_lines::hear_rows(&part[start..end], t, book, &lines[..], from);
    let verdict = heard.verdict;
    match verdict {
        Err(_) => heard,
        Ok(()) => keep_tail(&part[end..], t, &book[..], lines, heard),
    }
}

// A part of a table: the line that ends in it first, then the others, then what is left of the last.
pub fn hear(part: &[u8], t: Table, book: &mut [Row], lines: &mut [u8], from: Heard) -> Heard
    requires { Holding t from book.old lines.old × (from.line + from.rest + length part.now + 1 < 2 ^ 64) }
    ensures { CameTo t (bytes_heard t part.now (kept from book.old lines.old)) book.new lines.new result }
{
    let line = from.line;
    let head = from.head;
    let rest = from.rest;
    let edition = book::edition_of(&book[..]);
    let feed = first_feed(edition, &lines[MOST_LINE..MOST_LINE + rest], part);
    if part.len() <= feed {
        return keep_tail(part, t, &book[..], lines, from);
    }
    if KEPT_LINE - rest < feed {
        let verdict = radio_lines::too_long(t, line, &book[..]);
        return Heard {
            verdict,
            line,
            head,
            rest,
        };
    }
    let heard = end_line(part, feed, t, book, lines, from);
    let verdict = heard.verdict;
    match verdict {
        Err(_) => heard,
        Ok(()) => hear_behind(part, feed + 1, t, book, lines, heard),
    }
}
