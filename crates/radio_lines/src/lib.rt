// The lines of a table by radio that are whole: the header, a row, rows; and one that is too long already.
#![tactic(auto)]

ghost use Rattle.std.specs.Prelude.{◌≡◌, [], true, ◌+◌, ◌<◌, ◌≤◌, ◌^◌, length, take, Ok};
ghost use Rattle.words.specs.Words.{Bytes};
ghost use Rattle.refusals.specs.Verdicts.{in_header, placed};
ghost use Rattle.lines.specs.Lines.{most_line};
ghost use Rattle.numbers.specs.Putting.{put};
ghost use Rattle.tables.specs.Columns.{number};
ghost use Rattle.book.specs.Book.{entered};
ghost use Rattle.book.specs.Holding.{Sound, result_of};
ghost use Rattle.book.specs.Result.{leaves, unless};
ghost use Rattle.book.specs.Room.{book_of};
ghost use Rattle.rules.specs.Points.{points_named, NamedIn};
ghost use Rattle.header.specs.Header.{header_check};
ghost use Rattle.row_line.specs.RowLine.{row_read};
ghost use Rattle.table_lines.specs.Reading.{judged};
ghost use Rattle.radio.specs.Radio.{line_heard, header_in};
ghost use Rattle.radio.specs.Room.{radio_bytes};
ghost use Rattle.radio.specs.Hearing.{bytes_heard};
ghost use Rattle.radio_lines.specs.Lines.{kept, Holding, CameTo, Stopping, Finished};

use editions::Edition;
use refusals::{Check, Fault, Place, Verdict};
use rows::Row;
use tables::Table;

// What is kept of a table while its parts come: the fault, or none; the number of the unfinished line; and how many bytes are kept of the
// header line and of the unfinished one.
#[derive(Clone, Copy)]
pub struct Heard {
    pub verdict: Verdict,
    pub line: u64,
    pub head: usize,
    pub rest: usize,
}

// 17, in a row after 5: of a line that is too long already, whatever follows.
pub fn too_long(t: Table, line: u64, book: &[Row]) -> Verdict
    requires { Sound book.now }
    ensures { (l head : Bytes) → most_line < length l → Stopping result (line_heard t l (book_of book.now) line head) }
{
    if line != Place::HEADER_LINE && t.room() <= book::count_rows(book, t) {
        return Err(Fault::too_many_rows().on(t.number(), line));
    }
    Err(Fault::line_too_long().on(t.number(), line))
}

// The header line; where it passes it is kept at the begin of the lines.
fn hear_head(edition: Edition, line: &[u8], t: Table, lines: &mut [u8]) -> Verdict
    requires { length lines.old ≡ radio_bytes }
    ensures { (result ≡ in_header (number t) (header_check edition t line.now)) × (result ≡ Ok tt → lines.new ≡ put line.now lines.old) }
{
    let columns = t.column_rules(edition);
    let heading = header::read_header(line, edition, t, &columns);
    let check = heading.check;
    refusals::placed(check, t.number(), Place::HEADER_LINE)?;
    number_lines::write_bytes(lines, line);
    Ok(())
}

// A row, under the header line that is kept.
fn hear_row(line: &[u8], i: u64, t: Table, head: &[u8], book: &mut [Row]) -> Verdict
    requires { Sound book.old × (points_named (book_of book.old) ≡ true) × (header_check (book_of book.old).edition t head.now ≡ Ok tt) }
    ensures { Sound book.new × NamedIn (result_of result book.new) × (result_of result book.new ≡ unless (placed (number t) i (judged t (header_in (book_of book.old).edition t head.now) line.now (book_of book.old))) (leaves (entered t (row_read (book_of book.old).edition t (header_in (book_of book.old).edition t head.now) line.now) (book_of book.old)))) }
{
    let edition = book::edition_of(&book[..]);
    let columns = t.column_rules(edition);
    let heading = header::read_header(head, edition, t, &columns);
    let at = heading.at;
    table_reading::take_line(line, i, t, &columns, &at, book)
}

// A line that is whole: the header or a row. It does not lie in the lines that are kept.
pub fn hear_line(line: &[u8], t: Table, book: &mut [Row], lines: &mut [u8], from: Heard) -> Heard
    requires { Holding t from book.old lines.old × (from.line + length line.now + 1 < 2 ^ 64) }
    ensures { CameTo t (line_heard t line.now (book_of book.old) from.line (take from.head lines.old)) book.new lines.new result × (from.line < result.line) × (result.line ≤ from.line + length line.now + 1) × (result.rest ≡ 0) }
{
    let i = from.line;
    let head = from.head;
    let edition = book::edition_of(&book[..]);
    let next = lines::line_after(edition, i, line);
    if i == Place::HEADER_LINE {
        let verdict = hear_head(edition, line, t, lines);
        return Heard {
            verdict,
            line: next,
            head: line.len(),
            rest: 0,
        };
    }
    let verdict = hear_row(line, i, t, &lines[0..head], book);
    Heard {
        verdict,
        line: next,
        head,
        rest: 0,
    }
}

// Rows that are finished, read where they lie.
pub fn hear_rows(body: &[u8], t: Table, book: &mut [Row], lines: &[u8], from: Heard) -> Heard
    requires { Holding t from book.old lines.now × (2 ≤ from.line) × (from.line + length body.now + 1 < 2 ^ 64) × (from.rest ≡ 0) × Finished (book_of book.old).edition [] body.now }
    ensures { CameTo t (bytes_heard t body.now (kept from book.old lines.now)) book.new lines.now result × (result.rest ≡ 0) }
{
    let line = from.line;
    let head = from.head;
    if body.is_empty() {
        return Heard {
            verdict: Ok(()),
            line,
            head,
            rest: 0,
        };
    }
    let edition = book::edition_of(&book[..]);
    let columns = t.column_rules(edition);
    let heading = header::read_header(&lines[0..head], edition, t, &columns);
    let at = heading.at;
    let taken = table_reading::take_rows(body, line, t, &columns, &at, book);
    let verdict = taken.verdict;
    let next = taken.line;
    Heard {
        verdict,
        line: next,
        head,
        rest: 0,
    }
}
