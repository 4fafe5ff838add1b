// The lines of a text.
#![tactic(auto)]

ghost use Rattle.std.specs.Prelude.{◌≡◌, not, ◌+◌, ◌<◌, ◌≤◌, ◌^◌, eqb, ltb, drop, length};
ghost use Rattle.words.specs.Words.{whether◌then◌else◌};
ghost use Rattle.editions.specs.declared.Edition.{Edition};
ghost use Rattle.cells.specs.Cells.{inside, breakable};
ghost use Rattle.cells.specs.declared.State.TheVariants.{Fresh};
ghost use Rattle.lines.specs.Ends.{slip_length, feed_from, line_length, line_at, slip_line_at, RowBegin};
ghost use Rattle.lines.specs.Lines.{quoting_behind, quoting, ends_row, breaks, feeds, line_after};

use cells::State;
use editions::Edition;

// Where a line ends, and where the next one begins.
#[derive(Clone, Copy)]
pub struct Line {
    pub end: usize,
    pub next: usize,
}

// The most bytes that a text has.
pub const MOST_BYTES: usize = 65536;

// The most bytes that a line of a table has.
pub const MOST_LINE: usize = 2048;

const LINE_FEED: u8 = 10;

const CARRIAGE_RETURN: u8 = 13;

// The first line feed at or after a place, or the text's end; the place itself where it lies behind the end.
fn line_feed(text: &[u8], at: usize) -> usize
    ensures { result ≡ at + slip_length (drop at text.now) }
{
    for i in at..text.len() {
        if text[i] == LINE_FEED {
            return i;
        }
    }
    at.max(text.len())
}

// How the quotes of a row stand behind one more byte.
fn behind(s: State, b: u8) -> State
    ensures { result ≡ quoting s b }
{
    match b {
        b'"' => match s {
            State::Fresh | State::Closed => State::Inside,
            State::Inside => State::Closed,
            _ => State::Plain,
        },
        b';' => match s {
            State::Fresh | State::Plain | State::Closed => State::Fresh,
            State::Inside => State::Inside,
            _ => State::Plain,
        },
        _ if s == State::Inside => State::Inside,
        _ => State::Plain,
    }
}

fn is_inside(s: State) -> bool
    ensures { result ≡ inside s }
{
    s == State::Inside
}

// Whether a byte ends a row by 2.3: a line feed outside quotes.
fn ends_row(s: State, b: u8) -> bool
    ensures { result ≡ ends_row Edition.Dino23 s b }
{
    b == LINE_FEED && !is_inside(s)
}

// By 2.3 the line feed that ends a row whose quotes stand so at a place, or the text's end.
fn quoted_feed(text: &[u8], at: usize, state: State) -> usize
    ensures { result ≡ at + feed_from Edition.Dino23 state (drop at text.now) }
{
    let mut s = state;
    for i in at..text.len() {
        if ends_row(s, text[i]) {
            return i;
        }
        s = behind(s, text[i]);
    }
    at.max(text.len())
}

// The line feed that ends a row whose quotes stand so at a place, or the text's end. By 2.1 quotes do not matter.
pub fn row_feed(edition: Edition, text: &[u8], at: usize, state: State) -> usize
    ensures { result ≡ at + feed_from edition state (drop at text.now) }
{
    match edition {
        Edition::Dino21 => line_feed(text, at),
        Edition::Dino23 => quoted_feed(text, at, state),
    }
}

// How the quotes of a row stand behind these bytes of it.
pub fn quotes_behind(bytes: &[u8]) -> State
    ensures { result ≡ quoting_behind Fresh bytes.now }
{
    let mut s = State::Fresh;
    for b in bytes {
        s = behind(s, *b);
    }
    s
}

// Where the line ends whose line feed is known: one carriage return just before that is dropped.
fn before_return(text: &[u8], at: usize, feed: usize) -> usize
    requires { feed < length text.now }
    ensures { (e : Edition) → feed ≡ at + feed_from e Fresh (drop at text.now) → result ≡ at + line_length e Fresh (drop at text.now) }
{
    if at < feed && text[feed - 1] == CARRIAGE_RETURN {
        feed - 1
    } else {
        feed
    }
}

// Where the next line begins: behind this one's line feed, or at the text's end, behind which none begins.
fn behind_feed(text: &[u8], feed: usize) -> usize
    ensures { result ≡ (whether ltb feed (length text.now) then feed + 1 else feed) }
{
    if feed < text.len() { feed + 1 } else { feed }
}

// The line of a table's text that begins at a place.
pub fn next_line(edition: Edition, text: &[u8], at: usize) -> Line
    ensures { result ≡ line_at edition text.now at }
{
    let feed = row_feed(edition, text, at, State::Fresh);
    let next = behind_feed(text, feed);
    if text.len() <= feed {
        return Line { end: feed, next };
    }
    Line {
        end: before_return(text, at, feed),
        next,
    }
}

// The line of a slip that begins at a place.
pub fn next_slip_line(text: &[u8], at: usize) -> Line
    ensures { result ≡ slip_line_at text.now at }
{
    let end = line_feed(text, at);
    Line {
        end,
        next: behind_feed(text, end),
    }
}

// How many line feeds stand in some bytes. (By a sum, of which several bytes are added at once: what counts those that a filter lets through goes byte by byte.)
fn feeds_in(bytes: &[u8]) -> u64
    ensures { (result ≡ feeds bytes.now) × (result ≤ length bytes.now) }
{
    let mut n = 0;
    for b in bytes {
        n += u64::from(*b == LINE_FEED);
    }
    n
}

// How many breaks stand in a row.
fn breaks_in(edition: Edition, row: &[u8]) -> u64
    ensures { (result ≡ breaks edition row.now) × (result ≤ length row.now) }
{
    match edition {
        Edition::Dino21 => 0,
        Edition::Dino23 => feeds_in(row),
    }
}

// The line on which the next row starts, behind one that starts on line i.
pub fn line_after(edition: Edition, i: u64, row: &[u8]) -> u64
    requires { i + length row.now + 1 < 2 ^ 64 }
    ensures { result ≡ line_after edition i row.now }
{
    i + breaks_in(edition, row) + 1
}

// Where the row begins that starts on a line, or the text's end where no row does.
pub fn row_begin(edition: Edition, text: &[u8], line: u64) -> usize
    requires { 1 ≤ line }
    ensures { RowBegin edition line text.now result }
{
    let mut i: u64 = 1;
    let mut at = 0;
    'rows: while i < line {
        if text.len() <= at {
            return at;
        }
        let l = next_line(edition, text, at);
        let end = l.end;
        let next = l.next;
        let breaks = breaks_in(edition, &text[at..end]);
        if line - i <= breaks {
            return text.len();
        }
        i += breaks + 1;
        at = next;
    }
    at
}
