// The edition and the days that the arguments of a program ask for.
#![tactic(auto)]

ghost use Rattle.std.specs.Prelude.{◌≡◌, ◌≤◌, length};
ghost use Rattle.options.specs.Options.{edition_said, SaidByWord, day_said, DayByWord};

use editions::Edition;
use std::env::FillError;
use std::rt::Env;

// The words by which a caller chooses.
const SAID_21: [u8; 13] = *b"--edition=2.1";

const SAID_23: [u8; 13] = *b"--edition=2.3";

// No edition has this number.
const NO_EDITION: u64 = 0;

// Room for a word: one that is longer is none of those.
const WORD_ROOM: usize = 32;

// How many arguments the program was started with, its own name among them.
fn arg_count(rt: &impl Env) -> usize {
    (0..usize::MAX)
        .find(|i| matches!(rt.arg(*i, &mut []), Err(FillError::NotPresent)))
        .unwrap_or(usize::MAX)
}

// An argument, at the head of the room lent: no bytes where it is missing or longer than the room.
fn arg<'a>(rt: &impl Env, i: usize, room: &'a mut [u8]) -> &'a [u8]
    ensures { length result.now ≤ length room.old }
{
    let n = rt.arg(i, room).unwrap_or(0);
    &room[..n]
}

// The number of the edition that a word asks for, or of none.
pub fn edition_said(word: &[u8]) -> u64
    ensures { result ≡ edition_said word.now }
{
    if word == &SAID_21[..] {
        return Edition::BY_21;
    }
    if word == &SAID_23[..] {
        return Edition::BY_23;
    }
    NO_EDITION
}

// The same for the program's arguments before so many others: without one it is 2.1, and more than one ask for none, since a whole delivery has one
// edition.
pub fn edition_before(rt: &impl Env, others: usize) -> u64
    ensures { SaidByWord result }
{
    match arg_count(rt).saturating_sub(others) {
        0 | 1 => edition_said(&SAID_21),
        2 => edition_said(arg(rt, 1, &mut [0; WORD_ROOM])),
        _ => edition_said(b""),
    }
}

pub fn edition_asked(rt: &impl Env) -> u64
    ensures { SaidByWord result }
{
    edition_before(rt, 0)
}

// How many digits a day has, YYYYMMDD.
const DAY_WIDTH: usize = 8;

// The number that a word of up to eight digits says; another says 0, which is no date.
pub fn day_said(word: &[u8]) -> u64
    ensures { result ≡ day_said word.now }
{
    numbers::number_of(word, DAY_WIDTH).unwrap_or(0)
}

// The same for the program's argument so many places from the end, the last being 1.
pub fn day_asked(rt: &impl Env, place: usize) -> u64
    ensures { DayByWord result }
{
    let count = arg_count(rt);
    if count <= place {
        return day_said(b"");
    }
    day_said(arg(rt, count - place, &mut [0; WORD_ROOM]))
}
