// The line of an input, on slices alone.
ghost use Rattle.std.specs.Prelude.{◌≡◌, ◌-◌, ◌/◌, ◌≤◌, length};
ghost use Rattle.query.specs.Answers.{answer_of};
ghost use Rattle.show.specs.Running.{multiples};
ghost use Rattle.show.specs.Printing as Printing;

use index::Answer;
use layout::size_of;
use memchr::memchr;
use query::types::Refusal;
use std::{array, fmt};

#[derive(Clone, Copy)]
pub struct Printed {
    pub number: u64,
    pub start: usize,
    pub end: usize,
}

impl fmt::Display for Printed {
    fn fmt<W: fmt::Write>(&self, f: &mut fmt::Formatter<W>) -> fmt::Result {
        write!(f, "{} {} {}", self.number, self.start, self.end)
    }
}

fn placed(number: u64, place: usize) -> Printed
    ensures { result ≡ Printing.placed number place }
{
    Printed {
        number,
        start: place,
        end: place,
    }
}

// A miss and a broken item tell a place in the record, and do not print it.
fn refused(why: Refusal) -> Printed
    ensures { result ≡ Printing.refusal_printed why }
{
    let place = match why {
        Refusal::Missed { .. } | Refusal::Broken { .. } => 0,
        _ => why.place(),
    };
    placed(why.number(), place)
}

fn query_printed(text: &[u8], words: &[u64], path: &[u8]) -> Printed
    ensures { result ≡ Printing.query_printed (answer_of text.now words.now 4 path.now) }
{
    match query::answer(text, words, 4, path) {
        Ok(part) => Printed {
            number: 0,
            start: part.start,
            end: part.end,
        },
        Err(why) => refused(why),
    }
}

#[tactic(auto, unfolding(crate::specs::Printing::printed_in))]
fn printed_in(text: &[u8], words: &mut [u64], cuts: &[usize], path: &[u8]) -> Printed
    ensures { result ≡ Printing.printed_in text.now words.old cuts.now path.now }
{
    let answer = whole::plain(text, words, 4, cuts);
    let Answer::Done = answer else {
        return placed(answer.number(), answer.place());
    };
    query_printed(text, words, path)
}

// How many multiples of 1,024 lie below n, 0 not counted.
fn cut_count(n: usize) -> usize
    ensures { result ≡ (n - 1) / 1024 }
{
    n.saturating_sub(1) / 1024
}

// As many as a record of 16,384 bytes is cut at.
fn all_cuts() -> [usize; 15]
    ensures { result ≡ multiples 15 }
{
    array::from_fn(|i| 1024 * (i + 1))
}

// As many as the index of such a record has.
#[tactic(auto, unfolding(crate::specs::Printing::zeros))]
fn all_words() -> [u64; 2560]
    ensures { result ≡ Printing.zeros 2560 }
{
    [0; 2560]
}

fn printed_of(text: &[u8], path: &[u8]) -> Printed
    requires { length text.now ≤ 16384 }
    ensures { result ≡ Printing.printed_of text.now path.now }
{
    let count = cut_count(text.len());
    let size = size_of(4, text.len());
    let cuts = all_cuts();
    let mut space = all_words();
    let words: &mut [u64] = &mut space;
    printed_in(text, &mut words[..size], &cuts[..count], path)
}

// The path and the record: what lies before the first LF, and behind it. An input without an LF is all path.
fn parts(input: &[u8]) -> (&[u8], &[u8])
    ensures path { result.0.now ≡ Printing.path_of input.now }
    ensures path_long { length result.0.now ≡ Printing.path_end input.now }
    ensures record { result.1.now ≡ Printing.record_of input.now }
{
    match memchr(b'\n', input) {
        Some(at) => (&input[..at], &input[at + 1..]),
        None => (input, &input[input.len()..]),
    }
}

#[tactic(auto, unfolding(crate::specs::Printing::shown))]
pub fn shown(input: &[u8]) -> Printed
    ensures { result ≡ Printing.shown input.now }
{
    let (path, text) = parts(input);
    if 1024 < path.len() {
        return refused(Refusal::TooLarge);
    }
    if 16384 < text.len() {
        return refused(Refusal::LongRecord);
    }
    printed_of(text, path)
}
