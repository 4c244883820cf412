// What a program in C or Rust calls, by the exports of `face_c`: numbers and slices of numbers alone.
#![tactic(auto)]

ghost use Rattle.std.specs.Prelude.{◌+◌, length};
ghost use Rattle.runs.specs.Whole.{plainly};
ghost use Rattle.whole.specs.Calls.{calls_of};
ghost use Rattle.face.specs.Outcomes.{RunTells, QueryTells, TableTells, LineTells, NextTells};

use lines::cutting::next_line;
use lines::indexing::index_line;
use lines::table::{Tabled, cut_lines};

// Opens a job, makes the calls in their order, a byte each, and closes it. Tells the number and place of the close, or of the
// opening's refusal.
pub fn wararish_run(
    text: &[u8],
    words: &mut [u64],
    levels: usize,
    cuts: &[usize],
    calls: &[u8],
    place: &mut usize,
) -> u64
    ensures { RunTells text.now words.old levels cuts.now (calls_of calls.now) result place.new words.new }
{
    let answer = whole::run(text, words, levels, cuts, calls);
    *place = answer.place();
    answer.number()
}

// The plain case: every chunk scanned with the guess 'outside', then each settled and levelled.
pub fn wararish_index(
    text: &[u8],
    words: &mut [u64],
    levels: usize,
    cuts: &[usize],
    place: &mut usize,
) -> u64
    ensures { RunTells text.now words.old levels cuts.now (plainly (length cuts.now + 1)) result place.new words.new }
{
    let answer = whole::plain(text, words, levels, cuts);
    *place = answer.place();
    answer.number()
}

// The part that a path selects, as its place and its size: a foreign caller makes the slice of it. And the step that a refusal
// tells.
pub fn wararish_query(
    text: &[u8],
    words: &[u64],
    levels: usize,
    path: &[u8],
    place: &mut usize,
    size: &mut usize,
    step: &mut usize,
) -> u64
    ensures { QueryTells text.now words.now levels path.now result place.new size.new step.new }
{
    let mut number = 0;
    let part = query::query(text, words, levels, path, &mut number, place, step);
    *size = part.len();
    number
}

// Cuts a text into its lines, two numbers of the table each, and tells how many there are.
pub fn wararish_table(text: &[u8], table: &mut [usize], count: &mut usize) -> u64
    ensures { TableTells text.now table.old result count.new table.new }
{
    let tabled = cut_lines(text, table);
    *count = tabled.count();
    tabled.number()
}

// Indexes one line of a table in the front of the words. (The line's number of a fault is the one that was handed in.)
pub fn wararish_line(
    text: &[u8],
    table: &[usize],
    line: usize,
    words: &mut [u64],
    levels: usize,
    place: &mut usize,
) -> u64
    ensures { LineTells text.now table.now line levels words.old result place.new words.new }
{
    let answer = index_line(text, table, line, words, levels);
    *place = answer.place();
    answer.number()
}

// The next line that is not blank: 1 and where it lies, or 0.
pub fn wararish_next_line(text: &[u8], from: usize, start: &mut usize, end: &mut usize) -> u64
    ensures { NextTells text.now from result start.new end.new }
{
    match next_line(text, from) {
        Some(line) => {
            *start = line.start;
            *end = line.end;
            1
        }
        None => {
            *start = 0;
            *end = 0;
            0
        }
    }
}
