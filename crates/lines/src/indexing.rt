// One line indexed: a job of one chunk over its own bytes, in the front of the words.
ghost use Rattle.std.specs.Prelude.{◌≡◌, ◌<◌, ◌≤◌, length, IfSome};
ghost use Rattle.rules.specs.Faults.{fault_of};
ghost use Rattle.lines.specs.Jobs.{line_at, line_number, line_place, told_line, of_verdict, verdict_words, front_answer, front_words, line_answer, line_words, balanced, Indexable};

use crate::LineAnswer;
use blocks::swing::Swing;
use chunks::Span;
use chunks::levelling::level_words;
use chunks::scanning::scan_words;
use index::{Answer, Refusal};
use layout::{size_of, width_of};
use query::types::Part;

// By arms: a case with a refusal or a fault has that one's numbers.
impl LineAnswer {
    pub fn number(self) -> u64
        ensures { result ≡ line_number self }
    {
        match self {
            LineAnswer::Done => 0,
            LineAnswer::Refused(why) => why.number(),
            LineAnswer::Faulty { fault, line: _ } => fault.number(),
        }
    }

    // In the line.
    pub fn place(self) -> usize
        ensures { result ≡ line_place self }
    {
        match self {
            LineAnswer::Done | LineAnswer::Refused(_) => 0,
            LineAnswer::Faulty { fault, line: _ } => fault.place(),
        }
    }

    // The line's number that a fault tells; else 0.
    pub fn line(self) -> usize
        ensures { result ≡ told_line self }
    {
        match self {
            LineAnswer::Done | LineAnswer::Refused(_) => 0,
            LineAnswer::Faulty { fault: _, line } => line,
        }
    }
}

// Whether a scan of all the words found no fault: no string and no bracket is open behind them, and the depth stayed in bounds.
#[tactic(auto, unfolding(crate::specs::Jobs::balanced))]
fn is_balanced(inside: bool, swing: Swing) -> bool
    ensures { result ≡ balanced inside swing }
{
    !inside && swing.dip == 0 && swing.peak <= 64 && swing.up == swing.down
}

// All words of a line. The steps of a job of one chunk, without the job: it would be handed on by copies longer than most lines. Only a line
// with a fault is given to one, which finds its place.
fn make_index(line: &[u8], words: &mut [u64], levels: usize) -> Answer
    requires { Indexable line.now words.old levels }
    ensures value { result ≡ of_verdict (fault_of line.now) }
    ensures words_after { words.new ≡ verdict_words (fault_of line.now) line.now levels }
{
    let all = Span {
        from: 0,
        to: width_of(line.len()),
    };
    let swept = scan_words(line, words, levels, all, false);
    if is_balanced(swept.inside, swept.swing) {
        level_words(line, words, levels, all, 0);
        return Answer::Done;
    }
    whole::plain(line, words, levels, &[0usize; 0])
}

// The same in the front of the words, as far as a line can be indexed there.
#[tactic(auto, unfolding(crate::specs::Jobs::front_answer, crate::specs::Jobs::front_checks, crate::specs::Jobs::front_words))]
fn index_front(line: &[u8], words: &mut [u64], levels: usize) -> Answer
    ensures value { result ≡ front_answer line.now levels (length words.old) }
    ensures words_after { words.new ≡ front_words line.now levels words.old }
{
    let n = line.len();
    let room = words.len();
    if n == 0 {
        return Answer::Refused(Refusal::Empty);
    }
    if 16777216 < n {
        return Answer::Refused(Refusal::TooLong);
    }
    if levels == 0 || 16 < levels {
        return Answer::Refused(Refusal::BadLevels);
    }
    let size = size_of(levels, n);
    if room < size {
        return Answer::Refused(Refusal::BadBuffer);
    }
    make_index(line, &mut words[..size], levels)
}

// Where the line with number i lies in a text of n bytes, if it does.
#[tactic(auto, unfolding(crate::specs::Jobs::line_at))]
fn line_at(n: usize, table: &[usize], i: usize) -> Option<Part>
    ensures value { result ≡ line_at n table.now i }
    ensures within { IfSome result (λ line. (line.start ≤ line.end) × (line.end ≤ n)) }
{
    if table.len() / 2 <= i {
        return None;
    }
    let start = table[2 * i];
    let end = table[2 * i + 1];
    if end < start || n < end {
        return None;
    }
    Some(Part { start, end })
}

// Indexes the line with number i of a table: its bytes alone, in the front of the words.
#[tactic(auto, unfolding(crate::specs::Jobs::line_answer, crate::specs::Jobs::line_words, crate::specs::Jobs::line_of))]
pub fn index_line(
    text: &[u8],
    table: &[usize],
    i: usize,
    words: &mut [u64],
    levels: usize,
) -> LineAnswer
    ensures value { result ≡ line_answer text.now table.now i levels (length words.old) }
    ensures words_after { words.new ≡ line_words text.now table.now i levels words.old }
{
    let Some(found) = line_at(text.len(), table, i) else {
        return LineAnswer::Refused(Refusal::Empty);
    };
    match index_front(&text[found.start..found.end], words, levels) {
        Answer::Done => LineAnswer::Done,
        Answer::Refused(why) => LineAnswer::Refused(why),
        Answer::Faulty(fault) => LineAnswer::Faulty { fault, line: i },
    }
}
