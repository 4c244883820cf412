// Opening a job.
ghost use Rattle.std.specs.Prelude.{◌≡◌, ◌≤◌, length};
ghost use Rattle.index.specs.Answers.{answered};
ghost use Rattle.index.specs.Checks.{fresh};
ghost use Rattle.rules.specs.Word.{below};
ghost use Rattle.index.specs.Opening.{first_bad, cut_up_to, no_job, opening};
ghost use Rattle.index.specs.Outcomes.{OpenGives};

use crate::{Answer, Chunk, Handed, Job, Kept, Refusal, State};
use layout::size_of;

pub(crate) fn fresh_chunk(cut: usize) -> Chunk
    ensures { result ≡ fresh cut }
{
    Chunk {
        cut,
        scanned: false,
        settled: false,
        levelled: false,
        inside: false,
        start: 0,
        kept: Kept {
            odd: false,
            net: 0,
            low: 0,
            high: 0,
        },
    }
}

// The number of the first bad cut. With 0 as the one before the first, a cut at 0 is not above it.
fn first_bad(n: usize, cuts: &[usize]) -> Option<usize>
    ensures { result ≡ below (length cuts.now) (first_bad n cuts.now) }
{
    let mut before = 0;
    for (i, &cut) in cuts.iter().enumerate() {
        if cut % 64 != 0 || n <= cut || cut <= before {
            return Some(i);
        }
        before = cut;
    }
    None
}

fn cut_chunks(cuts: &[usize]) -> [Chunk; 64]
    requires { length cuts.now ≤ 63 }
    ensures { result ≡ cut_up_to cuts.now (length cuts.now) }
{
    let mut chunks = [fresh_chunk(0); 64];
    for (i, &cut) in cuts.iter().enumerate() {
        chunks[i + 1] = fresh_chunk(cut);
    }
    chunks
}

fn no_job() -> Job
    ensures { result ≡ no_job }
{
    Job {
        n: 0,
        levels: 0,
        count: 0,
        state: State::Closed,
        chunks: [fresh_chunk(0); 64],
    }
}

// The refusals of opening, 1 to 6 in this order.
fn check_opening(n: usize, w: usize, levels: usize, cuts: &[usize]) -> Result<(), Refusal>
    ensures { answered result ≡ opening n w levels cuts.now }
{
    if n == 0 {
        return Err(Refusal::Empty);
    }
    if 16777216 < n {
        return Err(Refusal::TooLong);
    }
    if levels == 0 || 16 < levels {
        return Err(Refusal::BadLevels);
    }
    if w != size_of(levels, n) {
        return Err(Refusal::BadBuffer);
    }
    if 63 < cuts.len() {
        return Err(Refusal::ManyCuts);
    }
    match first_bad(n, cuts) {
        Some(i) => Err(Refusal::BadCut(i)),
        None => Ok(()),
    }
}

impl Job {
    pub fn open(text: &[u8], words: &[u64], levels: usize, cuts: &[usize]) -> Handed
        ensures { OpenGives text.now words.now levels cuts.now result }
    {
        let n = text.len();
        if let Err(why) = check_opening(n, words.len(), levels, cuts) {
            return no_job().refused(why);
        }
        let job = Job {
            n,
            levels,
            count: cuts.len() + 1,
            state: State::Open,
            chunks: cut_chunks(cuts),
        };
        Handed {
            answer: Answer::Done,
            job,
        }
    }
}
