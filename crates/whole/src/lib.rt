// A whole job by one call: opened, stepped by a list of calls or in the plain order, closed.
#![tactic(auto)]

ghost use Rattle.std.specs.Prelude.{◌≡◌, ◌+◌, length};
ghost use Rattle.runs.specs.Runs.{act, run};
ghost use Rattle.runs.specs.Whole.{held, whole_answer, whole_words, scans, finishes, plainly};
ghost use Rattle.whole.specs.Calls.{called, calls_of};

use index::{Answer, Job};

// A step of a chunk.
#[derive(Clone, Copy)]
enum Call {
    Scan { chunk: usize, inside: bool },
    Settle { chunk: usize },
    Level { chunk: usize },
}

// A byte is a call: four times the chunk, and which step.
impl From<u8> for Call {
    ghost use Rattle.std.specs.Prelude.{◌≡◌};
    ghost use Rattle.whole.specs.Calls.{call_of, called};

    ghost from_gives = { λ byte call. called call ≡ call_of byte };

    fn from(byte: u8) -> Call {
        let chunk = (byte / 4) as usize;
        match byte % 4 {
            0 => Call::Scan {
                chunk,
                inside: false,
            },
            1 => Call::Scan {
                chunk,
                inside: true,
            },
            2 => Call::Settle { chunk },
            _ => Call::Level { chunk },
        }
    }
}

// A call that is refused changes nothing, so no answer needs to be looked at before that of close.
fn make_call(job: Job, text: &[u8], words: &mut [u64], call: Call) -> Job
    ensures { held result words.new ≡ act text.now (called call) (held job words.old) }
{
    match call {
        Call::Scan { chunk, inside } => job.scan(text, words, chunk, inside).job,
        Call::Settle { chunk } => job.settle(text, words, chunk).job,
        Call::Level { chunk } => job.level(text, words, chunk).job,
    }
}

fn make_calls(mut job: Job, text: &[u8], words: &mut [u64], calls: &[u8]) -> Job
    ensures { held result words.new ≡ run text.now (calls_of calls.now) (held job words.old) }
{
    for &byte in calls {
        job = make_call(job, text, words, Call::from(byte));
    }
    job
}

// Any calls in any order; a byte is a call.
pub fn run(text: &[u8], words: &mut [u64], levels: usize, cuts: &[usize], calls: &[u8]) -> Answer
    ensures value { result ≡ whole_answer text.now words.old levels cuts.now (calls_of calls.now) }
    ensures words_after { words.new ≡ whole_words text.now words.old levels cuts.now (calls_of calls.now) }
{
    let opened = Job::open(text, words, levels, cuts);
    let Answer::Done = opened.answer else {
        return opened.answer;
    };
    let stepped = make_calls(opened.job, text, words, calls);
    stepped.close(text, words).answer
}

fn scan_all(mut job: Job, text: &[u8], words: &mut [u64], chunks: usize) -> Job
    ensures { held result words.new ≡ run text.now (scans chunks) (held job words.old) }
{
    for k in (0..chunks).rev() {
        job = job.scan(text, words, k, false).job;
    }
    job
}

fn finish_all(mut job: Job, text: &[u8], words: &mut [u64], chunks: usize) -> Job
    ensures { held result words.new ≡ run text.now (finishes 0 chunks) (held job words.old) }
{
    for k in 0..chunks {
        let settled = job.settle(text, words, k);
        job = settled.job.level(text, words, k).job;
    }
    job
}

// The plain order: every chunk scanned with the guess 'outside', then each settled and levelled.
pub fn plain(text: &[u8], words: &mut [u64], levels: usize, cuts: &[usize]) -> Answer
    ensures value { result ≡ whole_answer text.now words.old levels cuts.now (plainly (length cuts.now + 1)) }
    ensures words_after { words.new ≡ whole_words text.now words.old levels cuts.now (plainly (length cuts.now + 1)) }
{
    let opened = Job::open(text, words, levels, cuts);
    let Answer::Done = opened.answer else {
        return opened.answer;
    };
    let chunks = cuts.len() + 1;
    let scanned = scan_all(opened.job, text, words, chunks);
    let finished = finish_all(scanned, text, words, chunks);
    finished.close(text, words).answer
}
