// A structural index over a record in lent memory, made chunk by chunk. The face of the crate is `Job`, its operations, and what they answer.
#![tactic(auto)]

mod answers;
mod checks;
mod closing;
mod depth;
mod levelling;
mod opening;
mod scanning;
mod settling;

// What is wrong with a record, with its place: 13, 14, 15 and 16.
#[derive(Clone, Copy)]
pub enum Fault {
    Closer(usize),
    Opener(usize),
    InString(usize),
    InBracket(usize),
}

// Why a call was refused: 1 to 12, in this order.
#[derive(Clone, Copy)]
pub enum Refusal {
    Empty,
    TooLong,
    BadLevels,
    BadBuffer,
    ManyCuts,
    BadCut(usize),
    IsClosed,
    IsStopped,
    OtherLength,
    NoChunk,
    Taken,
    Early,
}

// Three outcomes: close tells a fault beside the refusals, so it is no Result.
#[derive(Clone, Copy)]
pub enum Answer {
    Done,
    Refused(Refusal),
    Faulty(Fault),
}

#[derive(Clone, Copy)]
pub(crate) enum State {
    Open,
    Stopped(Fault),
    Closed,
}

#[derive(Clone, Copy)]
pub(crate) enum Step {
    Scan,
    Settle,
    Level,
}

// What a chunk keeps of its bytes: the parity of its quotes, the change of depth, and the lowest and the highest depth met, from 0 at its border.
#[derive(Clone, Copy)]
pub(crate) struct Kept {
    pub(crate) odd: bool,
    pub(crate) net: i32,
    pub(crate) low: i32,
    pub(crate) high: i32,
}

// `inside` is the guess, and once settled the truth, about its first byte; `start` the depth there. (The three steps are flags beside what
// they speak of, and no Options: the definitions and theorems speak of any job, with these fields whatever the flags.)
#[derive(Clone, Copy)]
pub(crate) struct Chunk {
    pub(crate) cut: usize,
    pub(crate) scanned: bool,
    pub(crate) settled: bool,
    pub(crate) levelled: bool,
    pub(crate) inside: bool,
    pub(crate) start: u32,
    pub(crate) kept: Kept,
}

// 64 places for chunks and a count: nothing allocates, and the theorems speak of any job, whatever its count.
#[derive(Clone, Copy)]
pub struct Job {
    pub(crate) n: usize,
    pub(crate) levels: usize,
    pub(crate) count: usize,
    pub(crate) state: State,
    pub(crate) chunks: [Chunk; 64],
}

// What every call hands back: the job is one value handed on, lent to none.
#[derive(Clone, Copy)]
pub struct Handed {
    pub answer: Answer,
    pub job: Job,
}

// Which steps a chunk has had.
#[derive(Clone, Copy)]
pub struct Steps {
    pub scanned: bool,
    pub settled: bool,
    pub levelled: bool,
}

// How many chunks there are, and what one of them has had; None is 10.
#[derive(Clone, Copy)]
pub struct Asked {
    pub chunks: usize,
    pub had: Option<Steps>,
}
