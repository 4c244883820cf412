// What every step checks, where a chunk lies, and what asking tells.
ghost use Rattle.std.specs.Prelude.{◌≡◌, ◌≤◌};
ghost use Rattle.index.specs.Answers.{answered};
ghost use Rattle.index.specs.declared.Answer.TheVariants.{Refused};
ghost use Rattle.index.specs.Checks.{chunks_of, chunk_at, with_chunk, with_state, first_word, is_last, span_of, same_lengths, taken, ready, refusal};
ghost use Rattle.index.specs.Outcomes.{AskGives};

use crate::opening::fresh_chunk;
use crate::{Answer, Asked, Chunk, Handed, Job, Refusal, State, Step, Steps};
use chunks::Span;
use layout::{size_of, width_of};

impl Chunk {
    fn took(self, s: Step) -> bool
        ensures { result ≡ taken s self }
    {
        match s {
            Step::Scan => self.scanned,
            Step::Settle => self.settled,
            Step::Level => self.levelled,
        }
    }
}

impl Job {
    // Never above 64, whatever the job.
    pub(crate) fn chunks(&self) -> usize
        ensures { result ≡ chunks_of self.now }
    {
        self.count.min(64)
    }

    // Chunk k; a number that no chunk has gives a fresh one. (By reference: by value each look at a chunk would copy the job.)
    pub(crate) fn chunk(&self, k: usize) -> Chunk
        ensures { result ≡ chunk_at self.now k }
    {
        if k < 64 {
            self.chunks[k]
        } else {
            fresh_chunk(0)
        }
    }

    // (Three flags of `Chunk`, whose fields the definitions fix, as a value of their own.)
    pub fn ask(self, k: usize) -> Asked
        ensures { AskGives self k result }
    {
        let chunks = self.chunks();
        let c = self.chunk(k);
        let steps = Steps {
            scanned: c.scanned,
            settled: c.settled,
            levelled: c.levelled,
        };
        Asked {
            chunks,
            had: (k < chunks).then_some(steps),
        }
    }

    pub(crate) fn with_chunk(mut self, k: usize, c: Chunk) -> Job
        ensures { result ≡ with_chunk self k c }
    {
        if k < 64 {
            self.chunks[k] = c;
        }
        self
    }

    pub(crate) fn with_state(self, state: State) -> Job
        ensures { result ≡ with_state self state }
    {
        Job { state, ..self }
    }

    fn first_word(&self, n: usize, k: usize) -> usize
        requires { n ≤ 16777216 }
        ensures { result ≡ first_word self.now n k }
    {
        (self.chunk(k).cut / 64).min(width_of(n))
    }

    pub(crate) fn is_last(&self, k: usize) -> bool
        ensures { result ≡ is_last self.now k }
    {
        self.chunks() <= k || self.chunks() == k + 1
    }

    // The words of chunk k, within those of a record of n bytes whatever the job.
    pub(crate) fn span(&self, n: usize, k: usize) -> Span
        requires { n ≤ 16777216 }
        ensures { result ≡ span_of self.now n k }
    {
        let from = self.first_word(n, k);
        let to = if self.is_last(k) {
            width_of(n)
        } else {
            self.first_word(n, k + 1)
        };
        Span { from, to }
    }

    // Whether a record of n bytes and a buffer of w words are as long as the job's.
    pub(crate) fn fits(&self, n: usize, w: usize) -> bool
        ensures { result ≡ same_lengths self.now n w }
    {
        if n != self.n || 16777216 < n || 16 < self.levels {
            return false;
        }
        size_of(self.levels, n) == w
    }

    fn is_ready(&self, s: Step, k: usize) -> bool
        ensures { result ≡ ready s self.now k }
    {
        let c = self.chunk(k);
        match s {
            Step::Scan => true,
            Step::Settle => c.scanned && (k == 0 || self.chunk(k - 1).settled),
            Step::Level => c.settled,
        }
    }

    // The refusals of a step, 7 to 12 in this order.
    pub(crate) fn check(&self, s: Step, n: usize, w: usize, k: usize) -> Result<(), Refusal>
        ensures { answered result ≡ refusal s self.now n w k }
    {
        match self.state {
            State::Closed => return Err(Refusal::IsClosed),
            State::Stopped(_) => return Err(Refusal::IsStopped),
            State::Open => {}
        }
        if !self.fits(n, w) {
            return Err(Refusal::OtherLength);
        }
        if self.chunks() <= k {
            return Err(Refusal::NoChunk);
        }
        if self.chunk(k).took(s) {
            return Err(Refusal::Taken);
        }
        if !self.is_ready(s, k) {
            return Err(Refusal::Early);
        }
        Ok(())
    }

    // A refused call hands the job back as it was.
    pub(crate) fn refused(self, why: Refusal) -> Handed
        ensures { result ≡ record { answer = Refused why; job = self } }
    {
        Handed {
            answer: Answer::Refused(why),
            job: self,
        }
    }
}
