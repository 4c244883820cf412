// Closing a job.
ghost use Rattle.std.specs.Prelude.{◌≡◌};
ghost use Rattle.index.specs.Closing.{all_levelled, closing};
ghost use Rattle.index.specs.Outcomes.{CloseGives};

use crate::{Answer, Handed, Job, Refusal, State};
use layout::zero_words;

impl Job {
    fn all_levelled(&self) -> bool
        ensures { result ≡ all_levelled self.now }
    {
        self.chunks.iter().take(self.chunks()).all(|c| c.levelled)
    }

    // The refusal of a close, 7, 9 and 12 in this order, or the fault that the job stopped with: three outcomes, as `Answer` has.
    fn close_answer(&self, n: usize, w: usize) -> Answer
        ensures { result ≡ closing self.now n w }
    {
        match self.state {
            State::Closed => Answer::Refused(Refusal::IsClosed),
            State::Stopped(f) => {
                if self.fits(n, w) {
                    Answer::Faulty(f)
                } else {
                    Answer::Refused(Refusal::OtherLength)
                }
            }
            State::Open => {
                if !self.fits(n, w) {
                    return Answer::Refused(Refusal::OtherLength);
                }
                if self.all_levelled() {
                    Answer::Done
                } else {
                    Answer::Refused(Refusal::Early)
                }
            }
        }
    }

    pub fn close(self, text: &[u8], words: &mut [u64]) -> Handed
        ensures { CloseGives self text.now words.old result words.new }
    {
        let answer = self.close_answer(text.len(), words.len());
        match answer {
            Answer::Refused(why) => self.refused(why),
            Answer::Faulty(_) => {
                zero_words(words);
                Handed {
                    answer,
                    job: self.with_state(State::Closed),
                }
            }
            Answer::Done => Handed {
                answer,
                job: self.with_state(State::Closed),
            },
        }
    }
}
