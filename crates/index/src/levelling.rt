// Level: a chunk's colons and commas written, and the step marked as had.
ghost use Rattle.index.specs.Outcomes.{LevelGives};

use crate::{Answer, Chunk, Handed, Job, Step};
use chunks::levelling::level_words;

impl Job {
    pub fn level(self, text: &[u8], words: &mut [u64], k: usize) -> Handed
        ensures { LevelGives self text.now words.old k result words.new }
    {
        if let Err(why) = self.check(Step::Level, text.len(), words.len(), k) {
            return self.refused(why);
        }
        let s = self.span(text.len(), k);
        let c = self.chunk(k);
        level_words(text, words, self.levels, s, c.start);
        let levelled = Chunk {
            levelled: true,
            ..c
        };
        Handed {
            answer: Answer::Done,
            job: self.with_chunk(k, levelled),
        }
    }
}
