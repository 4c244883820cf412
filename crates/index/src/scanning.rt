// Scan: the quotes of a chunk, its mask under a guess, and how its brackets move the depth.
ghost use Rattle.std.specs.Prelude.{◌≡◌, length};
ghost use Rattle.index.specs.Checks.{span_of};
ghost use Rattle.chunks.specs.Sweeping.{scan_words};
ghost use Rattle.index.specs.Stepping.{Fitting};
ghost use Rattle.index.specs.Scanning.{scan_chunk};
ghost use Rattle.index.specs.Outcomes.{ScanGives};

use crate::depth::kept_of;
use crate::{Answer, Chunk, Handed, Job, Step};
use chunks::scanning::scan_words;

impl Job {
    // The chunk as scanned, its words written. (`Fitting` relates job, record and words: no one value has them, since it would hold the words.)
    fn scan_chunk(self, text: &[u8], words: &mut [u64], k: usize, inside: bool) -> Chunk
        requires { Fitting self (length text.now) (length words.old) }
        ensures value { result ≡ scan_chunk self text.now k inside }
        ensures words_after { words.new ≡ scan_words text.now self.levels (span_of self (length text.now) k).from (span_of self (length text.now) k).to inside words.old }
    {
        let s = self.span(text.len(), k);
        let swept = scan_words(text, words, self.levels, s, inside);
        let kept = kept_of(swept.inside != inside, swept.swing);
        Chunk {
            scanned: true,
            inside,
            kept,
            ..self.chunk(k)
        }
    }

    // Scan, with a guess that the chunk begins inside a string or not.
    pub fn scan(self, text: &[u8], words: &mut [u64], k: usize, inside: bool) -> Handed
        ensures { ScanGives self text.now words.old k inside result words.new }
    {
        if let Err(why) = self.check(Step::Scan, text.len(), words.len(), k) {
            return self.refused(why);
        }
        let c = self.scan_chunk(text, words, k, inside);
        Handed {
            answer: Answer::Done,
            job: self.with_chunk(k, c),
        }
    }
}
