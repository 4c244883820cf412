// The calls of a job, and queries; and which call is whose.
ghost use Rattle.std.specs.Prelude.{◌<◌};

use crate::input::{Head, Kind, read_bytes, read_cuts};
use crate::lending::Lengths;
use crate::telling::{digest_of, tell, tell_end, tell_part, tell_two};
use index::{Handed, Job};
use std::io;
use std::io::{Read, Write};

// A trial as it stands: how much is lent, the job that was handed back last, the one that is kept, and the digest of what the calls
// left.
#[derive(Drop)]
pub struct Trial<R, W> {
    pub input: R,
    pub out: W,
    pub lent: Lengths,
    pub job: Job,
    pub kept: Job,
    pub digest: u64,
}

// A refused opening hands back a closed job.
pub fn no_job() -> Job {
    let opened = Job::open(&[0u8; 1], &[0u64; 1], 0, &[0usize; 1]);
    opened.job
}

impl<R: Read, W: Write> Trial<R, W> {
    fn told(&mut self, handed: Handed, words: &[u64]) -> io::Result<()> {
        let answer = handed.answer;
        tell(&mut self.out, answer.number(), answer.place())?;
        self.digest = digest_of(self.digest, words.iter().copied());
        self.job = handed.job;
        Ok(())
    }

    // With the cuts that follow.
    fn open(&mut self, head: Head, text: &[u8], words: &[u64]) -> io::Result<()> {
        let mut bytes = [0u8; 4096];
        let got = read_bytes(&mut self.input, head.length, &mut bytes)?;
        let mut cuts = [0usize; 128];
        let count = read_cuts(&bytes[..got], &mut cuts);
        let handed = Job::open(text, words, head.levels, &cuts[..count]);
        self.told(handed, words)
    }

    fn scan(&mut self, head: Head, text: &[u8], words: &mut [u64]) -> io::Result<()> {
        let handed = self
            .job
            .scan(text, words, head.value as usize, head.flag & 1 == 1);
        self.told(handed, words)
    }

    fn settle(&mut self, head: Head, text: &[u8], words: &mut [u64]) -> io::Result<()> {
        let handed = self.job.settle(text, words, head.value as usize);
        self.told(handed, words)
    }

    fn level(&mut self, head: Head, text: &[u8], words: &mut [u64]) -> io::Result<()> {
        let handed = self.job.level(text, words, head.value as usize);
        self.told(handed, words)
    }

    fn close(&mut self, text: &[u8], words: &mut [u64]) -> io::Result<()> {
        let handed = self.job.close(text, words);
        self.told(handed, words)
    }

    // The chunks, and the steps that one has had.
    fn ask(&mut self, k: usize) -> io::Result<()> {
        let asked = self.job.ask(k);
        let steps = match asked.had {
            None => 0,
            Some(had) => {
                usize::from(had.scanned)
                    + 2 * usize::from(had.settled)
                    + 4 * usize::from(had.levelled)
            }
        };
        tell_two(&mut self.out, asked.number(), asked.chunks, steps)
    }

    fn find(&mut self, text: &[u8], words: &[u64], levels: usize, path: &[u8]) -> io::Result<()> {
        let mut number = 0;
        let mut place = 0;
        let mut step = 0;
        let part = query::query(
            text,
            words,
            levels,
            path,
            &mut number,
            &mut place,
            &mut step,
        );
        tell_part(&mut self.out, number, place, step, part)
    }

    // With the path that follows.
    fn ask_path(&mut self, head: Head, text: &[u8], words: &[u64]) -> io::Result<()> {
        let mut bytes = [0u8; 4096];
        let got = read_bytes(&mut self.input, head.length, &mut bytes)?;
        self.find(text, words, head.levels, &bytes[..got])
    }

    // A record of N blanks: its table, a query and an opening.
    fn blanks<const N: usize>(
        &mut self,
        levels: usize,
        words: &[u64],
        table: &mut [usize],
    ) -> io::Result<()>
        requires { N < 9223372036854775808 }
    {
        let text = [b' '; N];
        self.cut(&text, table)?;
        self.find(&text, words, levels, b"$")?;
        let handed = Job::open(&text, words, levels, &[64usize; 1]);
        self.told(handed, words)
    }

    // A record above the limit. Its 16 MiB stay out of the other functions' frames, so that where no such call comes no large stack is
    // needed.
    #[inline(never)]
    fn beyond(&mut self, levels: usize, words: &[u64], table: &mut [usize]) -> io::Result<()> {
        self.blanks::<16777217>(levels, words, table)
    }

    // That, and as often more as the flag says.
    fn beyond_again(&mut self, head: Head, words: &[u64], table: &mut [usize]) -> io::Result<()> {
        for _ in 0..=head.flag {
            self.beyond(head.levels, words, table)?;
        }
        Ok(())
    }

    // The digest so far is told, and begun anew.
    fn end(&mut self) -> io::Result<()> {
        tell_end(&mut self.out, self.digest)?;
        self.digest = 0;
        Ok(())
    }

    fn call_lent(
        &mut self,
        head: Head,
        text: &[u8],
        words: &mut [u64],
        table: &mut [usize],
    ) -> io::Result<()> {
        match head.kind {
            Kind::Keep => self.kept = self.job,
            Kind::Hand => self.job = self.kept,
            Kind::End => self.end()?,
            Kind::Open => self.open(head, text, words)?,
            Kind::Scan => self.scan(head, text, words)?,
            Kind::Settle => self.settle(head, text, words)?,
            Kind::Level => self.level(head, text, words)?,
            Kind::Close => self.close(text, words)?,
            Kind::Ask => self.ask(head.value as usize)?,
            Kind::Query => self.ask_path(head, text, words)?,
            Kind::Beyond => self.beyond_again(head, words, table)?,
            Kind::Cut => self.cut(text, table)?,
            Kind::Line => self.index_one(head, text, words, table)?,
            Kind::Next => self.next_one(text, head.value as usize)?,
            Kind::Record | Kind::Words | Kind::Table | Kind::Damage | Kind::Other => {}
        }
        Ok(())
    }

    // Reads what is lent, and lends as much to the call.
    pub fn call(
        &mut self,
        head: Head,
        text: &mut [u8],
        words: &mut [u64],
        table: &mut [usize],
    ) -> io::Result<()> {
        self.lent
            .prepare(&mut self.input, head, text, words, table)?;
        let most = Lengths {
            bytes: text.len(),
            words: words.len(),
            numbers: table.len(),
        };
        let lent = self.lent.cut(head.flag, most);
        self.call_lent(
            head,
            &text[..lent.bytes],
            &mut words[..lent.words],
            &mut table[..lent.numbers],
        )
    }
}
