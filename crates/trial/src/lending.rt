// What is lent to the calls: a record, words with any contents, and a table. (The three slices are parameters of their own: the
// borrow checker does not cover a part of a slice that is lent through a struct behind a `&mut`.)
ghost use Rattle.std.specs.Prelude.{◌≤◌};

use crate::input::{Head, Kind, read_bytes, read_cuts};
use std::io;
use std::io::Read;

// So many bytes, words and numbers of a table are lent.
#[derive(Clone, Copy, Default)]
pub struct Lengths {
    pub bytes: usize,
    pub words: usize,
    pub numbers: usize,
}

// Fills so many words, or all, from a seed.
fn fill(count: usize, seed: u64, words: &mut [u64]) -> usize {
    let mut x = seed;
    for word in words.iter_mut().take(count) {
        x = x.wrapping_add(0x9E3779B97F4A7C15);
        *word = x ^ (x >> 31);
    }
    words.len().min(count)
}

fn damage(at: usize, by: u64, words: &mut [u64]) {
    if let Some(word) = words.get_mut(at) {
        *word ^= by;
    }
}

fn read_table<R: Read>(input: &mut R, length: usize, table: &mut [usize]) -> io::Result<usize> {
    let mut bytes = [0u8; 4096];
    let got = read_bytes(input, length, &mut bytes)?;
    Ok(read_cuts(&bytes[..got], table))
}

// A length, or one less.
fn shorter(length: usize, by_one: bool) -> usize {
    length.saturating_sub(usize::from(by_one))
}

impl Lengths {
    // A record, words, a table, or a word damaged. Any other call: as it was.
    pub fn prepare<R: Read>(
        &mut self,
        input: &mut R,
        head: Head,
        text: &mut [u8],
        words: &mut [u64],
        table: &mut [usize],
    ) -> io::Result<()> {
        match head.kind {
            Kind::Record => self.bytes = read_bytes(input, head.length, text)?,
            Kind::Words => self.words = fill(head.length, head.value, words),
            Kind::Table => self.numbers = read_table(input, head.length, table)?,
            Kind::Damage => damage(head.length, head.value, words),
            _ => {}
        }
        Ok(())
    }

    // How much of each a call with this flag gets, where there is so much.
    pub fn cut(self, flag: u8, most: Lengths) -> Lengths
        ensures { (result.bytes ≤ most.bytes) × (result.words ≤ most.words) × (result.numbers ≤ most.numbers) }
    {
        Lengths {
            bytes: shorter(self.bytes, flag & 2 != 0).min(most.bytes),
            words: shorter(self.words, flag & 4 != 0).min(most.words),
            numbers: self.numbers.min(most.numbers),
        }
    }
}
