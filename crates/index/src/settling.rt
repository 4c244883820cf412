// Settle: the mask of a chunk made right, its depths counted by it, and the place of a fault.
ghost use Rattle.std.specs.Prelude.{◌≡◌, Bool, ℕ, ◌≤◌, length};
ghost use Rattle.blocks.specs.Swinging.{Brackets};
ghost use Rattle.chunks.specs.Writing.{Lent};
ghost use Rattle.index.specs.Settling.{limit_of, fault_of_bracket, depth_past, seek, seek_in, announced, sought_fault, end_fault, chunk_fault, inside_of, start_depth, settle_words, settle_kept, settle_chunk};
ghost use Rattle.index.specs.Outcomes.{SettleGives};
ghost use Rattle.index.specs.Stepping.{Fitting};

use crate::depth::{climbs, depth_after, falls, kept_of};
use crate::{Answer, Chunk, Fault, Handed, Job, Kept, State, Step};
use blocks::bits::SetBits;
use blocks::block::block;
use blocks::classes::table;
use chunks::Span;
use chunks::flipping::flip_words;
use layout::{Map, Shape};

// The depth at which a bracket is a fault.
fn limit(opener: bool) -> u64
    ensures { result ≡ limit_of opener }
{
    if opener { 64 } else { 0 }
}

fn fault_at(opener: bool, place: usize) -> Fault
    ensures { result ≡ fault_of_bracket opener place }
{
    if opener {
        Fault::Opener(place)
    } else {
        Fault::Closer(place)
    }
}

fn moved(depth: u64, opener: bool) -> u64
    requires { (depth ≤ 1099511627776) × (depth ≡ limit_of opener → ⊥) }
    ensures { result ≡ depth_past opener depth }
{
    if opener { depth + 1 } else { depth - 1 }
}

// The brackets of the word whose first place is base: the depth behind them, or the fault met.
fn seek_word(opens: u64, closes: u64, depth: u64, base: usize) -> Result<u64, Fault>
    requires { (depth ≤ 549755813888) × (base ≤ 16777216) }
    ensures { (o c : ℕ → Bool) → Brackets o c base opens closes → result ≡ seek o c depth base 64 }
{
    let mut d = depth;
    for place in SetBits::new(opens | closes) {
        let opener = (opens >> place) % 2 == 1;
        if d == limit(opener) {
            return Err(fault_at(opener, base + place as usize));
        }
        d = moved(d, opener);
    }
    Ok(d)
}

// The words from `from` up to `to`, by their mask. (No `Span`: the listed theorem `seek_words_spec` has the two.)
pub fn seek_words(
    text: &[u8],
    words: &[u64],
    levels: usize,
    from: usize,
    to: usize,
    start: u32,
) -> Result<u64, Fault>
    requires { Lent text.now words.now levels to }
    ensures { result ≡ seek_in text.now words.now levels from to start }
{
    let t = table();
    let shape = Shape::new(levels, text.len());
    let mut depth = start as u64;
    for w in from..to {
        let at = 64 * w;
        let b = block(&t, text, at);
        let mask = shape.word(words, Map::Mask, w);
        depth = seek_word(b.opens & !mask, b.closes & !mask, depth, at)?;
    }
    Ok(depth)
}

// Whether the kept counts say that there is a fault in the chunk.
fn announces(c: Chunk) -> bool
    ensures { result ≡ announced c }
{
    falls(c.start, c.kept.low) || climbs(c.start, c.kept.high)
}

// The fault that the kept counts announce, at its place.
fn sought_fault(c: Chunk, text: &[u8], words: &[u64], levels: usize, s: Span) -> Option<Fault>
    requires { Lent text.now words.now levels s.to }
    ensures { result ≡ sought_fault c text.now words.now levels s }
{
    if !announces(c) {
        return None;
    }
    seek_words(text, words, levels, s.from, s.to, c.start).err()
}

fn end_fault(c: Chunk, n: usize) -> Option<Fault>
    ensures { result ≡ end_fault c n }
{
    if c.inside != c.kept.odd {
        return Some(Fault::InString(n));
    }
    if 0 < depth_after(c.start, c.kept.net) {
        return Some(Fault::InBracket(n));
    }
    None
}

fn chunk_fault(
    c: Chunk,
    text: &[u8],
    words: &[u64],
    levels: usize,
    s: Span,
    last: bool,
) -> Option<Fault>
    requires { Lent text.now words.now levels s.to }
    ensures { result ≡ chunk_fault c text.now words.now levels s last }
{
    let found = sought_fault(c, text, words, levels, s);
    if last {
        found.or(end_fault(c, text.len()))
    } else {
        found
    }
}

impl Job {
    // Whether the chunk truly begins inside a string, and at which depth: as the chunk before it ends.
    fn inside_of(&self, k: usize) -> bool
        ensures { result ≡ inside_of self.now k }
    {
        if k == 0 {
            return false;
        }
        let before = self.chunk(k - 1);
        before.inside != before.kept.odd
    }

    fn start_depth(&self, k: usize) -> u32
        ensures { result ≡ start_depth self.now k }
    {
        if k == 0 {
            return 0;
        }
        let before = self.chunk(k - 1);
        depth_after(before.start, before.kept.net)
    }

    // What the chunk keeps by its true state, its mask made right.
    fn settle_kept(self, text: &[u8], words: &mut [u64], k: usize) -> Kept
        requires { Fitting self (length text.now) (length words.old) }
        ensures value { result ≡ settle_kept self text.now words.new k }
        ensures words_after { words.new ≡ settle_words self text.now words.old k }
    {
        let c = self.chunk(k);
        if c.inside == self.inside_of(k) {
            return c.kept;
        }
        let s = self.span(text.len(), k);
        let swing = flip_words(text, words, self.levels, s);
        kept_of(c.kept.odd, swing)
    }

    fn settle_chunk(self, text: &[u8], words: &mut [u64], k: usize) -> Chunk
        requires { Fitting self (length text.now) (length words.old) }
        ensures value { result ≡ settle_chunk self text.now words.new k }
        ensures words_after { words.new ≡ settle_words self text.now words.old k }
    {
        Chunk {
            settled: true,
            kept: self.settle_kept(text, words, k),
            inside: self.inside_of(k),
            start: self.start_depth(k),
            ..self.chunk(k)
        }
    }

    pub fn settle(self, text: &[u8], words: &mut [u64], k: usize) -> Handed
        ensures { SettleGives self text.now words.old k result words.new }
    {
        if let Err(why) = self.check(Step::Settle, text.len(), words.len(), k) {
            return self.refused(why);
        }
        let c = self.settle_chunk(text, words, k);
        let s = self.span(text.len(), k);
        let job = self.with_chunk(k, c);
        match chunk_fault(c, text, words, self.levels, s, self.is_last(k)) {
            None => Handed {
                answer: Answer::Done,
                job,
            },
            Some(f) => Handed {
                answer: Answer::Faulty(f),
                job: job.with_state(State::Stopped(f)),
            },
        }
    }
}
