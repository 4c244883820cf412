// A word of the record: its quotes, its mask under a guess, and its brackets outside strings.
ghost use Rattle.std.specs.Prelude.{◌≡◌, ◌*◌, ◌≤◌, length};
ghost use Rattle.rules.specs.Bits.{escaped};
ghost use Rattle.blocks.specs.Coding.{TableOf};
ghost use Rattle.blocks.specs.Marking.{MarkedWord};

use crate::block::block;
use crate::marks::{escapes, live, mask_word};

// A word's quotes and mask, and its brackets outside strings; and the state of the byte behind it.
#[derive(Clone, Copy)]
pub struct Marked {
    pub quotes: u64,
    pub mask: u64,
    pub opens: u64,
    pub closes: u64,
    pub carry: bool,
    pub inside: bool,
}

// `carry` says whether the first byte of word w is escaped, `inside` whether it is taken to be inside a string.
pub fn mark_word(t: &[u32; 256], text: &[u8], w: usize, carry: bool, inside: bool) -> Marked
    requires table_of { TableOf t.now }
    requires w_in_bounds { (64 * w ≤ length text.now) × (carry ≡ escaped text.now (64 * w)) }
    ensures { MarkedWord text.now w inside result }
{
    let at = 64 * w;
    let b = block(t, text, at);
    let e = escapes(b.backslashes, carry);
    let quotes = b.quotes & !e.word;
    let m = mask_word(quotes, inside, live(text.len() - at));
    Marked {
        quotes,
        mask: m.word,
        opens: b.opens & !m.word,
        closes: b.closes & !m.word,
        carry: e.carry,
        inside: m.inside,
    }
}

// Whether byte `at` is escaped: the run of backslashes that ends before it is odd.
pub fn run_odd(text: &[u8], at: usize) -> bool
    requires { at ≤ length text.now }
    ensures { result ≡ escaped text.now at }
{
    let run = text[..at].iter().rev().take_while(|b| **b == b'\\').count();
    run % 2 == 1
}
