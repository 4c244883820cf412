// Scan: the quotes of a chunk, its mask under a guess, and how its brackets move the depth.
ghost use Rattle.std.specs.Prelude.{◌≡◌};
ghost use Rattle.chunks.specs.Writing.{Lent};
ghost use Rattle.chunks.specs.Sweeping.{scan_words, swept_of};

use crate::Span;
use blocks::classes::table;
use blocks::marking::{mark_word, run_odd};
use blocks::swing::Swing;
use layout::{Map, Shape};

// What a scan finds: the state behind the chunk, and how its brackets swing.
#[derive(Clone, Copy)]
pub struct Swept {
    pub inside: bool,
    pub swing: Swing,
}

// The words of a span.
pub fn scan_words(text: &[u8], words: &mut [u64], levels: usize, span: Span, guess: bool) -> Swept
    requires { Lent text.now words.old levels span.to }
    ensures value { result ≡ swept_of text.now span.from span.to guess }
    ensures words_after { words.new ≡ scan_words text.now levels span.from span.to guess words.old }
{
    let mut inside = guess;
    let mut swing = Swing::default();
    if span.to <= span.from {
        return Swept { inside, swing };
    }
    let t = table();
    let shape = Shape::new(levels, text.len());
    let mut carry = run_odd(text, 64 * span.from);
    for w in span.from..span.to {
        let m = mark_word(&t, text, w, carry, inside);
        shape.put(words, Map::Quotes, w, m.quotes);
        shape.put(words, Map::Mask, w, m.mask);
        swing = swing.brackets(m.opens, m.closes);
        carry = m.carry;
        inside = m.inside;
    }
    Swept { inside, swing }
}
