// The mask of a chunk turned over, after a wrong guess.
ghost use Rattle.std.specs.Prelude.{◌≡◌, length};
ghost use Rattle.chunks.specs.Writing.{Lent};
ghost use Rattle.chunks.specs.Flipping.{flip_words, swing_in};

use crate::Span;
use blocks::block::block;
use blocks::classes::table;
use blocks::marks::live;
use blocks::swing::Swing;
use layout::{Map, Shape};

// After a wrong guess: each mask word turned over, and the brackets counted anew.
pub fn flip_words(text: &[u8], words: &mut [u64], levels: usize, span: Span) -> Swing
    requires { Lent text.now words.old levels span.to }
    ensures value { result ≡ swing_in text.now words.new levels span.from span.to }
    ensures words_after { words.new ≡ flip_words (length text.now) levels span.from span.to words.old }
{
    let t = table();
    let shape = Shape::new(levels, text.len());
    let mut swing = Swing::default();
    for w in span.from..span.to {
        let at = 64 * w;
        let b = block(&t, text, at);
        let mask = shape.word(words, Map::Mask, w) ^ live(text.len() - at);
        shape.put(words, Map::Mask, w, mask);
        swing = swing.brackets(b.opens & !mask, b.closes & !mask);
    }
    swing
}
