// Level: the colons and commas of a chunk, level by level.
ghost use Rattle.std.specs.Prelude.{◌≡◌, ◌+◌, ◌*◌, ◌≤◌, ◌<◌, length};
ghost use Rattle.chunks.specs.Writing.{Lent};
ghost use Rattle.chunks.specs.Levels.{level_words};
ghost use Rattle.chunks.specs.Storing.{StoredAt};

use crate::Span;
use blocks::block::block;
use blocks::classes::table;
use blocks::spread::spread_word;
use layout::{Map, Shape};

// Word w of the colons and commas of every level.
fn store(words: &mut [u64], shape: Shape, w: usize, slots: &[u64; 17], colon: u64, comma: u64)
    requires { (w < shape.width) × (length words.old ≡ (2 + 2 * shape.levels) * shape.width) }
    ensures { StoredAt shape.levels shape.width w slots.now colon comma words.old words.new }
{
    for k in 0..shape.levels {
        let level = k + 1;
        shape.put(words, Map::Colons(level), w, colon & slots[level]);
        shape.put(words, Map::Commas(level), w, comma & slots[level]);
    }
}

// The words of a span, whose first place lies at depth `start`.
pub fn level_words(text: &[u8], words: &mut [u64], levels: usize, span: Span, start: u32)
    requires { Lent text.now words.old levels span.to }
    ensures { words.new ≡ level_words text.now levels span.from span.to start words.old }
{
    let t = table();
    let shape = Shape::new(levels, text.len());
    let mut up = start as u64;
    let mut down = 0;
    for w in span.from..span.to {
        let b = block(&t, text, 64 * w);
        let mask = shape.word(words, Map::Mask, w);
        let s = spread_word(b.opens & !mask, b.closes & !mask, up, down);
        store(
            words,
            shape,
            w,
            &s.slots,
            b.colons & !mask,
            b.commas & !mask,
        );
        up = s.up;
        down = s.down;
    }
}
