// The layout of the lent words, as code: how many there are, where a word of a bitmap lies, and all of them zero. No other crate computes an address.
#![tactic(auto)]

ghost use Rattle.std.specs.Prelude.{◌≡◌, ◌+◌, ◌*◌, ◌≤◌, length, set, replicate};
ghost use Rattle.rules.specs.Layout.{width_of, size_of, address, cell};
ghost use Rattle.layout.specs.Maps.{mapped, InMap};

// A bitmap; colons and commas have their level.
#[derive(Clone, Copy)]
pub enum Map {
    Quotes,
    Mask,
    Colons(usize),
    Commas(usize),
}

pub fn width_of(n: usize) -> usize
    requires { n ≤ 16777216 }
    ensures { result ≡ width_of n }
{
    (n + 63) / 64
}

pub fn size_of(levels: usize, n: usize) -> usize
    requires { (levels ≤ 16) × (n ≤ 16777216) }
    ensures { result ≡ size_of levels n }
{
    (2 + 2 * levels) * width_of(n)
}

// How many levels the lent words have, and how many words each bitmap: within the limits, so that every address fits.
#[derive(Clone, Copy)]
pub struct Shape {
    pub levels: usize,
    pub width: usize,
    pub ghost few: { levels ≤ 16 },
    pub ghost narrow: { width ≤ 262144 },
}

impl Shape {
    // Of words for a record of n bytes.
    pub fn new(levels: usize, n: usize) -> Shape
        requires { (levels ≤ 16) × (n ≤ 16777216) }
        ensures levels_kept { result.levels ≡ levels }
        ensures wide { result.width ≡ width_of n }
    {
        Shape {
            levels,
            width: width_of(n),
        }
    }

    fn address(self, m: Map, w: usize) -> usize
        requires { InMap self.levels self.width m w }
        ensures { result ≡ address self.levels self.width (mapped m) w }
    {
        match m {
            Map::Quotes => w,
            Map::Mask => self.width + w,
            Map::Colons(k) => 2 * k * self.width + w,
            Map::Commas(k) => (2 * k + 1) * self.width + w,
        }
    }

    // Word w of a bitmap.
    pub fn word(self, words: &[u64], m: Map, w: usize) -> u64
        requires in_map { InMap self.levels self.width m w }
        requires words_len { length words.now ≡ (2 + 2 * self.levels) * self.width }
        ensures { result ≡ cell words.now self.levels self.width (mapped m) w }
    {
        words[self.address(m, w)]
    }

    pub fn put(self, words: &mut [u64], m: Map, w: usize, v: u64)
        requires in_map { InMap self.levels self.width m w }
        requires words_len { length words.old ≡ (2 + 2 * self.levels) * self.width }
        ensures { words.new ≡ set words.old (address self.levels self.width (mapped m) w) v }
    {
        words[self.address(m, w)] = v;
    }
}

pub fn zero_words(words: &mut [u64])
    ensures { words.new ≡ replicate (length words.old) 0 }
{
    words.fill(0);
}
