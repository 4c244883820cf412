// A record with the words lent with it, and the bits of those words, a word at a time.
ghost use Rattle.std.specs.Prelude.{◌≡◌, false, ℕ, ◌+◌, ◌*◌, ◌<◌, ◌≤◌, length};

use layout::{Map, Shape};

// A record, and the words lent with it: as many as the shape says, with a bit in each bitmap for each byte of the record. (A level and the
// places of a part are premises of its methods: they are others at each step, and no value has them. A part is told by its places and not
// as a slice, since the bits are by place.)
#[derive(Clone, Copy)]
pub struct Lent<'a> {
    pub text: &'a [u8],
    pub words: &'a [u64],
    pub shape: Shape,
    pub ghost long: { length words.now ≡ (2 + 2 * shape.levels) * shape.width },
    pub ghost inside: { length text.now ≤ 64 * shape.width },
}

impl<'a> Lent<'a> {
    ghost use Rattle.rules.specs.Layout.{Has, cell};
    ghost use Rattle.query.specs.Helpers.{bit_at};
    ghost use Rattle.layout.specs.Maps.{mapped};
    ghost use Rattle.paths.specs.Places.{first_at, nth_at};

    pub fn word(&self, m: Map, w: usize) -> u64
        requires has { Has self.now.shape.levels (mapped m) }
        requires inside { w < self.now.shape.width }
        ensures { result ≡ cell self.now.words.now self.now.shape.levels self.now.shape.width (mapped m) w }
    {
        self.shape.word(self.words, m, w)
    }

    // The bit of place p.
    #[tactic(auto, unfolding(rules::specs::Layout::bit_in, rules::specs::Word::bit))]
    pub fn bit(&self, m: Map, p: usize) -> bool
        requires has { Has self.now.shape.levels (mapped m) }
        requires inside { p < 64 * self.now.shape.width }
        ensures { result ≡ bit_at self.now m p }
    {
        (self.word(m, p / 64) >> (p % 64)) % 2 == 1
    }

    // The first place before e whose bit is set, or e, from any place on from which no bit of word w is: word after word behind that.
    pub fn bit_behind(&self, m: Map, w: usize, e: usize) -> usize
        requires w_bound { w * 64 < e }
        requires has { Has self.now.shape.levels (mapped m) }
        requires inside { e ≤ 64 * self.now.shape.width }
        ensures { (a : ℕ) → a ≤ e → a ≤ w * 64 + 64 → ((k : ℕ) → a ≤ k → k < w * 64 + 64 → bit_at self.now m k ≡ false) → result ≡ first_at (bit_at self.now m) a e }
    {
        for v in w + 1..e.div_ceil(64) {
            let x = self.word(m, v);
            if x != 0 {
                return e.min(v * 64 + x.trailing_zeros() as usize);
            }
        }
        e
    }

    // The first place at or after a and before e whose bit is set, or e: mostly in the word of a. (No Option: without such a bit the item
    // ends at e.)
    #[tactic(auto, using(paths::proofs::PlaceLaws::first_none))]
    pub fn next_bit(&self, m: Map, a: usize, e: usize) -> usize
        requires a_le_e { a ≤ e }
        requires has { Has self.now.shape.levels (mapped m) }
        requires inside { e ≤ 64 * self.now.shape.width }
        ensures { result ≡ first_at (bit_at self.now m) a e }
    {
        if e <= a {
            return a;
        }
        let x = self.word(m, a / 64) >> (a % 64);
        if x == 0 {
            return self.bit_behind(m, a / 64, e);
        }
        e.min(a + x.trailing_zeros() as usize)
    }

    // The place of the set bit with this number, from 0, at or after a and before e, or e: bit after bit.
    fn bit_by_bit(&self, m: Map, number: usize, a: usize, e: usize) -> usize
        requires a_le_e { a ≤ e }
        requires has { Has self.now.shape.levels (mapped m) }
        requires inside { e ≤ 64 * self.now.shape.width }
        ensures { result ≡ nth_at (bit_at self.now m) number a e }
    {
        let mut at = a;
        for _ in 0..number {
            let p = self.next_bit(m, at, e);
            if e <= p {
                return e;
            }
            at = p + 1;
        }
        self.next_bit(m, at, e)
    }

    // The same, and whole words are passed over by their count. (A `while`: it ends by how many bits are left, mostly long before e.)
    pub fn nth_bit(&self, m: Map, number: usize, a: usize, e: usize) -> usize
        requires a_le_e { a ≤ e }
        requires has { Has self.now.shape.levels (mapped m) }
        requires inside { e ≤ 64 * self.now.shape.width }
        ensures { result ≡ nth_at (bit_at self.now m) number a e }
    {
        if e <= a {
            return e;
        }
        let mut left = number;
        let mut w = a / 64;
        let mut at = a;
        let mut ones = (self.word(m, w) >> (a % 64)).count_ones() as usize;
        while ones <= left {
            left -= ones;
            w += 1;
            at = w * 64;
            if e <= at {
                return e;
            }
            ones = self.word(m, w).count_ones() as usize;
        }
        self.bit_by_bit(m, left, at, e)
    }
}
