// Items, cut at the commas of a level: by name, and by number.
ghost use Rattle.std.specs.Prelude.{◌≡◌, ◌+◌, ◌*◌, ◌≤◌, ◌<◌, length};
ghost use Rattle.layout.specs.declared.Map.TheVariants.{Quotes, Commas};
ghost use Rattle.paths.specs.Places.{byte_in};
ghost use Rattle.names.specs.Spelling.{matched};
ghost use Rattle.query.specs.Item.{as_item};
ghost use Rattle.query.specs.Items.{value_at, quoted, keyed, item_at, first_item, item_no};

use crate::bits::Lent;
use crate::blanks;
use crate::types::{Cause, Part};
use layout::Map;

// What is wrong with an item, and where it begins.
#[derive(Clone, Copy, Debug, PartialEq, Eq)]
pub struct Broken {
    pub why: Cause,
    pub place: usize,
}

// What an item is to a step: the value that was asked for, without end blanks, at least one byte; or none, not the one; or broken.
pub type Item = Result<Option<Part>, Broken>;

// The value from a to e without end blanks, of an item that begins at that place.
#[tactic(auto, using(paths::proofs::PlaceLaws::first_le), unfolding(crate::specs::Items::value_at))]
pub fn value_at(text: &[u8], place: usize, a: usize, e: usize) -> Result<Part, Broken>
    requires { (a ≤ e) × (e ≤ length text.now) }
    ensures { as_item result ≡ value_at (byte_in text.now) place a e }
{
    let start = blanks::skip_blanks(text, a, e);
    let end = blanks::drop_blanks(text, start, e);
    if start < end {
        Ok(Part { start, end })
    } else {
        Err(Broken {
            why: Cause::EmptyValue,
            place,
        })
    }
}

impl<'a> Lent<'a> {
    ghost use Rattle.query.specs.Helpers.{bit_at, bits_of};

    // From p to q: a quote bit, none or more bytes without one, a quote bit. The second mostly lies in the word at hand.
    #[tactic(auto, using(paths::proofs::PlaceLaws::first_le), unfolding(crate::specs::Items::quoted))]
    fn is_quoted(&self, p: usize, q: usize) -> bool
        requires inside { (p ≤ q) × (q ≤ 64 * self.now.shape.width) }
        ensures { result ≡ quoted (bit_at self.now Quotes) p q }
    {
        p + 1 < q && self.bit(Map::Quotes, p) && self.next_bit(Map::Quotes, p + 1, q) + 1 == q
    }

    // An item from a to e whose first colon is at d, by a name of the path.
    #[tactic(auto, using(paths::proofs::PlaceLaws::first_le, paths::proofs::PlaceLaws::last_bounds, crate::proofs::ItemLaws::quoted_long, paths::proofs::PlaceLaws::between_is), unfolding(crate::specs::Items::keyed))]
    fn keyed_item(&self, name: &[u8], a: usize, d: usize, e: usize) -> Item
        requires { (a ≤ d) × (d < e) × (e ≤ length self.now.text.now) }
        ensures { result ≡ keyed (byte_in self.now.text.now) (bit_at self.now Quotes) (matched name.now) a d e }
    {
        let p = blanks::skip_blanks(self.text, a, d);
        let q = blanks::drop_blanks(self.text, p, d);
        if !self.is_quoted(p, q) {
            return Err(Broken {
                why: Cause::BadName,
                place: a,
            });
        }
        match names::match_name(&self.text[p + 1..q - 1], name) {
            Ok(true) => value_at(self.text, a, d + 1, e).map(Some),
            Ok(false) => Ok(None),
            Err(_) => Err(Broken {
                why: Cause::BadEscape,
                place: a,
            }),
        }
    }

    // An item of level k from a to e.
    #[tactic(auto, using(paths::proofs::PlaceLaws::first_ge), unfolding(crate::specs::Items::item_at))]
    fn item_of(&self, k: usize, name: &[u8], a: usize, e: usize) -> Item
        requires le_k { (1 ≤ k) × (k ≤ self.now.shape.levels) }
        requires a_le_e { (a ≤ e) × (e ≤ length self.now.text.now) }
        ensures { result ≡ item_at (byte_in self.now.text.now) (bits_of self.now) k (matched name.now) a e }
    {
        let d = self.next_bit(Map::Colons(k), a, e);
        if d < e {
            self.keyed_item(name, a, d, e)
        } else {
            Err(Broken {
                why: Cause::NoColon,
                place: a,
            })
        }
    }

    // The items of level k from lo to hi, from the left: the first that is found or broken. Word after word of the commas, and bit
    // after bit, left by a label: a rule of the project. (`while`: each comma takes the bits up to it off the word.)
    #[tactic(auto, using(crate::proofs::Standing::standing_from, rules::proofs::BitWalk::lowest, crate::proofs::Walking::walking_from, crate::proofs::Walking::walking_next))]
    pub fn find_name(&self, k: usize, name: &[u8], lo: usize, hi: usize) -> Item
        requires le_k { (1 ≤ k) × (k ≤ self.now.shape.levels) }
        requires lo_lt_hi { (lo < hi) × (hi ≤ length self.now.text.now) }
        ensures { result ≡ first_item (item_at (byte_in self.now.text.now) (bits_of self.now) k (matched name.now)) (bit_at self.now (Commas k)) lo hi }
    {
        let mut start = lo;
        let mut at = lo;
        let mut w = lo / 64;
        let mut x = self.word(Map::Commas(k), w) >> (lo % 64);
        'walk: loop {
            while x != 0 {
                let n = x.trailing_zeros();
                let comma = at + (n as usize);
                if hi <= comma {
                    break 'walk self.item_of(k, name, start, hi);
                }
                match self.item_of(k, name, start, comma) {
                    Ok(None) => {}
                    Ok(Some(part)) => break 'walk Ok(Some(part)),
                    Err(broken) => break 'walk Err(broken),
                }
                start = comma + 1;
                at = start;
                x = (x >> n) >> 1;
            }
            w += 1;
            at = w * 64;
            if hi <= at {
                break 'walk self.item_of(k, name, start, hi);
            }
            x = self.word(Map::Commas(k), w);
        }
    }

    // The item of level k that begins at start.
    #[tactic(auto, using(paths::proofs::PlaceLaws::first_ge, paths::proofs::PlaceLaws::first_le), unfolding(crate::specs::Items::item_no))]
    fn item_from(&self, k: usize, start: usize, hi: usize) -> Result<Part, Broken>
        requires le_k { (1 ≤ k) × (k ≤ self.now.shape.levels) }
        requires start_le_hi { (start ≤ hi) × (hi ≤ length self.now.text.now) }
        ensures { as_item result ≡ item_no (byte_in self.now.text.now) (bit_at self.now (Commas k)) 0 start hi }
    {
        let end = self.next_bit(Map::Commas(k), start, hi);
        value_at(self.text, start, start, end)
    }

    // The item with number m of those from lo to hi: behind the comma with the number before it.
    #[tactic(auto, using(crate::proofs::ItemLaws::item_none, crate::proofs::ItemLaws::item_some))]
    pub fn item_no(&self, k: usize, m: usize, lo: usize, hi: usize) -> Item
        requires le_k { (1 ≤ k) × (k ≤ self.now.shape.levels) }
        requires lo_le_hi { (lo ≤ hi) × (hi ≤ length self.now.text.now) }
        ensures { result ≡ item_no (byte_in self.now.text.now) (bit_at self.now (Commas k)) m lo hi }
    {
        if m == 0 {
            return self.item_from(k, lo, hi).map(Some);
        }
        let c = self.nth_bit(Map::Commas(k), m - 1, lo, hi);
        if hi <= c {
            return Ok(None);
        }
        self.item_from(k, c + 1, hi).map(Some)
    }
}
