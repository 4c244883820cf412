// The places of a word by their depth.
ghost use Rattle.std.specs.Prelude.{◌≡◌, ℕ, ◌+◌, ◌<◌, ◌≤◌, Bool};
ghost use Rattle.rules.specs.Word.{count};
ghost use Rattle.blocks.specs.Swinging.{Brackets};
ghost use Rattle.blocks.specs.Spreading.{slot_of, SpreadOf};

use crate::bits::SetBits;
use crate::marks::live;

// For each depth from 1 to 16 the places of a word that lie at it; and the brackets counted so far. Depths that no level has share slot 0.
#[derive(Clone, Copy)]
pub struct Spread {
    pub slots: [u64; 17],
    pub up: u64,
    pub down: u64,
}

fn slot(up: u64, down: u64) -> usize
    ensures below { result < 17 }
    ensures value { result ≡ slot_of up down }
{
    let depth = up.saturating_sub(down);
    if depth <= 16 { depth as usize } else { 0 }
}

// `up` counts the openers before the word, with the starting depth, and `down` the closers. (Openers and closers as two words, here and in
// `brackets`: the listed theorems `spread_word_spec` and `brackets_spec` have the two.)
pub fn spread_word(opens: u64, closes: u64, mut up: u64, mut down: u64) -> Spread
    requires { (up ≤ 1099511627776) × (down ≤ 1099511627776) }
    ensures { (o c : ℕ → Bool) (i s : ℕ) → Brackets o c i opens closes → up ≡ s + count o i → down ≡ count c i → SpreadOf s o c i result }
{
    let mut slots = [0u64; 17];
    let mut done = 0;
    for place in SetBits::new(opens | closes) {
        let till = live(place as usize + 1);
        slots[slot(up, down)] |= till ^ done;
        up += (opens >> place) % 2;
        down += (closes >> place) % 2;
        done = till;
    }
    slots[slot(up, down)] |= u64::MAX ^ done;
    Spread { slots, up, down }
}
