// How far the brackets of a chunk move the depth.
ghost use Rattle.std.specs.Prelude.{◌≡◌, ℕ, ◌+◌, Bool};
ghost use Rattle.blocks.specs.Swinging.{Small, past, swing, Brackets};

use crate::bits::SetBits;

// The openers and the closers passed, and how far at most the closers were ahead, and the openers. Two counts in place of a difference,
// so that nothing falls below zero.
#[derive(Clone, Copy, Default)]
pub struct Swing {
    pub up: u32,
    pub down: u32,
    pub dip: u32,
    pub peak: u32,
}

impl Swing {
    // One bracket more.
    fn passed(self, opener: bool) -> Swing
        requires { Small 1073741824 self }
        ensures { result ≡ past self opener }
    {
        if opener {
            let up = self.up + 1;
            let peak = self.peak.max(up.saturating_sub(self.down));
            Swing { up, peak, ..self }
        } else {
            let down = self.down + 1;
            let dip = self.dip.max(down.saturating_sub(self.up));
            Swing { down, dip, ..self }
        }
    }

    // The brackets of a word, from one to the next.
    pub fn brackets(self, opens: u64, closes: u64) -> Swing
        requires { Small 16777216 self }
        ensures { (o c : ℕ → Bool) (i : ℕ) → Brackets o c i opens closes → self ≡ swing o c i → result ≡ swing o c (i + 64) }
    {
        let mut swing = self;
        for place in SetBits::new(opens | closes) {
            swing = swing.passed((opens >> place) % 2 == 1);
        }
        swing
    }
}
