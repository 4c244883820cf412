// The set bits of a word, from the lowest to the highest.
ghost use Rattle.std.specs.Prelude.{◌≡◌, ◌≤◌, ◌<◌, ◌*◌, ◌^◌};

// `left` is what is left of the word from place `at` on.
#[derive(Drop)]
pub struct SetBits {
    pub left: u64,
    pub at: u32,
    pub ghost within: { at ≤ 64 },
    pub ghost fits: { left * 2 ^ at < 2 ^ 64 },
}

impl SetBits {
    pub fn new(word: u64) -> SetBits
        ensures starts { result.at ≡ 0 }
        ensures whole { result.left ≡ word }
    {
        SetBits { left: word, at: 0 }
    }
}

impl Iterator for SetBits {
    ghost use Rattle.blocks.specs.SettingBits.{StepsBit, bits_left};

    type Item = u32;

    ghost next_gives = { StepsBit };

    ghost remaining = { bits_left };

    fn next(&mut self) -> Option<u32> {
        if self.left == 0 {
            return None;
        }
        let n = self.left.trailing_zeros();
        let place = self.at + n;
        self.left = (self.left >> n) >> 1;
        self.at = place + 1;
        Some(place)
    }
}
