// Signed depths: what a chunk keeps of its brackets, added to the depth at its border.
ghost use Rattle.std.specs.Prelude.{◌≡◌, pos, ◌+ℤ◌};
ghost use Rattle.blocks.specs.Swinging.{Small};
ghost use Rattle.index.specs.Depth.{kept_of, below_zero, above64, clamp_depth};

use crate::Kept;
use blocks::swing::Swing;

pub(crate) fn kept_of(odd: bool, s: Swing) -> Kept
    requires { Small 16777216 s }
    ensures { result ≡ kept_of odd s }
{
    Kept {
        odd,
        net: (s.up as i32) - (s.down as i32),
        low: 0 - (s.dip as i32),
        high: s.peak as i32,
    }
}

// The depth behind a chunk: within 0 to 64 whatever the job.
pub(crate) fn depth_after(start: u32, net: i32) -> u32
    ensures { result ≡ clamp_depth (pos start +ℤ net) }
{
    start.saturating_add_signed(net).min(64)
}

// Whether the depth falls below 0 in the chunk.
pub(crate) fn falls(start: u32, low: i32) -> bool
    ensures { result ≡ below_zero (pos start +ℤ low) }
{
    (start as i64) + (low as i64) < 0
}

// Whether it climbs above 64.
pub(crate) fn climbs(start: u32, high: i32) -> bool
    ensures { result ≡ above64 (pos start +ℤ high) }
{
    64 < (start as i64) + (high as i64)
}
