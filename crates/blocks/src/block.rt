// 64 bytes to words of their classes.
ghost use Rattle.std.specs.Prelude.{◌≡◌, ℕ, ◌+◌, ◌*◌, ◌<◌, ◌≤◌, length, slice_index};
ghost use Rattle.rules.specs.Bytes.{has};
ghost use Rattle.blocks.specs.Coding.{Code, coded, TableOf};
ghost use Rattle.blocks.specs.Block.{Codes, lanes_of, evens as evens_of, halves as halves_of, CodeBitsOf, BlockOf};

// The words of the classes: bit j is byte j of the block.
#[derive(Clone, Copy)]
pub struct Classes {
    pub quotes: u64,
    pub backslashes: u64,
    pub opens: u64,
    pub closes: u64,
    pub colons: u64,
    pub commas: u64,
}

// The words of the codes' four bits.
#[derive(Clone, Copy)]
struct CodeBits {
    a: u64,
    b: u64,
    c: u64,
    d: u64,
}

// The bytes at even places. (As arithmetic, which is how it is proved; compiled, it is one mask.)
fn evens(x: u64) -> u64
    ensures { result ≡ evens_of x }
{
    x % 0x100
        + 0x1_0000 * (x / 0x1_0000 % 0x100)
        + 0x1_0000_0000 * (x / 0x1_0000_0000 % 0x100)
        + 0x1_0000_0000_0000 * (x / 0x1_0000_0000_0000 % 0x100)
}

// Those of both, in turn.
fn woven(x: u64, y: u64) -> u64
    ensures { result ≡ evens_of x + 256 * evens_of y }
{
    evens(x) + 0x100 * evens(y)
}

// The low 16 bits of each half. (No instance of `evens`, nor `joined` of `woven`: two terms and not four, and the proofs are by the terms.)
fn halves(x: u64) -> u64
    ensures { result ≡ halves_of x }
{
    x % 0x1_0000 + 0x1_0000_0000 * (x / 0x1_0000_0000 % 0x1_0000)
}

// Those of both, in turn.
fn joined(x: u64, y: u64) -> u64
    ensures { result ≡ halves_of x + 65536 * halves_of y }
{
    halves(x) + 0x1_0000 * halves(y)
}

impl CodeBits {
    // The classes that the codes are of.
    fn sorted(self) -> Classes
        ensures { (k : ℕ → Code) → CodeBitsOf k self → BlockOf (λ c j. coded c (k j)) result }
    {
        let both = self.c & self.d;
        Classes {
            quotes: self.a & !(self.c | self.d),
            backslashes: self.b,
            opens: self.c & !self.d,
            closes: self.d & !self.c,
            colons: both & !self.a,
            commas: both & self.a,
        }
    }
}

// The bytes from at on, and zeros, which are in no class, behind the end.
fn padded(text: &[u8], at: usize) -> [u8; 64]
    requires { (at ≤ length text.now) × (length text.now < at + 64) }
    ensures { (j : ℕ) → slice_index result j ≡ slice_index text.now (at + j) }
{
    let mut p = [0u8; 64];
    let rest = &text[at..];
    p[..rest.len()].copy_from_slice(rest);
    p
}

// The codes of 8 bytes: bit j of a lane is byte j. The sums of the lanes stay apart, because no bit is added twice.
fn lanes(t: &[u32; 256], text: &[u8], at: usize) -> u64
    requires { at + 8 ≤ length text.now }
    ensures upper_bound { result < 4294967296 }
    ensures by_index { (k : ℕ → Code) → Codes t.now text.now at 8 k → result ≡ lanes_of k 8 }
{
    let mut sum: u32 = 0;
    for j in 0..8 {
        sum = sum.wrapping_add(t[text[at + j] as usize] << j);
    }
    sum as u64
}

// Two eights of bytes, 32 apart.
fn far_lanes(t: &[u32; 256], text: &[u8], at: usize) -> u64
    requires { at + 40 ≤ length text.now }
    ensures { (k h : ℕ → Code) → Codes t.now text.now at 8 k → Codes t.now text.now (at + 32) 8 h → result ≡ lanes_of k 8 + 4294967296 * lanes_of h 8 }
{
    let low = lanes(t, text, at);
    let high = lanes(t, text, at + 32);
    low + 0x1_0000_0000 * high
}

// The lanes of the eights, turned into words: those of one lane are brought side by side, first two and two, then four and four.
fn full_block(t: &[u32; 256], text: &[u8], at: usize) -> CodeBits
    requires { at + 64 ≤ length text.now }
    ensures { (k : ℕ → Code) → Codes t.now text.now at 64 k → CodeBitsOf k result }
{
    let x = far_lanes(t, text, at);
    let y = far_lanes(t, text, at + 8);
    let z = far_lanes(t, text, at + 16);
    let u = far_lanes(t, text, at + 24);
    let ac0 = woven(x, y);
    let ac1 = woven(z, u);
    let bd0 = woven(x / 0x100, y / 0x100);
    let bd1 = woven(z / 0x100, u / 0x100);
    CodeBits {
        a: joined(ac0, ac1),
        b: joined(bd0, bd1),
        c: joined(ac0 / 0x1_0000, ac1 / 0x1_0000),
        d: joined(bd0 / 0x1_0000, bd1 / 0x1_0000),
    }
}

// The classes of the 64 bytes from at on; behind the end there are none.
pub fn block(t: &[u32; 256], text: &[u8], at: usize) -> Classes
    requires { at ≤ length text.now }
    ensures { TableOf t.now → BlockOf (λ c j. has c text.now (at + j)) result }
{
    if 64 <= text.len() - at {
        return full_block(t, text, at).sorted();
    }
    full_block(t, &padded(text, at), 0).sorted()
}
