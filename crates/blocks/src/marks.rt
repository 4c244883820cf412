// Words of bits: escapes, and the parity of the bits below.
ghost use Rattle.std.specs.Prelude.{◌≡◌, ℕ, suc, Bool, ◌&&◌, nat_lt};
ghost use Rattle.rules.specs.Word.{xor, odd, count, word};
ghost use Rattle.blocks.specs.Escape.{esc_from};

// Bit i of the result: an odd number of the bits 0 to i of x is set.
pub fn parities(x: u64) -> u64
    ensures { (p : ℕ → Bool) → x ≡ word 64 p → result ≡ word 64 (λ i. odd (count p (suc i))) }
{
    let mut v = x;
    v ^= v << 1;
    v ^= v << 2;
    v ^= v << 4;
    v ^= v << 8;
    v ^= v << 16;
    v ^= v << 32;
    v
}

// (`Escaped` and `Masked` stay two: the listed theorem `escapes_spec` has the fields of the first, and `inside` is no carry.)
#[derive(Clone, Copy)]
pub struct Escaped {
    pub word: u64,
    pub carry: bool,
}

const ODD: u64 = 0xaaaa_aaaa_aaaa_aaaa;

// The escaped places of a word, where bs marks its backslashes and carry says whether place 0 is escaped;
// and whether the place after the word is.
pub fn escapes(bs: u64, carry: bool) -> Escaped
    ensures { (p : ℕ → Bool) → bs ≡ word 64 p → (result.word ≡ word 64 (esc_from carry p)) × (result.carry ≡ esc_from carry p 64) }
{
    let c = carry as u64;
    let follows = (bs << 1) | c;
    let starts = bs & (!follows & ODD);
    let sum = bs.wrapping_add(starts).wrapping_add(c);
    let word = follows & (((sum ^ bs) ^ starts) ^ ODD);
    Escaped {
        word,
        carry: (bs & !word) >> 63 == 1,
    }
}

// The bits below `left`: all 64 where there are as many.
pub fn live(left: usize) -> u64
    ensures { result ≡ word 64 (λ b. nat_lt b left) }
{
    if left < 64 {
        (1u64 << left) - 1
    } else {
        u64::MAX
    }
}

// All 64 bits alike.
pub fn alike(b: bool) -> u64
    ensures { result ≡ word 64 (λ i. b) }
{
    if b { u64::MAX } else { 0 }
}

#[derive(Clone, Copy)]
pub struct Masked {
    pub word: u64,
    pub inside: bool,
}

// The mask of a word, where `inside` says whether place 0 is inside a string: of each live place whether an odd number of quotes and
// `inside` lie before it; and whether the place after the word is inside.
pub fn mask_word(quotes: u64, inside: bool, alive: u64) -> Masked
    ensures { (p q : ℕ → Bool) → quotes ≡ word 64 p → alive ≡ word 64 q → (result.word ≡ word 64 (λ b. q b && xor (odd (count p b)) inside)) × (result.inside ≡ xor (odd (count p 64)) inside) }
{
    let upto = parities(quotes);
    let all = alike(inside);
    Masked {
        word: alive & ((upto ^ quotes) ^ all),
        inside: (upto ^ all) >> 63 == 1,
    }
}
