// What is printed: of each call ` number@place`, of an asking ` number@chunks+steps`, of a query
// ` number@place/step+length:digest` with a digest of the part's bytes, of a table ` number@count`, of a line
// ` number@place+line`, of a next line ` 0@start+end`; at a case's end the digest of the words, and of a table its numbers, as
// every call of it left them.
ghost use Rattle.std.specs.Iterator.{IsFinite};

use std::io;
use std::io::Write;

fn mix(digest: u64, word: u64) -> u64 {
    let turned = digest.rotate_left(23) ^ word;
    (turned ^ (turned >> 29)).wrapping_add(0x9E3779B97F4A7C15)
}

// Goes on with these numbers.
pub fn digest_of<I: Iterator<Item = u64>>(digest: u64, numbers: I) -> u64
    requires { I.can_next numbers × IsFinite (I.remaining numbers) }
{
    numbers.fold(digest, mix)
}

pub fn tell<W: Write>(out: &mut W, number: u64, place: usize) -> io::Result<()> {
    write!(out, " {number}@{place}")
}

pub fn tell_two<W: Write>(out: &mut W, number: u64, first: usize, second: usize) -> io::Result<()> {
    write!(out, " {number}@{first}+{second}")
}

// The low half of the digest is told.
pub fn tell_part<W: Write>(
    out: &mut W,
    number: u64,
    place: usize,
    step: usize,
    part: &[u8],
) -> io::Result<()> {
    let digest = digest_of(0, part.iter().map(|&byte| u64::from(byte))) % 4294967296;
    let length = part.len();
    write!(out, " {number}@{place}/{step}+{length}:{digest:08x}")
}

pub fn tell_end<W: Write>(out: &mut W, digest: u64) -> io::Result<()> {
    writeln!(out, " {digest:016x}")
}
