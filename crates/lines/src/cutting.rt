// Where a line ends, and the next line.
ghost use Rattle.std.specs.Prelude.{◌≡◌, ◌+◌, ◌<◌, ◌≤◌, length, IfSome, MatchOption};
ghost use Rattle.std.specs.List.{list_all};
ghost use Rattle.query.specs.Items.{is_blank};
ghost use Rattle.lines.specs.Lines.{line_end, line_from};

use query::blanks::is_blank;
use query::types::Part;
use std::simd::prelude::*;

// How far behind a the first LF of 16 bytes is: one comparison of them all.
fn feed_in(text: &[u8], a: usize) -> Option<usize>
    requires { a + 16 ≤ length text.now }
    ensures { MatchOption result (line_end text.now a ≡ line_end text.now (a + 16)) (λ i. (i < 16) × (a + i ≡ line_end text.now a)) }
{
    let feeds = u8x16::from_slice(&text[a..])
        .simd_eq(u8x16::splat(b'\n'))
        .to_bitmask();
    if feeds == 0 {
        None
    } else {
        Some(feeds.trailing_zeros() as usize)
    }
}

// The first LF from a on, or the text's end, byte by byte.
fn next_feed(text: &[u8], a: usize) -> usize
    requires { a ≤ length text.now }
    ensures { result ≡ line_end text.now a }
{
    match text[a..].iter().position(|&b| b == b'\n') {
        Some(i) => a + i,
        None => text.len(),
    }
}

// The same, 16 bytes at a time as far as there are so many. (A `while`: it ends at the first 16 with an LF. Where a line is empty the next
// one need not wait for a comparison.)
fn line_end(text: &[u8], a: usize) -> usize
    requires { a ≤ length text.now }
    ensures value { result ≡ line_end text.now a }
    ensures within { (a ≤ result) × (result ≤ length text.now) }
{
    if a < text.len() && text[a] == b'\n' {
        return a;
    }
    let mut at = a;
    while 16 <= text.len() - at {
        if let Some(i) = feed_in(text, at) {
            return at + i;
        }
        at += 16;
    }
    next_feed(text, at)
}

// Nothing but blanks.
fn is_blank_line(line: &[u8]) -> bool
    ensures { result ≡ list_all is_blank line.now }
{
    line.iter().all(|&b| is_blank(b))
}

// The first line that is not blank, of those that begin at `from` or behind it, where one is taken to begin at `from`. Its end is not
// included. (A `while`: it goes from a line's end to the next, and by no range.)
pub fn next_line(text: &[u8], from: usize) -> Option<Part>
    ensures value { result ≡ line_from text.now from }
    ensures within { IfSome result (λ line. (from ≤ line.start) × (line.start < line.end) × (line.end ≤ length text.now)) }
{
    let mut at = from;
    while at < text.len() {
        let end = line_end(text, at);
        let behind = end + 1;
        if !is_blank_line(&text[at..end]) {
            return Some(Part { start: at, end });
        }
        at = behind;
    }
    None
}
