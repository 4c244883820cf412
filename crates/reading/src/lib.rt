// Reading as much as a buffer holds or the input has: what both programs do with standard input.
#![tactic(auto)]

ghost use Rattle.std.specs.Prelude.{◌≤◌, length, IfOk};

use std::io;
use std::io::Read;

// Reads until the buffer is full or the input ends, and tells how many bytes it put at the buffer's start. (By hand: of std's methods,
// `read_exact` does not tell how much there was before the end, and `read_to_end` needs a heap.)
pub fn read_full<R: Read>(input: &mut R, into: &mut [u8]) -> io::Result<usize>
    ensures { IfOk result (λ n. n ≤ length into.new) }
{
    let mut done = 0;
    while done < into.len() {
        let got = input.read(&mut into[done..])?;
        if got == 0 {
            break;
        }
        done += got;
    }
    Ok(done)
}
