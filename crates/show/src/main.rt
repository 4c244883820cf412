// Reads a path, LF and a record, and prints the number, start and end of the part that the path selects.
#![tactic(auto)]

mod printing;

use reading::read_full;
use std::io;

// The buffer holds more than any input whose line depends on all its bytes: 1,025 + 16,385.
fn main(rt: HostRuntime) -> io::Result<()> {
    let mut input = [0u8; 65536];
    let n = read_full(&mut rt.stdin(), &mut input)?;
    println!(rt; "{}", printing::shown(&input[..n]))
}
