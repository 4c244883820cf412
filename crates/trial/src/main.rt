// Runs the calls that it reads, and tells what each answered. It knows no case and no answer.
//
// A call is 16 bytes, its numbers lowest byte first: letter, flag, levels (2), length (4), value (8).
// R, O, Q and G are followed by as many bytes as their length says: a record, cuts of 8 bytes each, a path, a table's numbers of 8
// bytes each.
#![tactic(auto)]

mod byline;
mod calls;
mod input;
mod lending;
mod telling;

use calls::{Trial, no_job};
use lending::Lengths;
use std::io;
use std::io::{Read, Write};

fn run<R: Read + Drop, W: Write + Drop>(
    input: R,
    out: W,
    text: &mut [u8],
    words: &mut [u64],
    table: &mut [usize],
) -> io::Result<()> {
    let mut trial = Trial {
        input,
        out,
        lent: Lengths::default(),
        job: no_job(),
        kept: no_job(),
        digest: 0,
    };
    // Nothing says that the input ends, so the calls are counted, up to a number that no input uses up.
    for _ in 0..u64::MAX {
        let Some(head) = input::read_head(&mut trial.input)? else {
            return Ok(());
        };
        trial.call(head, text, words, table)?;
    }
    Ok(())
}

fn main(rt: HostRuntime) -> io::Result<()> {
    let mut text = [0u8; 65536];
    let mut words = [0u64; 8192];
    let mut table = [0usize; 128];
    run(rt.stdin(), rt.stdout(), &mut text, &mut words, &mut table)
}
