// The words of a chunk, from one word up to another: scanned under a guess, the mask turned over, and levelled. No job: who calls knows the chunk.
// Each asks that record, words, levels and span belong together (`Lent`): no one value has all of them, since it would hold the words, which are written.
#![tactic(auto)]

pub mod flipping;
pub mod levelling;
pub mod scanning;

// Words of a bitmap, from `from` up to `to`.
#[derive(Clone, Copy)]
pub struct Span {
    pub from: usize,
    pub to: usize,
}
