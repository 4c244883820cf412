// A text of lines, each a record of its own: cut into a lent table, and one line of it indexed.
#![tactic(auto)]

use index::{Fault, Refusal};

pub mod cutting;
pub mod indexing;
pub mod table;

// Why there is no table, by its number.
#[derive(Clone, Copy, Debug, PartialEq, Eq)]
pub enum TableRefusal {
    Empty = 1,
    TooLong = 2,
    ManyLines = 31,
}

// What the job of a line answers; a fault with its place in the line, and the line's number in the table. Three outcomes, as `index::Answer`
// has: a fault is an answer about the line, and no refusal of the call.
#[derive(Clone, Copy)]
pub enum LineAnswer {
    Done,
    Refused(Refusal),
    Faulty { fault: Fault, line: usize },
}
