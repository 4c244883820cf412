// One block of 64 bytes at a time: the words of its classes, its escapes and its mask, how its brackets move the depth, and which of its places lie
// at which depth. No chunk, no job, no lent word.
#![tactic(auto)]

pub mod bits;
pub mod block;
pub mod classes;
pub mod marking;
pub mod marks;
pub mod spread;
pub mod swing;
