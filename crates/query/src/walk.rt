// The steps of a path, one after another, from the record without blanks at its ends.
ghost use Rattle.std.specs.Prelude.{◌≡◌, List, ◌+◌, ◌<◌, ◌≤◌, length};
ghost use Rattle.paths.specs.Helpers.{path_check};
ghost use Rattle.paths.specs.Grammar.{Selector};
ghost use Rattle.paths.specs.Path.{read_path, good};
ghost use Rattle.paths.specs.Places.{byte_in};
ghost use Rattle.query.specs.Walk.{of_item, framed, filled, name_step, number_step, walk_from, walk};

use crate::bits::Lent;
use crate::items::{Broken, Item};
use crate::types::{Answer, Miss, Part, Refusal};
use crate::{blanks, items};
use paths::PathStep;

// Step number k finds nothing in the value that begins at a.
fn missed(why: Miss, k: usize, a: usize) -> Refusal
    ensures { result ≡ Refusal.Missed why k a }
{
    Refusal::Missed {
        why,
        step: k,
        place: a,
    }
}

// Step number k comes upon a broken item.
fn broken_in(k: usize, broken: Broken) -> Refusal
    ensures { result ≡ Refusal.Broken broken.why k broken.place }
{
    Refusal::Broken {
        why: broken.why,
        step: k,
        place: broken.place,
    }
}

// What an item answers in that step, and what it means that there is none.
fn of_item(none: Miss, k: usize, a: usize, item: Item) -> Answer
    ensures { result ≡ of_item (Refusal.Missed none k a) k item }
{
    let found = item.map_err(|broken| broken_in(k, broken))?;
    found.ok_or(missed(none, k, a))
}

impl<'a> Lent<'a> {
    ghost use Rattle.query.specs.Helpers.{bits_of};

    // From a to e: at least two bytes, with these at its ends.
    #[tactic(auto, unfolding(crate::specs::Walk::framed, paths::specs::Places::byte_in))]
    fn is_framed(&self, head: u8, tail: u8, a: usize, e: usize) -> bool
        requires { (a ≤ e) × (e ≤ length self.now.text.now) }
        ensures { result ≡ framed (byte_in self.now.text.now) head tail a e }
    {
        a + 1 < e && self.text[a] == head && self.text[e - 1] == tail
    }

    // What lies between the ends is more than blanks.
    #[tactic(auto, unfolding(crate::specs::Walk::filled))]
    fn is_filled(&self, a: usize, e: usize) -> bool
        requires { (a + 1 < e) × (e ≤ length self.now.text.now) }
        ensures { result ≡ filled (byte_in self.now.text.now) a e }
    {
        blanks::skip_blanks(self.text, a + 1, e - 1) < e - 1
    }

    // The step number k, by a name, in the value from a to e. (It and the step by a number stay two: their brackets, both misses and the
    // search differ, and one function would take all of these.)
    #[tactic(auto, using(crate::proofs::ItemLaws::framed_long, crate::proofs::ItemLaws::filled_some), unfolding(crate::specs::Walk::name_step))]
    fn name_step(&self, k: usize, name: &[u8], a: usize, e: usize) -> Answer
        requires le_k { (1 ≤ k) × (k ≤ self.now.shape.levels) }
        requires a_le_e { (a ≤ e) × (e ≤ length self.now.text.now) }
        ensures { result ≡ name_step (byte_in self.now.text.now) (bits_of self.now) k name.now a e }
    {
        if !self.is_framed(b'{', b'}', a, e) {
            return Err(missed(Miss::NotObject, k, a));
        }
        if !self.is_filled(a, e) {
            return Err(missed(Miss::NoName, k, a));
        }
        let item = self.find_name(k, name, a + 1, e - 1);
        of_item(Miss::NoName, k, a, item)
    }

    // The step number k, by the number m, in the value from a to e.
    #[tactic(auto, using(crate::proofs::ItemLaws::framed_long, crate::proofs::ItemLaws::filled_some), unfolding(crate::specs::Walk::number_step))]
    fn number_step(&self, k: usize, m: usize, a: usize, e: usize) -> Answer
        requires le_k { (1 ≤ k) × (k ≤ self.now.shape.levels) }
        requires a_le_e { (a ≤ e) × (e ≤ length self.now.text.now) }
        ensures { result ≡ number_step (byte_in self.now.text.now) (bits_of self.now) k m a e }
    {
        if !self.is_framed(b'[', b']', a, e) {
            return Err(missed(Miss::NotArray, k, a));
        }
        if !self.is_filled(a, e) {
            return Err(missed(Miss::NoNumber, k, a));
        }
        let item = self.item_no(k, m, a + 1, e - 1);
        of_item(Miss::NoNumber, k, a, item)
    }

    // All steps of a path that was checked, so that none is refused, from the value of `$` on. (A `loop`: it ends where no step is left.)
    #[tactic(auto, using(paths::proofs::PathLaws::name_told, paths::proofs::PathLaws::number_told, crate::proofs::Going::going_start, crate::proofs::Going::level_name, crate::proofs::Going::going_name, crate::proofs::Going::level_number, crate::proofs::Going::going_number))]
    fn walk_path(&self, path: &[u8], whole: Part) -> Answer
        requires from_le_to { (whole.start ≤ whole.end) × (whole.end ≤ length self.now.text.now) }
        requires levels_value { path_check path.now self.now.shape.levels ≡ Ok tt }
        ensures { (ss : List Selector) → read_path path.now ≡ good ss → result ≡ walk_from (byte_in self.now.text.now) (bits_of self.now) 1 ss whole.start whole.end }
    {
        let mut part = whole;
        let mut at: usize = 1;
        let mut k: usize = 1;
        loop {
            let Some(step) = paths::read_step(path, at).unwrap_or(None) else {
                return Ok(part);
            };
            match step {
                PathStep::Name { start, end, next } => {
                    let member = self.name_step(k, &path[start..end], part.start, part.end)?;
                    part = member;
                    at = next;
                }
                PathStep::Number { value, next } => {
                    let element = self.number_step(k, value, part.start, part.end)?;
                    part = element;
                    at = next;
                }
            }
            k += 1;
        }
    }

    // The whole walk.
    #[tactic(auto, using(crate::proofs::Inside::value_in), unfolding(crate::specs::Walk::walk))]
    pub fn walk_record(&self, path: &[u8]) -> Answer
        requires levels_value { path_check path.now self.now.shape.levels ≡ Ok tt }
        ensures { (ss : List Selector) → read_path path.now ≡ good ss → result ≡ walk self.now.text.now (bits_of self.now) ss }
    {
        let whole = items::value_at(self.text, 0, 0, self.text.len()).map_err(|broken| broken_in(
            0, broken,
        ))?;
        self.walk_path(path, whole)
    }
}
