// Paths in, a part of the lent record out: by the bits of the lent words, whatever they are.
#![tactic(auto)]

ghost use Rattle.query.specs.Outcomes.{AnswerGives, QueryGives};

use bits::Lent;
use layout::{Shape, size_of};
use types::{Answer, Refusal, Tells};

mod bits;
pub mod blanks;
mod items;
pub mod types;
mod walk;

// What a path selects in a record, by the words lent with it. Any record, words, levels and path.
#[tactic(auto, using(crate::proofs::Answering::passed), unfolding(crate::specs::Answers::answer_of, rules::specs::Layout::size_of, rules::specs::Layout::width_of))]
pub fn answer(text: &[u8], words: &[u64], levels: usize, path: &[u8]) -> Answer
    ensures { AnswerGives text.now words.now levels path.now result }
{
    if text.is_empty() {
        return Err(Refusal::EmptyRecord);
    }
    if 16777216 < text.len() {
        return Err(Refusal::LongRecord);
    }
    if levels == 0 || 16 < levels {
        return Err(Refusal::BadLevels);
    }
    if words.len() != size_of(levels, text.len()) {
        return Err(Refusal::BadBuffer);
    }
    let shape = Shape::new(levels, text.len());
    let lent = Lent { text, words, shape };
    paths::check_path(path, levels)?;
    lent.walk_record(path)
}

// The part of the lent record itself that a path selects, the empty part at its start on refusal; and the number, the place and
// the step. These three are told through references, beside the part: a caller gets a part of its own record whatever the answer
// (`QueryGives`; a rule of the project, and what the interface for C rests on). `answer` tells the same as a `Result`.
pub fn query<'a>(
    text: &'a [u8],
    words: &[u64],
    levels: usize,
    path: &[u8],
    number: &mut u64,
    place: &mut usize,
    step: &mut usize,
) -> &'a [u8]
    ensures { QueryGives text.now words.now levels path.now text.entry.ref_ptr.0 text.entry.ref_ptr.1 result.now result.ref_ptr.0 result.ref_ptr.1 number.new place.new step.new }
{
    let told = answer(text, words, levels, path);
    *number = told.number();
    *place = told.place();
    *step = told.step();
    match told {
        Ok(part) => &text[part.start..part.end],
        Err(_) => &text[..0],
    }
}
