// The terms of several answers one behind the other, and cut apart again.
ghost use Rattle.std.specs.Prelude.{◌≡◌, ◌++◌, IfOk, OnOk, map};
ghost use Rattle.std.specs.List.{flat_map};
ghost use Rattle.answers.specs.AnswerView.{answers_of};
ghost use Rattle.fol_core.specs.RawView.{raw_list};
ghost use Rattle.proof_lines.specs.Counted.{counted_of, cut};

use crate::answered::RawAnswer;
use answers::Answer;
use fol_core::{Raw, Terms};
use std::alloc::{AllocError, Global};

/// An answer whose terms stand elsewhere: the number of its goal's line, and how many there are.
#[derive(Clone, Copy)]
pub struct Counted {
    pub goal: u64,
    pub count: usize,
}

/// Puts the terms of answers behind others, and counts those of each.
pub fn gather(
    alloc: Global,
    answers: Vec<RawAnswer>,
    behind: &mut Vec<Raw>,
) -> Result<Vec<Counted>, AllocError>
    ensures counts { IfOk result (λ counts. counts.items ≡ map counted_of answers.items) }
    ensures terms { OnOk result (raw_list behind.new.items
        ≡ raw_list behind.old.items ++ flat_map (λ a. a.terms) answers.items) }
{
    let mut counts = Vec::new(alloc);
    for answer in answers {
        let RawAnswer { goal, terms } = answer;
        counts.push(Counted {
            goal,
            count: terms.len(),
        })?;
        let mut items = terms.into_items();
        behind.append(&mut items)?;
    }
    Ok(counts)
}

/// The answers with these terms, cut by their counts.
#[tactic(auto, using(crate::proofs::Counting::cut_end))]
pub fn cut_terms(alloc: Global, counts: &[Counted], terms: Terms) -> Result<Vec<Answer>, AllocError>
    ensures { IfOk result (λ us. answers_of us.items ≡ cut counts.now terms) }
{
    let mut answers = Vec::new(alloc);
    let mut rest = terms.into_items();
    for counted in counts {
        let count = counted.count.min(rest.len());
        let behind = rest.split_off(count)?;
        answers.push(Answer {
            goal: counted.goal,
            terms: Terms { items: rest },
        })?;
        rest = behind;
    }
    Ok(answers)
}
