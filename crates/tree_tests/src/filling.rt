// An index with terms by chance, and the terms by themselves.
ghost use Rattle.std.specs.Prelude.{◌+◌, OnOk};
ghost use Rattle.tree_tests.specs.Free.{AreFree};

use crate::chance::Chance;
use discrim_tree::Index;
use fol_core::Term;
use std::alloc::{AllocError, Global};

/// One more term under the next number.
pub fn put(index: &mut Index, number: u64, term: &Term) -> Result<(), AllocError>
    requires { AreFree number index.old }
    ensures { OnOk result (AreFree (number + 1) index.new) }
{
    index.insert(number, term)?;
    Ok(())
}

/// An index with so many terms under the numbers from 0 on, and the terms.
pub fn filled(
    alloc: Global,
    chance: &mut Chance,
    count: u64,
) -> Result<(Index, Vec<Term>), AllocError> {
    let mut index = Index::new(alloc);
    let mut terms = Vec::new(alloc);
    for number in 0..count {
        let term = chance.term(alloc, 3, 0)?;
        put(&mut index, number, &term)?;
        terms.push(term)?;
    }
    Ok((index, terms))
}
