// What of a list of terms fits another one, found by going through them all.
use fol_core::{Term, Terms};
use std::alloc::{AllocError, Global};
use term_matches::is_instance;
use term_unifiers::Pairs;

/// Which numbers of terms are left.
#[derive(Clone, Copy)]
pub enum Left {
    All,
    NoThird,
    NoThirdOrSecond,
    None,
}

impl Left {
    /// Whether a number is.
    pub fn has(&self, number: u64) -> bool {
        match self {
            Left::All => true,
            Left::NoThird => number % 3 != 0,
            Left::NoThirdOrSecond => number % 3 != 0 && number % 2 != 0,
            Left::None => false,
        }
    }
}

/// The numbers of the terms of which another one is an instance, of those that are instances of it, and of those that unify
/// with it.
#[derive(Drop)]
pub struct Scan {
    pub generalizations: Vec<u64>,
    pub instances: Vec<u64>,
    pub unifiable: Vec<u64>,
}

/// A term with a variable of its own for each occurrence of one, from a number on; the number goes on.
pub fn linear(alloc: Global, t: &Term, next: &mut u64) -> Result<Term, AllocError> {
    match t {
        Term::Var(_) => {
            let variable = *next;
            *next = variable.saturating_add(1);
            Ok(Term::Var(variable))
        }
        Term::Elem(k) => Ok(Term::Elem(*k)),
        Term::App(f, terms) => {
            let mut made = Terms::new(alloc);
            for term in &terms.items {
                made.push(linear(alloc, term, next)?)?;
            }
            Ok(Term::App(*f, made))
        }
    }
}

/// Terms, each with a variable of its own for each occurrence of one, from 0 on.
pub fn all_linear(alloc: Global, terms: &[Term]) -> Result<Vec<Term>, AllocError> {
    let mut made = Vec::new(alloc);
    for term in terms {
        made.push(linear(alloc, term, &mut 0)?)?;
    }
    Ok(made)
}

// Whether terms without a variable of both unify.
fn do_unify(alloc: Global, s: &Term, t: &Term) -> Result<bool, AllocError> {
    let mut pairs = Pairs::new(alloc, 1)?;
    pairs.push(s, 0, t, 0)?;
    Ok(pairs.unify()?.is_some())
}

/// What of those terms that are left fits a term that has none of their variables.
pub fn scanned(alloc: Global, terms: &[Term], left: Left, t: &Term) -> Result<Scan, AllocError> {
    let mut found = Scan {
        generalizations: Vec::new(alloc),
        instances: Vec::new(alloc),
        unifiable: Vec::new(alloc),
    };
    for (i, s) in terms.iter().enumerate() {
        let number = i as u64;
        if !left.has(number) {
            continue;
        }
        if is_instance(alloc, s, t)? {
            found.generalizations.push(number)?;
        }
        if is_instance(alloc, t, s)? {
            found.instances.push(number)?;
        }
        if do_unify(alloc, s, t)? {
            found.unifiable.push(number)?;
        }
    }
    Ok(found)
}
