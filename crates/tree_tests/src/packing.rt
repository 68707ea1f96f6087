// Terms that are packed and unpacked.
use fol_core::{EQ, Sym, Term, Terms};
use packed_terms::{Head, PackedTerm};
use std::alloc::{AllocError, Global};
use std::test::Fail;
use substitutions::same;

// A symbol without arguments.
fn constant(alloc: Global, symbol: u64) -> Term {
    Term::App(Sym(symbol), Terms::new(alloc))
}

// A symbol with two arguments.
fn pair(alloc: Global, symbol: u64, left: Term, right: Term) -> Result<Term, AllocError> {
    let mut terms = Terms::new(alloc);
    terms.push(left)?;
    terms.push(right)?;
    Ok(Term::App(Sym(symbol), terms))
}

// A symbol with so many variables.
fn row(alloc: Global, symbol: u64, count: u64) -> Result<Term, AllocError> {
    let mut terms = Terms::new(alloc);
    for variable in 0..count {
        terms.push(Term::Var(variable))?;
    }
    Ok(Term::App(Sym(symbol), terms))
}

// f(g(x,a),3), with a 0, f 1, g 2 and x the variable 5.
fn nested(alloc: Global) -> Result<Term, AllocError> {
    let inner = pair(alloc, 2, Term::Var(5), constant(alloc, 0))?;
    pair(alloc, 1, inner, Term::Elem(3))
}

// Terms whose numbers have room in sixteen bits, just so, or not.
fn fill(alloc: Global, terms: &mut Vec<Term>) -> Result<(), AllocError> {
    terms.push(Term::Var(3))?;
    terms.push(Term::Elem(7))?;
    terms.push(constant(alloc, 0))?;
    terms.push(Term::Var(65535))?;
    terms.push(Term::Var(65536))?;
    terms.push(constant(alloc, 65535))?;
    terms.push(constant(alloc, 70000))?;
    terms.push(pair(alloc, EQ.0, nested(alloc)?, Term::Var(1))?)?;
    terms.push(nested(alloc)?)?;
    terms.push(pair(alloc, 1, nested(alloc)?, nested(alloc)?)?)?;
    terms.push(pair(alloc, 1, Term::Elem(100000), nested(alloc)?)?)?;
    terms.push(pair(alloc, 70000, nested(alloc)?, Term::Var(0))?)?;
    terms.push(row(alloc, 4, 300)?)?;
    terms.push(row(alloc, 4, 65534)?)?;
    Ok(())
}

// Whether a term is the same once it was packed and unpacked.
fn comes_back(alloc: Global, term: &Term) -> Result<bool, AllocError> {
    let packed = PackedTerm::new(alloc, term)?;
    Ok(same(&packed.term(alloc)?, term))
}

// Whether these heads stand at the places of the nested term.
fn has_heads(packed: &PackedTerm) -> bool {
    packed.len() == 5
        && matches!(packed.head(0), Some(Head::Symbol(1, 2)))
        && matches!(packed.head(1), Some(Head::Symbol(2, 2)))
        && matches!(packed.head(2), Some(Head::Variable(5)))
        && matches!(packed.head(3), Some(Head::Symbol(0, 0)))
        && matches!(packed.head(4), Some(Head::Element(3)))
        && packed.head(5).is_none()
}

#[test]
fn packed_terms_come_back_by_heads_at_their_places(rt: HostRuntime) -> Result<(), Fail> {
    let alloc = rt.alloc();
    let mut terms = Vec::new(alloc);
    fill(alloc, &mut terms)?;
    for term in &terms {
        assert!(rt; comes_back(alloc, term)?);
    }
    let packed = PackedTerm::new(alloc, &nested(alloc)?)?;
    assert!(rt; has_heads(&packed));
    Ok(())
}
