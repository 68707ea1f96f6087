ghost use Rattle.std.specs.Prelude.{◌+◌, OnOk};
ghost use Rattle.tree_tests.specs.Free.{AreFree};

use crate::chance::Chance;
use crate::filling::{filled, put};
use crate::scans::{Left, Scan, all_linear, linear, scanned};
use discrim_tree::{Index, Tries};
use fol_core::{Sym, Term, Terms};
use std::alloc::{AllocError, Global};
use std::test::Fail;

const COUNT: u64 = 2000;

// Entries are taken out but for those that are left.
fn leave(index: &mut Index, left: Left) {
    for number in 0..COUNT {
        if !left.has(number) {
            index.remove(number);
        }
    }
}

// Whether an index finds for a term what a scan finds.
fn agrees(alloc: Global, index: &Index, scan: &Scan, t: &Term) -> Result<bool, AllocError> {
    let mut tries = Tries::new(alloc);
    let generalizations = index.generalizations(t, &mut tries)?;
    let first = index.first_generalization(t, &mut tries)?;
    let instances = index.instances(t, &mut tries)?;
    let unifiable = index.unifiable(t, &mut tries)?;
    Ok(
        generalizations == scan.generalizations
            && first == scan.generalizations.first().copied()
            && instances == scan.instances
            && unifiable == scan.unifiable,
    )
}

// Whether a number of tests is between two others.
fn is_between(tries: &Tries, least: &[u64], most: &[u64]) -> bool {
    least.len() as u64 <= tries.count() && tries.count() <= most.len() as u64
}

// Whether an index tests as many entries for a term as it finds, or more, and no more than a scan finds of terms in which each
// occurrence of a variable is a variable of its own.
fn tests_few(
    alloc: Global,
    index: &Index,
    apart: &[Term],
    left: Left,
    t: &Term,
) -> Result<bool, AllocError> {
    let most = scanned(alloc, apart, left, &linear(alloc, t, &mut 100)?)?;
    let mut general = Tries::new(alloc);
    let mut special = Tries::new(alloc);
    let mut either = Tries::new(alloc);
    let mut first = Tries::new(alloc);
    let generalizations = index.generalizations(t, &mut general)?;
    let instances = index.instances(t, &mut special)?;
    let unifiable = index.unifiable(t, &mut either)?;
    let _least = index.first_generalization(t, &mut first)?;
    Ok(
        is_between(&general, &generalizations, &most.generalizations)
            && is_between(&special, &instances, &most.instances)
            && is_between(&either, &unifiable, &most.unifiable)
            && is_between(&first, &[], &most.generalizations),
    )
}

// How many instances scans find of terms by chance, if an index finds what they find; of some terms its tests are counted.
fn found(
    alloc: Global,
    chance: &mut Chance,
    index: &Index,
    terms: &[Term],
    left: Left,
) -> Result<Option<usize>, AllocError> {
    let apart = all_linear(alloc, terms)?;
    let mut count = 0usize;
    for query in 0..60 {
        let t = chance.term(alloc, 2, 10)?;
        let scan = scanned(alloc, terms, left, &t)?;
        if !agrees(alloc, index, &scan, &t)? {
            return Ok(None);
        }
        if query % 10 == 0 && !tests_few(alloc, index, &apart, left, &t)? {
            return Ok(None);
        }
        count = count.saturating_add(scan.instances.len());
    }
    Ok(Some(count))
}

// Whether an index finds what scans find, and something at all, with all of its entries, with some left, and with fewer; none is
// left then.
fn finds_all(
    alloc: Global,
    chance: &mut Chance,
    index: &mut Index,
    terms: &[Term],
) -> Result<bool, AllocError> {
    let all = found(alloc, chance, index, terms, Left::All)?;
    leave(index, Left::NoThird);
    let most = found(alloc, chance, index, terms, Left::NoThird)?;
    leave(index, Left::NoThirdOrSecond);
    let some = found(alloc, chance, index, terms, Left::NoThirdOrSecond)?;
    leave(index, Left::None);
    Ok(
        all.is_some_and(|count| count > 1000)
            && most.is_some_and(|count| count > 1000)
            && some.is_some_and(|count| count > 100),
    )
}

#[test]
fn an_index_finds_what_scans_find(rt: HostRuntime) -> Result<(), Fail> {
    let alloc = rt.alloc();
    let mut chance = Chance { state: 1 };
    let (mut index, terms) = filled(alloc, &mut chance, COUNT)?;
    let all = finds_all(alloc, &mut chance, &mut index, &terms)?;
    assert!(rt; all && index.nodes() == 0);
    Ok(())
}

// One more entry, of a symbol with two arguments.
fn put_pair(
    alloc: Global,
    index: &mut Index,
    number: u64,
    left: Term,
    right: Term,
) -> Result<(), AllocError>
    requires { AreFree number index.old }
    ensures { OnOk result (AreFree (number + 1) index.new) }
{
    let mut terms = Terms::new(alloc);
    terms.push(left)?;
    terms.push(right)?;
    put(index, number, &Term::App(Sym(1), terms))
}

// The paths of f(x,y), f(x,x) and f(a,x) begin f, f*, f**, fa and fa*.
#[test]
fn nodes_are_beginnings(rt: HostRuntime) -> Result<(), Fail> {
    let alloc = rt.alloc();
    let mut index = Index::new(alloc);
    put_pair(alloc, &mut index, 0, Term::Var(0), Term::Var(1))?;
    put_pair(alloc, &mut index, 1, Term::Var(0), Term::Var(0))?;
    let constant = Term::App(Sym(0), Terms::new(alloc));
    put_pair(alloc, &mut index, 2, constant, Term::Var(0))?;
    assert!(rt; index.nodes() == 5);
    index.remove(2);
    assert!(rt; index.nodes() == 3);
    Ok(())
}
