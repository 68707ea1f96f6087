// The ways through the instances of clauses that a search goes.
ghost use Rattle.std.specs.Prelude.{◌≡◌, ◌++◌, ◌<◌, IfOk, MatchOption, OnOk, get_or, length, map, set};
ghost use Rattle.std.specs.List.{range_with_len};
ghost use Rattle.cell_search.specs.Covering.{AreWaysThrough, IsWholeWay};
ghost use Rattle.cell_search.specs.Full.{HaveVariables};
ghost use Rattle.cell_search.specs.Marks.{all_nested_in, direct_in, directs, marked_from, nested_in, step_of};
ghost use Rattle.cell_search.specs.Ways.{AreGroups, EachIn, EachInAtom, EachInClause, GroupsGrow, HasWalkOf, HaveWalks, IsOccurrenceOf, IsWalkOf};
ghost use Rattle.fol_core.specs.TermView.{tree_of};
ghost use Rattle.fol_core.specs.Tree.{trees_of};
ghost use Rattle.mace_ground.specs.Instances.{variables_in};
ghost use Rattle.plain_search.specs.Lefts.{IsAmong};

use crate::setup::Setup;
use crate::walk::{Group, Occurrence, Walk};
use fol_core::{Clause, EQ, Kind, Sym, Term, Terms};
use mace_ground::{power, variables_in};
use std::alloc::{AllocError, Global};

// Whether a variable is an argument itself, stands in an argument, or doesn't stand in an occurrence.
#[derive(Clone, Copy)]
enum Mark {
    Other,
    Nested,
    Direct,
}

fn set_mark(marks: &mut [Mark], variable: u64, mark: Mark)
    ensures { marks.new ≡ set marks.old variable mark }
{
    let at = variable as usize;
    if at < marks.len() {
        marks[at] = mark;
    }
}

// Marks the variables of a term.
fn mark_nested(marks: &mut [Mark], term: &Term)
    ensures { marks.new ≡ nested_in (tree_of term.now) marks.old }
{
    match term {
        Term::Var(variable) => set_mark(marks, *variable, Mark::Nested),
        Term::Elem(_) => {}
        Term::App(_, terms) => {
            for term in terms.as_slice() {
                mark_nested(marks, term);
            }
        }
    }
}

// Adds the variables that are marked so.
fn add_marked(order: &mut Vec<usize>, marks: &[Mark], mark: Mark) -> Result<(), AllocError>
    ensures { OnOk result (order.new.items ≡ order.old.items ++ marked_from 0 mark marks.now) }
{
    for (variable, each) in marks.iter().enumerate() {
        if *each == mark {
            order.push(variable)?;
        }
    }
    Ok(())
}

// How many variables a clause has.
fn many_variables(clause: &Clause) -> Result<usize, AllocError>
    ensures { IfOk result (λ n. n ≡ variables_in clause.now) }
{
    match usize::try_from(variables_in(clause)) {
        Ok(many) => Ok(many),
        Err(_) => Err(AllocError),
    }
}

// How many cells lie between those of one element and the next for an argument that has so many behind it.
fn step(size: u32, behind: usize) -> u32
    ensures { result ≡ step_of size behind }
{
    u32::try_from(power(size, behind as u128)).unwrap_or(0)
}

// Marks the variables of arguments.
fn mark_arguments(marks: &mut [Mark], terms: &Terms)
    ensures { marks.new ≡ all_nested_in (trees_of terms.now) marks.old }
{
    for term in terms.as_slice() {
        mark_nested(marks, term);
    }
}

// The arguments that are variables, each with how many cells lie between those of one of its elements and the next; they are marked.
fn direct_arguments(
    alloc: Global,
    size: u32,
    terms: &Terms,
    marks: &mut [Mark],
) -> Result<Vec<(usize, u32)>, AllocError>
    ensures arguments { IfOk result (λ v. v.items ≡ directs size (trees_of terms.now)) }
    ensures marks { OnOk result (marks.new ≡ direct_in (trees_of terms.now) marks.old) }
{
    let mut direct = Vec::new(alloc);
    let mut behind = terms.len();
    for term in terms.as_slice() {
        behind = behind.saturating_sub(1);
        if let Term::Var(variable) = term {
            set_mark(marks, *variable, Mark::Direct);
            direct.push((*variable as usize, step(size, behind)))?;
        }
    }
    Ok(direct)
}

// An occurrence of a symbol, whose variables are marked.
fn occurrence<'a>(
    alloc: Global,
    size: u32,
    kind: Kind,
    symbol: Sym,
    terms: &'a Terms,
    marks: &mut [Mark],
) -> Result<Occurrence<'a>, AllocError>
    ensures occurrence { IfOk result (λ o. IsOccurrenceOf size kind symbol.0
        (trees_of terms.now) o) }
    ensures marks { OnOk result (marks.new ≡ direct_in (trees_of terms.now)
        (all_nested_in (trees_of terms.now) marks.old)) }
{
    mark_arguments(marks, terms);
    let direct = direct_arguments(alloc, size, terms, marks)?;
    Ok(Occurrence {
        kind,
        symbol,
        terms,
        direct,
    })
}

// The way through the instances in which an occurrence is a certain cell.
fn occurrence_walk<'a>(
    alloc: Global,
    setup: &Setup,
    clause: usize,
    variables: usize,
    kind: Kind,
    symbol: Sym,
    terms: &'a Terms,
) -> Result<Walk<'a>, AllocError>
    ensures { IfOk result (λ walk. IsWalkOf setup.now.size clause variables kind symbol.0
        (trees_of terms.now) walk) }
{
    let mut marks = vec![in alloc; Mark::Other; variables]?;
    let occurrence = occurrence(alloc, setup.size(), kind, symbol, terms, &mut marks)?;
    let mut order = Vec::new(alloc);
    add_marked(&mut order, &marks, Mark::Nested)?;
    let nested = order.len();
    add_marked(&mut order, &marks, Mark::Other)?;
    Ok(Walk {
        clause,
        occurrence: Some(occurrence),
        order,
        nested,
    })
}

// The place of the group whose cells begin with this one.
fn group_at(groups: &[Group], first: u32) -> Option<usize>
    ensures { MatchOption result
        (IsAmong first (map (λ g. g.first) groups.now) → ⊥)
        (λ at. (at < length groups.now)
        × (get_or (map (λ g. g.first) groups.now) at 0 ≡ first)) }
{
    for (at, group) in groups.iter().enumerate() {
        if group.first == first {
            return Some(at);
        }
    }
    None
}

// Adds an occurrence to the group of its symbol.
fn add_occurrence<'a>(
    alloc: Global,
    setup: &Setup,
    clause: usize,
    variables: usize,
    kind: Kind,
    symbol: Sym,
    terms: &'a Terms,
    groups: &mut Vec<Group<'a>>,
) -> Result<(), AllocError>
    ensures grow { OnOk result (GroupsGrow groups.old.items groups.new.items) }
    ensures walk { OnOk result (AreGroups setup.now groups.old.items
        → HasWalkOf setup.now groups.new.items clause variables kind symbol.0
        (trees_of terms.now)) }
{
    let Some(span) = setup.find(symbol) else {
        return Ok(());
    };
    let walk = occurrence_walk(alloc, setup, clause, variables, kind, symbol, terms)?;
    if let Some(at) = group_at(groups, span.first) {
        if at < groups.len() {
            groups[at].walks.push(walk)?;
        }
    }
    Ok(())
}

// Adds each occurrence in a term.
fn add_term<'a>(
    alloc: Global,
    setup: &Setup,
    clause: usize,
    variables: usize,
    term: &'a Term,
    groups: &mut Vec<Group<'a>>,
) -> Result<(), AllocError>
    ensures grow { OnOk result (GroupsGrow groups.old.items groups.new.items) }
    ensures walks { OnOk result (AreGroups setup.now groups.old.items
        → EachIn (HasWalkOf setup.now groups.new.items clause variables) (tree_of term.now)) }
{
    let Term::App(symbol, terms) = term else {
        return Ok(());
    };
    let kind = Kind::Function;
    add_occurrence(
        alloc, setup, clause, variables, kind, *symbol, terms, groups,
    )?;
    for term in terms.as_slice() {
        add_term(alloc, setup, clause, variables, term, groups)?;
    }
    Ok(())
}

// Adds each occurrence in an atom; an equation is none itself.
fn add_atom<'a>(
    alloc: Global,
    setup: &Setup,
    clause: usize,
    variables: usize,
    atom: &'a Term,
    groups: &mut Vec<Group<'a>>,
) -> Result<(), AllocError>
    ensures grow { OnOk result (GroupsGrow groups.old.items groups.new.items) }
    ensures walks { OnOk result (AreGroups setup.now groups.old.items
        → EachInAtom (HasWalkOf setup.now groups.new.items clause variables)
        (tree_of atom.now)) }
{
    let Term::App(symbol, terms) = atom else {
        return Ok(());
    };
    if symbol.0 != EQ.0 {
        let kind = Kind::Relation;
        add_occurrence(
            alloc, setup, clause, variables, kind, *symbol, terms, groups,
        )?;
    }
    for term in terms.as_slice() {
        add_term(alloc, setup, clause, variables, term, groups)?;
    }
    Ok(())
}

// Adds each occurrence in a clause.
fn add_clause<'a>(
    alloc: Global,
    setup: &Setup,
    at: usize,
    clause: &'a Clause,
    groups: &mut Vec<Group<'a>>,
) -> Result<(), AllocError>
    ensures grow { OnOk result (GroupsGrow groups.old.items groups.new.items) }
    ensures walks { OnOk result (AreGroups setup.now groups.old.items
        → EachInClause (HasWalkOf setup.now groups.new.items at (variables_in clause.now))
        clause.now) }
{
    let variables = many_variables(clause)?;
    for literal in clause.as_slice() {
        add_atom(alloc, setup, at, variables, &literal.atom, groups)?;
    }
    Ok(())
}

// A group for each block of cells.
fn empty_groups<'a>(alloc: Global, setup: &Setup) -> Result<Vec<Group<'a>>, AllocError>
    ensures { IfOk result (λ v. AreGroups setup.now v.items) }
{
    let mut groups = Vec::new(alloc);
    for block in setup.blocks() {
        if let Some(span) = setup.find(block.symbol) {
            groups.push(Group {
                first: span.first,
                walks: Vec::new(alloc),
            })?;
        }
    }
    Ok(groups)
}

/// The occurrences of each symbol that has cells.
pub fn groups<'a>(
    alloc: Global,
    setup: &Setup,
    clauses: &'a [(u64, Clause)],
) -> Result<Vec<Group<'a>>, AllocError>
    ensures groups { IfOk result (λ v. AreGroups setup.now v.items) }
    ensures walks { map (λ row. row.1) clauses.now ≡ setup.now.clauses
        → IfOk result (λ v. HaveWalks setup.now v.items (length clauses.now)) }
{
    let mut groups = empty_groups(alloc, setup)?;
    for (at, row) in clauses.iter().enumerate() {
        add_clause(alloc, setup, at, &row.1, &mut groups)?;
    }
    Ok(groups)
}

// The variables below this number.
fn variables_below(alloc: Global, many: usize) -> Result<Vec<usize>, AllocError>
    ensures { IfOk result (λ v. v.items ≡ range_with_len 0 many) }
{
    let mut variables = Vec::new(alloc);
    for variable in 0..many {
        variables.push(variable)?;
    }
    Ok(variables)
}

// The way through all instances of a clause of this number.
fn whole_walk<'a>(alloc: Global, clause: usize, of: &Clause) -> Result<Walk<'a>, AllocError>
    ensures { IfOk result (λ walk. IsWholeWay of.now clause walk) }
{
    let many = many_variables(of)?;
    let order = variables_below(alloc, many)?;
    Ok(Walk {
        clause,
        occurrence: None,
        order,
        nested: 0,
    })
}

/// The ways through all instances of each clause.
pub fn walks<'a>(alloc: Global, clauses: &'a [(u64, Clause)]) -> Result<Vec<Walk<'a>>, AllocError>
    ensures { IfOk result (λ v. (length v.items ≡ length clauses.now)
        × AreWaysThrough (map (λ row. row.1) clauses.now) v.items) }
{
    let mut walks = Vec::new(alloc);
    for (clause, row) in clauses.iter().enumerate() {
        walks.push(whole_walk(alloc, clause, &row.1)?)?;
    }
    Ok(walks)
}

/// For how many variables there has to be room.
pub fn room(setup: &Setup) -> Result<usize, AllocError>
    ensures { IfOk result (λ n. HaveVariables setup.now.clauses n) }
{
    let mut room = 0;
    for (_, clause) in setup.clauses() {
        room = variables_in(clause).max(room);
    }
    match usize::try_from(room) {
        Ok(room) => Ok(room),
        Err(_) => Err(AllocError),
    }
}
