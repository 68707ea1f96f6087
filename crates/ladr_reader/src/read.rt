// The term that the tokens of an item are.
ghost use Rattle.std.specs.Prelude.{◌≡◌, ◌≤◌, ◌<◌, max, true, false, IfOk, IfErr, MatchOption};
ghost use Rattle.fol_core.specs.RawTree.{RawTree, depth};
ghost use Rattle.fol_core.specs.RawView.{raw_of, raw_list};
ghost use Rattle.ladr_lex.specs.Lexeme.{lexemes_of};
ghost use Rattle.ladr_reader.specs.Capped.{unless_too_deep, disjuncts_within, disjuncts, all_within};
ghost use Rattle.ladr_reader.specs.Depths.{IsTooDeep};
ghost use Rattle.ladr_reader.specs.Faults.{IsTermFault, IsFaultWhere, IsTermRead};
ghost use Rattle.ladr_reader.specs.Marks.{marked};
ghost use Rattle.ladr_reader.specs.Nesting.{nesting, most_open};
ghost use Rattle.ladr_reader.specs.Reads.{Item};
ghost use Rattle.ladr_reader.specs.Table.{table_of};
ghost use Rattle.ladr_reader.specs.declared.place.Spot.TheVariants.{AtOperand};

use crate::capped::{Build, Capped};
use crate::fault::TermFault;
use crate::nesting::Parentheses;
use crate::place::{Reading, Spot};
use crate::recognizing::{is_marked, recognize};
use crate::stack::Stack;
use crate::step::step_marked;
use fol_core::Raw;
use ladr_lex::{MOST_LEVELS, Ops, Token};
use std::alloc::Global;

/// The term that the tokens are, which are one item with its full stop, or all that is left of a text.
///
/// The tokens are read once, from left to right; where so much waits that the item can only be nested too deep they are gone
/// over again, without names and trees.
pub fn read_term(alloc: Global, ops: &Ops, tokens: &[Token]) -> Result<Raw, TermFault>
    ensures read { IfOk result (λ raw. Item (table_of ops.now) (lexemes_of tokens.now)
        (raw_of raw)) }
    ensures shallow { IfOk result (λ raw. nesting (lexemes_of tokens.now) (raw_of raw)
        ≤ MOST_LEVELS) }
    ensures fault { IfErr result (IsTermFault (table_of ops.now) (lexemes_of tokens.now)) }
{
    let build = Build {
        alloc,
        most: MOST_LEVELS,
    };
    let mut reading = Reading::new(build);
    let most_open = read_disjuncts(build, ops, tokens, &[], false, &mut reading)?;
    let tree = reading.term.take_whole(build)?;
    shallow(tree, most_open)
}

/// The term that the tokens are, unless it has more levels than this; parentheses don't count.
pub fn read_tree(alloc: Global, ops: &Ops, tokens: &[Token], most: u16) -> Result<Raw, TermFault>
    ensures read { IfOk result (λ raw. Item (table_of ops.now) (lexemes_of tokens.now)
        (raw_of raw)) }
    ensures shallow { IfOk result (λ raw. depth (raw_of raw) ≤ most) }
    ensures fault { IfErr result
        (IsFaultWhere (λ t. most < depth t) (table_of ops.now) (lexemes_of tokens.now)) }
{
    read_marked(alloc, ops, tokens, &[], most)
}

/// The same, where some tokens are names whatever operators or words they are: marks tell of each token whether it is one, and
/// those behind the last mark are none.
pub fn read_marked(
    alloc: Global,
    ops: &Ops,
    tokens: &[Token],
    names: &[bool],
    most: u16,
) -> Result<Raw, TermFault>
    ensures read { IfOk result (λ raw. Item (table_of ops.now)
        (marked names.now (lexemes_of tokens.now)) (raw_of raw)) }
    ensures shallow { IfOk result (λ raw. depth (raw_of raw) ≤ most) }
    ensures fault { IfErr result
        (IsFaultWhere (λ t. most < depth t) (table_of ops.now)
        (marked names.now (lexemes_of tokens.now))) }
{
    let build = Build { alloc, most };
    let mut reading = Reading::new(build);
    let _open = read_disjuncts(build, ops, tokens, names, false, &mut reading)?;
    let tree = reading.term.take_whole(build)?;
    match tree.into_tree() {
        Some(raw) => Ok(raw),
        None => Err(TermFault::Deep),
    }
}

/// The disjuncts of the term that the tokens are, between the `|` of its right spine, unless one of them has more levels than
/// this; there may be many more of them than that.
pub fn read_literals(
    alloc: Global,
    ops: &Ops,
    tokens: &[Token],
    most: u16,
) -> Result<Vec<Raw>, TermFault>
    ensures read { IfOk result (λ literals. (t : RawTree)
        × Item (table_of ops.now) (lexemes_of tokens.now) t
        × (raw_list literals.items ≡ disjuncts t)) }
    ensures shallow { IfOk result (λ literals. all_within most (raw_list literals.items) ≡ true) }
    ensures fault { IfErr result
        (IsFaultWhere (λ t. all_within most (disjuncts t) ≡ false) (table_of ops.now)
        (lexemes_of tokens.now)) }
{
    let build = Build { alloc, most };
    let mut reading = Reading::new(build);
    let _open = read_disjuncts(build, ops, tokens, &[], true, &mut reading)?;
    let Reading { term, .. } = reading;
    match term.into_literals()? {
        Some(literals) => Ok(literals),
        None => Err(TermFault::Deep),
    }
}

// Reads the term that the tokens are, by its disjuncts, and answers how many parentheses are open at once. Where `literals`
// says so, just the disjuncts are to have few levels. The term is left where it was built, since it takes time to move it.
fn read_disjuncts(
    build: Build,
    ops: &Ops,
    tokens: &[Token],
    names: &[bool],
    literals: bool,
    reading: &mut Reading,
) -> Result<usize, TermFault>
    requires { reading.old.spot ≡ AtOperand }
    ensures read { IfOk result (λ most_open. IsTermRead build.most (table_of ops.now)
        (marked names.now (lexemes_of tokens.now)) reading.new.term most_open) }
    ensures fault { IfErr result (IsFaultWhere (IsTooDeep literals build.most) (table_of ops.now)
        (marked names.now (lexemes_of tokens.now))) }
{
    let found = read_shallow(build, ops, tokens, names, literals, reading)?;
    match found {
        Some(most_open) => Ok(most_open),
        None => {
            *reading = Reading::new(build);
            recognize(build.alloc, ops, tokens, names)?;
            Err(TermFault::Deep)
        }
    }
}

// The same, but nothing as soon as so much waits that an item can only be too deep: what waits is freed then, and what was built is
// left to be freed.
#[inline(always)]
fn read_shallow(
    build: Build,
    ops: &Ops,
    tokens: &[Token],
    names: &[bool],
    literals: bool,
    reading: &mut Reading,
) -> Result<Option<usize>, TermFault>
    requires { reading.old.spot ≡ AtOperand }
    ensures read { IfOk result (λ read. MatchOption read
        ((t : RawTree) → Item (table_of ops.now) (marked names.now (lexemes_of tokens.now)) t
        → IsTooDeep literals build.most t)
        (λ most_open. IsTermRead build.most (table_of ops.now) (marked names.now (lexemes_of tokens.now))
        reading.new.term most_open)) }
    ensures fault { IfErr result (IsFaultWhere (λ _. ⊥) (table_of ops.now)
        (marked names.now (lexemes_of tokens.now))) }
{
    ops.rows_are_lawful();
    let mut stack = Stack::new(build.alloc);
    let mut parentheses = Parentheses::new();
    for (i, token) in tokens.iter().enumerate() {
        if stack.is_deeper_than(build.most, literals) {
            return Ok(None);
        }
        parentheses.note(token);
        let is_name = is_marked(names, i);
        let goes = step_marked(build, ops, &mut stack, reading, token, is_name)?;
        if !goes {
            return Err(TermFault::Bad(i));
        }
    }
    let Spot::AtStop(_) = reading.spot else {
        return Err(TermFault::Bad(tokens.len()));
    };
    Ok(Some(parentheses.most()))
}

// The tree, unless the item is nested too deep.
fn shallow(term: Capped, most_open: usize) -> Result<Raw, TermFault>
    ensures ok { (t : RawTree) → term ≡ unless_too_deep MOST_LEVELS t →
        IfOk result (λ raw. (raw_of raw ≡ t) × (max (depth t) most_open ≤ MOST_LEVELS)) }
    ensures err { (t : RawTree) → term ≡ unless_too_deep MOST_LEVELS t →
        IfErr result (λ fault. (fault ≡ TermFault.Deep) × (MOST_LEVELS < max (depth t) most_open)) }
{
    match term.into_tree() {
        Some(raw) if most_open <= usize::from(MOST_LEVELS) => Ok(raw),
        _ => Err(TermFault::Deep),
    }
}
