// What a partial table tells of terms and literals.
ghost use Rattle.std.specs.Prelude.{◌≡◌, ◌+◌, ◌*◌, ◌^◌, ◌≤◌, ◌<◌, ◌==◌, ◌&&◌, nat_lt, if◌then◌else◌, Some, None, IfSome};
ghost use Rattle.fol_core.specs.Tree.{trees_of};
ghost use Rattle.fol_core.specs.TermView.{tree_of};
ghost use Rattle.cell_search.specs.Known.{seen, cell_seen};
ghost use Rattle.mace_cells.specs.World.{many_cells};
ghost use Rattle.fol_core.specs.SymbolTable.{is_same_kind};
ghost use Rattle.mace_ground.specs.Instances.{assigned_by};
ghost use Rattle.mace_ground.specs.Spans.{span_of};

use crate::setup::Setup;
use fol_core::{Kind, Sym, Term, Terms};
use mace_cells::Trail;
use mace_ground::Span;

// The element of a variable.
fn element(env: &[u32], variable: u64) -> u32
    ensures { result ≡ assigned_by env.now variable }
{
    env.get(variable as usize).copied().unwrap_or(0)
}

// The place of the arguments passed so far and x behind them, where x is an element.
fn onward(place: u32, size: u32, x: u32) -> Option<u32>
    requires { (place + 1) * size ≤ 2 ^ 32 }
    ensures { result ≡ (if nat_lt x size then Some (place * size + x) else None) }
{
    if x < size {
        Some(place * size + x)
    } else {
        None
    }
}

// Whether the cells of a span are those of a symbol of this kind with so many arguments.
fn fits(span: Span, kind: Kind, arity: usize) -> bool
    ensures { result ≡ (is_same_kind (span_of span).1.kind kind
        && arity == (span_of span).1.arity) }
{
    span.block.kind == kind && arity as u64 == span.block.arity
}

/// The value of a term, where it is known.
#[cycle(seen)]
pub fn seen(setup: &Setup, trail: &Trail, term: &Term, env: &[u32]) -> Option<u32>
    requires { trail.now.many ≡ many_cells setup.now }
    ensures { result ≡ seen setup.now trail.now.entries (assigned_by env.now) (tree_of term.now) }
{
    match term {
        Term::Var(variable) => Some(element(env, *variable)),
        Term::Elem(element) => Some(*element),
        Term::App(symbol, terms) => {
            let cell = number(setup, trail, Kind::Function, *symbol, terms, env)?;
            trail.value(cell).map(u32::from)
        }
    }
}

/// The number of the cell that a symbol has for the values of terms, where they are known.
#[cycle(seen)]
pub fn number(
    setup: &Setup,
    trail: &Trail,
    kind: Kind,
    symbol: Sym,
    terms: &Terms,
    env: &[u32],
) -> Option<u32>
    requires { trail.now.many ≡ many_cells setup.now }
    ensures number { result ≡ cell_seen setup.now trail.now.entries (assigned_by env.now) kind
        symbol.0 (trees_of terms.now) }
    ensures within { IfSome result (λ k. k < many_cells setup.now) }
{
    let span = setup.find(symbol)?;
    if !fits(span, kind, terms.len()) {
        return None;
    }
    let size = setup.size();
    let cells = setup.cells();
    let mut place = 0;
    for term in terms.as_slice() {
        let x = seen(setup, trail, term, env)?;
        place = onward(place, size, x)?;
    }
    at_place(span, place, cells)
}

// The number of a cell of a span.
fn at_place(span: Span, place: u32, cells: u32) -> Option<u32>
    requires { span.first + place < cells }
    ensures { result ≡ Some (span.first + place) }
{
    let _end = cells;
    Some(span.first + place)
}
