// Which terms as they are read are literals of a clause, and how deep they are.
ghost use Rattle.std.specs.Prelude.{◌≡◌, nat_le};
ghost use Rattle.std.specs.List.{list_all};
ghost use Rattle.fol_core.specs.RawTree.{depth};
ghost use Rattle.fol_core.specs.RawView.{raw_of, raw_list};
ghost use Rattle.proof_lines.specs.Literals.{names_atom, reads_as_atom, is_inequation, reads_as_literal, undenied, is_false, read_as_clause, are_shallow, joins_formulas};

use fol_core::Raw;

/// The most levels of an atom of a clause.
pub const MOST_ATOM_LEVELS: u16 = 1000;

/// The most levels of a literal of a clause: its denial counts.
pub const MOST_LITERAL_LEVELS: u16 = 1001;

// Whether a name with two arguments joins formulas, or a formula and its attributes, or denies an equation.
fn joins(name: &[u8]) -> bool
    ensures { result ≡ joins_formulas name.now }
{
    name == b"&".as_slice()
        || name == b"|".as_slice()
        || name == b"->".as_slice()
        || name == b"<-".as_slice()
        || name == b"<->".as_slice()
        || name == b"!=".as_slice()
        || name == b"#".as_slice()
}

// Whether a name with so many arguments is that of an atom.
fn names_atom(name: &[u8], arity: usize) -> bool
    ensures { result ≡ names_atom name.now arity }
{
    if arity == 0 {
        return !(name == b"$T".as_slice() || name == b"$F".as_slice());
    }
    if arity == 1 {
        return name != b"-".as_slice();
    }
    !(arity == 2 && joins(name))
}

// Whether a term is read as an atom.
#[tactic(auto, using(crate::proofs::Levels::arity_is))]
fn reads_as_atom(raw: &Raw) -> bool
    ensures { result ≡ reads_as_atom (raw_of raw.now) }
{
    match raw {
        Raw::App(name, args) => names_atom(name.bytes(), args.len()),
        Raw::Quant(_, _, _) => false,
    }
}

// A term without the `-` in front of it.
#[tactic(auto, using(crate::proofs::Levels::undenied_long))]
fn undenied(raw: &Raw) -> &Raw
    ensures { raw_of result.now ≡ undenied (raw_of raw.now) }
{
    match raw {
        Raw::App(name, args) if name.bytes() == b"-".as_slice() => match args.as_slice() {
            [only] => only,
            _ => raw,
        },
        _ => raw,
    }
}

// Whether a term is `s != t`.
#[tactic(auto, using(crate::proofs::Levels::arity_is))]
fn is_inequation(raw: &Raw) -> bool
    ensures { result ≡ is_inequation (raw_of raw.now) }
{
    match raw {
        Raw::App(name, args) => args.len() == 2 && name.bytes() == b"!=".as_slice(),
        Raw::Quant(_, _, _) => false,
    }
}

fn reads_as_literal(raw: &Raw) -> bool
    ensures { result ≡ reads_as_literal (raw_of raw.now) }
{
    is_inequation(raw) || reads_as_atom(undenied(raw))
}

// Whether a term is `$F`.
#[tactic(auto, using(crate::proofs::Levels::arity_is))]
fn is_false(raw: &Raw) -> bool
    ensures { result ≡ is_false (raw_of raw.now) }
{
    match raw {
        Raw::App(name, args) => args.len() == 0 && name.bytes() == b"$F".as_slice(),
        Raw::Quant(_, _, _) => false,
    }
}

/// Whether disjuncts are literals, or `$F` alone.
pub fn read_as_clause(literals: &[Raw]) -> bool
    ensures { result ≡ read_as_clause (raw_list literals.now) }
{
    match literals {
        [only] => is_false(only) || reads_as_literal(only),
        _ => are_literals(literals),
    }
}

#[tactic(auto, using(crate::proofs::Levels::literal_step))]
fn are_literals(literals: &[Raw]) -> bool
    ensures { result ≡ list_all reads_as_literal (raw_list literals.now) }
{
    for literal in literals {
        if !reads_as_literal(literal) {
            return false;
        }
    }
    true
}

/// Whether no atom of these literals has more than 1,000 levels.
#[tactic(auto, using(crate::proofs::Levels::shallow_step))]
pub fn are_shallow(literals: &[Raw]) -> bool
    ensures { result ≡ are_shallow (raw_list literals.now) }
{
    for literal in literals {
        if !is_within(undenied(literal), MOST_ATOM_LEVELS) {
            return false;
        }
    }
    true
}

/// Whether a term has at most so many levels.
#[tactic(auto, using(crate::proofs::Levels::within_step, crate::proofs::Levels::named_within))]
pub fn is_within(raw: &Raw, most: u16) -> bool
    ensures { result ≡ nat_le (depth (raw_of raw.now)) most }
{
    if most == 0 {
        return false;
    }
    match raw {
        Raw::App(_, args) => {
            for argument in &args.items {
                if !is_within(argument, most - 1) {
                    return false;
                }
            }
            true
        }
        Raw::Quant(_, _, body) => is_within(&body.raw, most - 1),
    }
}
