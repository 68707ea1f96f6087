// The text of a term as read.
ghost use Rattle.std.specs.Prelude.{◌≡◌, [], ◌∷◌, ◌++◌, ℕ, List, false, true, Some, IfOk, OnOk};
ghost use Rattle.fol_core.specs.RawTree.{raws_of};
ghost use Rattle.fol_core.specs.RawView.{raw_of, raw_list};
ghost use Rattle.ladr_lex.specs.Operators.{operator_of, is_prefix};
ghost use Rattle.ladr_print.specs.Precedences.{is_infix, arity, precedence};
ghost use Rattle.ladr_print.specs.RawText.{word, wrapped, left_argument, right_argument, further, application_text, with_one, with_two, arranged, text_of, printed, printed_all};
ghost use Rattle.ladr_print.specs.FormulaText.{two};
ghost use Rattle.ladr_print.specs.ReadsAs.{ReadsAs};
ghost use Rattle.ladr_print.specs.Spacing.{kept_apart};
ghost use Rattle.ladr_reader.specs.Table.{table_of};

use crate::precedences::{arity, fits_body, fits_left, fits_right, is_infix, operator_of};
use crate::spacing::add_beside;
use fol_core::{Quantifier, Raw};
use ladr_lex::{Operator, Ops};
use std::alloc::{AllocError, Global};

/// The text of a term as read, with the operators of a table. It reads back as the same term where any text reads as it.
pub fn raw_text(alloc: Global, ops: &Ops, raw: &Raw) -> Result<Vec<u8>, AllocError>
    ensures text { IfOk result (λ text. text.items ≡ text_of (table_of ops.now) (raw_of raw.now)) }
    ensures back { IfOk result (λ text. (other : List ℕ) (p : ℕ)
        → ReadsAs (table_of ops.now) other (raw_of raw.now) p →
        ReadsAs (table_of ops.now) text.items (raw_of raw.now)
        (precedence (table_of ops.now) (raw_of raw.now))) }
{
    ops.rows_are_lawful();
    let mut out = Vec::new(alloc);
    write(alloc, ops, raw, &mut out)?;
    Ok(out)
}

/// Adds the text of a term.
#[cycle(text)]
pub fn write(alloc: Global, ops: &Ops, raw: &Raw, out: &mut Vec<u8>) -> Result<(), AllocError>
    ensures { OnOk result (out.new.items ≡ out.old.items
        ++ text_of (table_of ops.now) (raw_of raw.now)) }
{
    match raw {
        Raw::App(name, args) => {
            let operator = operator_of(ops, name.bytes());
            arranged(alloc, ops, operator, name.bytes(), args.as_slice(), out)
        }
        Raw::Quant(quantifier, name, body) => {
            out.extend_from_slice(word(*quantifier))?;
            out.push(b' ')?;
            out.extend_from_slice(name.bytes())?;
            out.push(b' ')?;
            argument(alloc, ops, fits_body(ops, &body.raw), &body.raw, out)
        }
    }
}

fn word(quantifier: Quantifier) -> &'static [u8]
    ensures { result.now ≡ word quantifier }
{
    match quantifier {
        Quantifier::All => b"all",
        Quantifier::Exists => b"exists",
    }
}

/// Adds the text of an argument or a body, in parentheses unless it fits without.
#[cycle(text)]
pub fn argument(
    alloc: Global,
    ops: &Ops,
    fits: bool,
    raw: &Raw,
    out: &mut Vec<u8>,
) -> Result<(), AllocError>
    ensures { OnOk result (out.new.items ≡ out.old.items
        ++ wrapped fits (text_of (table_of ops.now) (raw_of raw.now))) }
{
    if fits {
        return write(alloc, ops, raw, out);
    }
    out.push(b'(')?;
    write(alloc, ops, raw, out)?;
    out.push(b')')?;
    Ok(())
}

// Adds the text of a name, which is this operator if it is one, with its arguments.
#[cycle(text)]
#[tactic(auto, using(crate::proofs::Arguments::one_is, crate::proofs::Arguments::two_are, crate::proofs::Arguments::no_operands, crate::proofs::Ends::nodes_item))]
fn arranged(
    alloc: Global,
    ops: &Ops,
    operator: Option<Operator>,
    name: &[u8],
    args: &[Raw],
    out: &mut Vec<u8>,
) -> Result<(), AllocError>
    ensures { OnOk result (out.new.items ≡ out.old.items
        ++ arranged operator name.now
        (printed_all (table_of ops.now) (raws_of (raw_list args.now)))) }
{
    let Some(operator) = operator else {
        return application(alloc, ops, name, args, out);
    };
    if args.len() != arity(operator.kind) {
        return application(alloc, ops, name, args, out);
    }
    if is_infix(operator.kind) {
        binary(alloc, ops, operator, name, &args[0], &args[1], out)
    } else {
        unary(alloc, ops, operator, name, &args[0], out)
    }
}

// Adds the text of an operator before or behind its argument.
#[cycle(text)]
fn unary(
    alloc: Global,
    ops: &Ops,
    operator: Operator,
    name: &[u8],
    raw: &Raw,
    out: &mut Vec<u8>,
) -> Result<(), AllocError>
    requires { is_infix operator.kind ≡ false }
    ensures { OnOk result (out.new.items ≡ out.old.items
        ++ with_one operator name.now (printed (table_of ops.now) (raw_of raw.now))) }
{
    let mut text = Vec::new(alloc);
    if operator.kind.is_prefix() {
        argument(alloc, ops, fits_right(ops, operator, raw), raw, &mut text)?;
        add_beside(out, name, &text)
    } else {
        argument(alloc, ops, fits_left(ops, operator, raw), raw, &mut text)?;
        add_beside(out, &text, name)
    }
}

// Adds the text of an operator between its arguments.
#[cycle(text)]
fn binary(
    alloc: Global,
    ops: &Ops,
    operator: Operator,
    name: &[u8],
    left: &Raw,
    right: &Raw,
    out: &mut Vec<u8>,
) -> Result<(), AllocError>
    requires { is_infix operator.kind ≡ true }
    ensures { OnOk result (out.new.items ≡ out.old.items
        ++ with_two operator name.now (printed (table_of ops.now) (raw_of left.now))
        (printed (table_of ops.now) (raw_of right.now))) }
{
    argument(alloc, ops, fits_left(ops, operator, left), left, out)?;
    out.push(b' ')?;
    out.extend_from_slice(name)?;
    out.push(b' ')?;
    argument(alloc, ops, fits_right(ops, operator, right), right, out)
}

// Adds the text of a name in front of its arguments.
#[cycle(text)]
fn application(
    alloc: Global,
    ops: &Ops,
    name: &[u8],
    args: &[Raw],
    out: &mut Vec<u8>,
) -> Result<(), AllocError>
    ensures { OnOk result (out.new.items ≡ out.old.items
        ++ application_text name.now
        (printed_all (table_of ops.now) (raws_of (raw_list args.now)))) }
{
    out.extend_from_slice(name)?;
    let [first, rest @ ..] = args else {
        return Ok(());
    };
    out.push(b'(')?;
    write(alloc, ops, first, out)?;
    further(alloc, ops, rest, out)?;
    out.push(b')')?;
    Ok(())
}

// Adds the texts of arguments, each behind a comma.
#[cycle(text)]
#[tactic(auto, using(crate::proofs::Ends::nodes_item))]
fn further(alloc: Global, ops: &Ops, raws: &[Raw], out: &mut Vec<u8>) -> Result<(), AllocError>
    ensures { OnOk result (out.new.items ≡ out.old.items
        ++ further (printed_all (table_of ops.now) (raws_of (raw_list raws.now)))) }
{
    for raw in raws {
        out.push(b',')?;
        write(alloc, ops, raw, out)?;
    }
    Ok(())
}

/// Adds the text of a name with two arguments.
pub fn write_two(
    alloc: Global,
    ops: &Ops,
    name: &[u8],
    left: &Raw,
    right: &Raw,
    out: &mut Vec<u8>,
) -> Result<(), AllocError>
    ensures { OnOk result (out.new.items ≡ out.old.items
        ++ text_of (table_of ops.now) (two name.now (raw_of left.now) (raw_of right.now))) }
{
    let Some(operator) = operator_of(ops, name) else {
        return pair(alloc, ops, name, left, right, out);
    };
    if is_infix(operator.kind) {
        binary(alloc, ops, operator, name, left, right, out)
    } else {
        pair(alloc, ops, name, left, right, out)
    }
}

// Adds the text of a name in front of two arguments.
fn pair(
    alloc: Global,
    ops: &Ops,
    name: &[u8],
    left: &Raw,
    right: &Raw,
    out: &mut Vec<u8>,
) -> Result<(), AllocError>
    ensures { OnOk result (out.new.items ≡ out.old.items
        ++ application_text name.now
        (printed (table_of ops.now) (raw_of left.now) ∷ printed (table_of ops.now)
        (raw_of right.now) ∷ [])) }
{
    out.extend_from_slice(name)?;
    out.push(b'(')?;
    write(alloc, ops, left, out)?;
    out.push(b',')?;
    write(alloc, ops, right, out)?;
    out.push(b')')?;
    Ok(())
}
