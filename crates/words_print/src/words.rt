// The text of a line's words.
ghost use Rattle.std.specs.Prelude.{◌≡◌, ◌++◌, ◌∷◌, [], OnOk, codes, false, map};
ghost use Rattle.derivation.specs.View.{later_of};
ghost use Rattle.ladr_lex.specs.Lexeme.{symbol, ordinary, comma};
ghost use Rattle.derivation.specs.Later.{unit_deleted};
ghost use Rattle.proof_words.specs.Written.{by_factor, by_para, by_xx_res, written_first, written_of};
ghost use Rattle.words_print.specs.WordTokens.{literal_name, number_token, literal_token, in_parens, further_numbers, further_satellites, subterm_tokens, first_tokens, is_rewriting, later_tokens, between_words, behind_words, further_tokens, joint_text, words_text};

use derivation::{First, Just, Later, Paramodulation, Satellite};
use ladr_output::decimal;
use std::alloc::AllocError;

/// Adds the words of a line.
pub fn add_words(out: &mut Vec<u8>, just: &Just) -> Result<(), AllocError>
    ensures { OnOk result (out.new.items ≡ out.old.items ++ words_text (written_of just.now)) }
{
    out.extend_from_slice(b"[")?;
    first_word(out, &just.first)?;
    further(out, &just.steps)?;
    Ok(())
}

// Adds the first word.
fn first_word(out: &mut Vec<u8>, first: &First) -> Result<(), AllocError>
    ensures { OnOk result (out.new.items
        ≡ out.old.items ++ joint_text (first_tokens (written_first first.now))) }
{
    match first {
        First::Assumption => out.extend_from_slice(b"assumption"),
        First::Goal => out.extend_from_slice(b"goal"),
        First::Clausify(n) => number_word(out, b"clausify", *n),
        First::Deny(n) => number_word(out, b"deny", *n),
        First::Copy(n) => number_word(out, b"copy", *n),
        First::BackRewrite(n) => number_word(out, b"back_rewrite", *n),
        First::BackUnitDel(n) => number_word(out, b"back_unit_del", *n),
        First::Resolve(n, satellite) => clash(out, b"resolve", *n, &[*satellite]),
        First::Hyper(n, satellites) => clash(out, b"hyper", *n, satellites),
        First::Ur(n, satellites) => clash(out, b"ur", *n, satellites),
        First::Factor(n, a, b) => factor(out, *n, *a, *b),
        First::Para(step) => para(out, step),
        First::XxRes(n, a) => xx_res(out, *n, *a),
        First::Instantiate(n, _) => number_word(out, b"instantiate", *n),
    }
}

// Adds the words behind the first one, and `].`
fn further(out: &mut Vec<u8>, steps: &[Later]) -> Result<(), AllocError>
    ensures { OnOk result (out.new.items
        ≡ out.old.items ++ joint_text (further_tokens false (map later_of steps.now))) }
{
    let mut inside = false;
    for step in steps {
        further_word(out, inside, step)?;
        inside = is_rewriting(step);
    }
    behind_words(out, inside)
}

// Adds a word behind the first, with what stands before it.
fn further_word(out: &mut Vec<u8>, inside: bool, step: &Later) -> Result<(), AllocError>
    ensures { OnOk result (out.new.items ≡ out.old.items
        ++ joint_text (between_words inside (is_rewriting (later_of step.now))
        ++ later_tokens (later_of step.now))) }
{
    between_words(out, inside, is_rewriting(step))?;
    later_word(out, step)?;
    Ok(())
}

fn is_rewriting(step: &Later) -> bool
    ensures { result ≡ is_rewriting (later_of step.now) }
{
    matches!(step, Later::Rewrite(_))
}

fn between_words(out: &mut Vec<u8>, inside: bool, next: bool) -> Result<(), AllocError>
    ensures { OnOk result (out.new.items
        ≡ out.old.items ++ joint_text (between_words inside next)) }
{
    match (inside, next) {
        (false, true) => out.extend_from_slice(b",rewrite(["),
        (true, false) => out.extend_from_slice(b"]),"),
        _ => out.extend_from_slice(b","),
    }
}

fn behind_words(out: &mut Vec<u8>, inside: bool) -> Result<(), AllocError>
    ensures { OnOk result (out.new.items ≡ out.old.items ++ joint_text (behind_words inside)) }
{
    if inside {
        out.extend_from_slice(b"])].")
    } else {
        out.extend_from_slice(b"].")
    }
}

// Adds a word behind the first; of a rewriting its entry.
fn later_word(out: &mut Vec<u8>, step: &Later) -> Result<(), AllocError>
    ensures { OnOk result (out.new.items
        ≡ out.old.items ++ joint_text (later_tokens (later_of step.now))) }
{
    match step {
        Later::Rewrite(step) => subterm(out, step.rule, step.literal, &step.path),
        Later::Flip(a) => place_word(out, b"flip", *a),
        Later::Merge(a) => place_word(out, b"merge", *a),
        Later::Xx(a) => place_word(out, b"xx", *a),
        Later::UnitDel(a, n) => unit_del(out, *a, *n),
    }
}

// Adds the name of the literal at a place: `a` to `z`, then `aa`, `ab`, ..
fn literal_name(out: &mut Vec<u8>, place: u64) -> Result<(), AllocError>
    ensures { OnOk result (out.new.items ≡ out.old.items ++ literal_name place) }
{
    if place >= 26 {
        literal_name(out, place / 26 - 1)?;
        out.push(b'a' + (place % 26) as u8)?;
        return Ok(());
    }
    out.push(b'a' + place as u8)?;
    Ok(())
}

// Adds `name(n)`.
fn number_word(out: &mut Vec<u8>, name: &[u8], n: u64) -> Result<(), AllocError>
    ensures { OnOk result (out.new.items ≡ out.old.items
        ++ joint_text (symbol ordinary name.now ∷ in_parens (number_token n ∷ []))) }
{
    out.extend_from_slice(name)?;
    out.extend_from_slice(b"(")?;
    decimal(out, n)?;
    out.extend_from_slice(b")")
}

// Adds `name(a)`.
fn place_word(out: &mut Vec<u8>, name: &[u8], a: u64) -> Result<(), AllocError>
    ensures { OnOk result (out.new.items ≡ out.old.items
        ++ joint_text (symbol ordinary name.now ∷ in_parens (literal_token a ∷ []))) }
{
    out.extend_from_slice(name)?;
    out.extend_from_slice(b"(")?;
    literal_name(out, a)?;
    out.extend_from_slice(b")")
}

// Adds `name(n,a1,m1,b1,..)`.
fn clash(out: &mut Vec<u8>, name: &[u8], n: u64, satellites: &[Satellite]) -> Result<(), AllocError>
    ensures { OnOk result (out.new.items ≡ out.old.items
        ++ joint_text (symbol ordinary name.now
        ∷ in_parens (number_token n ∷ further_satellites satellites.now))) }
{
    out.extend_from_slice(name)?;
    out.extend_from_slice(b"(")?;
    decimal(out, n)?;
    further_satellites(out, satellites)?;
    out.extend_from_slice(b")")?;
    Ok(())
}

// Adds `factor(n,a,b)`.
fn factor(out: &mut Vec<u8>, n: u64, a: u64, b: u64) -> Result<(), AllocError>
    ensures { OnOk result (out.new.items
        ≡ out.old.items ++ joint_text (first_tokens (by_factor n a b))) }
{
    out.extend_from_slice(b"factor(")?;
    decimal(out, n)?;
    out.extend_from_slice(b",")?;
    literal_name(out, a)?;
    out.extend_from_slice(b",")?;
    literal_name(out, b)?;
    out.extend_from_slice(b")")
}

// Adds `xx_res(n,a)`.
fn xx_res(out: &mut Vec<u8>, n: u64, a: u64) -> Result<(), AllocError>
    ensures { OnOk result (out.new.items
        ≡ out.old.items ++ joint_text (first_tokens (by_xx_res n a))) }
{
    out.extend_from_slice(b"xx_res(")?;
    decimal(out, n)?;
    out.extend_from_slice(b",")?;
    literal_name(out, a)?;
    out.extend_from_slice(b")")
}

// Adds `unit_del(a,n)`.
fn unit_del(out: &mut Vec<u8>, a: u64, n: u64) -> Result<(), AllocError>
    ensures { OnOk result (out.new.items
        ≡ out.old.items ++ joint_text (later_tokens (unit_deleted a n))) }
{
    out.extend_from_slice(b"unit_del(")?;
    literal_name(out, a)?;
    out.extend_from_slice(b",")?;
    decimal(out, n)?;
    out.extend_from_slice(b")")
}

// Adds `para(n(a,s),m(b,path))`.
fn para(out: &mut Vec<u8>, step: &Paramodulation) -> Result<(), AllocError>
    ensures { OnOk result (out.new.items ≡ out.old.items
        ++ joint_text (first_tokens (by_para step.now.from step.now.equation step.now.side
        step.now.into step.now.literal step.now.path.items))) }
{
    out.extend_from_slice(b"para(")?;
    equation_side(out, step.from, step.equation, step.side)?;
    out.extend_from_slice(b",")?;
    subterm(out, step.into, step.literal, &step.path)?;
    out.extend_from_slice(b")")?;
    Ok(())
}

// Adds `n(a,s)`.
fn equation_side(out: &mut Vec<u8>, n: u64, a: u64, side: u64) -> Result<(), AllocError>
    ensures { OnOk result (out.new.items ≡ out.old.items ++ joint_text (number_token n
        ∷ in_parens (literal_token a ∷ comma ∷ number_token side ∷ []))) }
{
    decimal(out, n)?;
    out.extend_from_slice(b"(")?;
    literal_name(out, a)?;
    out.extend_from_slice(b",")?;
    decimal(out, side)?;
    out.extend_from_slice(b")")
}

// Adds `n(a,path)`.
fn subterm(out: &mut Vec<u8>, n: u64, a: u64, path: &[u64]) -> Result<(), AllocError>
    ensures { OnOk result (out.new.items
        ≡ out.old.items ++ joint_text (subterm_tokens n a path.now)) }
{
    decimal(out, n)?;
    out.extend_from_slice(b"(")?;
    literal_name(out, a)?;
    further_numbers(out, path)?;
    out.extend_from_slice(b")")?;
    Ok(())
}

// Adds `,n` for each number.
fn further_numbers(out: &mut Vec<u8>, numbers: &[u64]) -> Result<(), AllocError>
    ensures { OnOk result (out.new.items
        ≡ out.old.items ++ joint_text (further_numbers numbers.now)) }
{
    for n in numbers {
        out.extend_from_slice(b",")?;
        decimal(out, *n)?;
    }
    Ok(())
}

// Adds `,a,m,b`.
fn further_satellite(out: &mut Vec<u8>, satellite: Satellite) -> Result<(), AllocError>
    ensures { OnOk result (out.new.items
        ≡ out.old.items ++ joint_text (further_satellites (satellite ∷ []))) }
{
    out.extend_from_slice(b",")?;
    literal_name(out, satellite.place)?;
    out.extend_from_slice(b",")?;
    decimal(out, satellite.clause)?;
    out.extend_from_slice(b",")?;
    literal_name(out, satellite.literal)
}

// The same for each satellite.
fn further_satellites(out: &mut Vec<u8>, satellites: &[Satellite]) -> Result<(), AllocError>
    ensures { OnOk result (out.new.items
        ≡ out.old.items ++ joint_text (further_satellites satellites.now)) }
{
    for satellite in satellites {
        further_satellite(out, *satellite)?;
    }
    Ok(())
}
