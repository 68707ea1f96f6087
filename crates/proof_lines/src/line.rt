// The line that tokens begin with.
ghost use Rattle.std.specs.Prelude.{◌≡◌, IfOk, IfErr};
ghost use Rattle.fol_core.specs.SymbolTable.{KeepsNumbers};
ghost use Rattle.ladr_formulas.specs.Formulas.{style_of};
ghost use Rattle.ladr_formulas.specs.declared.styles.Mode.TheVariants.{Prover};
ghost use Rattle.ladr_lex.specs.Lexeme.{lexemes_of};
ghost use Rattle.proof_lines.specs.ContentTokens.{tables_of};
ghost use Rattle.proof_lines.specs.Faults.{IsLineFault, IsLineRead};
ghost use Rattle.proof_lines.specs.Noted.{is_goal_word};
ghost use Rattle.proof_lines.specs.Strays.{AreNamesOf};
ghost use Rattle.proof_words.specs.Written.{written_first};

use crate::fault::LineFault;
use crate::operators::LineOperators;
use crate::parts::{Behind, Parts, read_parts};
use crate::stating::{Stated, state};
use crate::strays::ProblemNames;
use derivation::{First, Line};
use fol_core::Symbols;
use fol_problem::Problem;
use ladr_lex::Token;
use std::alloc::Global;

/// A line, and how many tokens it is.
#[derive(Drop)]
pub struct LineRead {
    pub line: Line,
    pub len: usize,
}

// Whether a first word stands behind a goal.
fn is_goal(first: &First) -> bool
    ensures { result ≡ is_goal_word (written_first first.now) }
{
    matches!(first, First::Goal)
}

/// The line of a proof of this problem, with the names of its symbols, that tokens begin with, read behind lines with these
/// symbols; its symbols are entered.
pub fn read_line(
    alloc: Global,
    operators: &LineOperators,
    problem: &Problem,
    names: &ProblemNames,
    symbols: &mut Symbols,
    tokens: &[Token],
) -> Result<LineRead, LineFault>
    requires { AreNamesOf problem.now.symbols names.now }
    ensures read { IfOk result (λ r. IsLineRead (tables_of operators.now) (style_of Prover
        problem.now.options.prolog_style_variables) problem.now.symbols symbols.old
        (lexemes_of tokens.now) r symbols.new) }
    ensures fault { IfErr result (IsLineFault (tables_of operators.now) (style_of Prover
        problem.now.options.prolog_style_variables) problem.now.symbols symbols.old
        (lexemes_of tokens.now)) }
    // Whatever the answer, the old symbols keep their numbers.
    ensures kept { KeepsNumbers symbols.old symbols.new }
{
    let parts = read_parts(alloc, operators, tokens)?;
    let Parts { number, behind } = parts;
    let Behind { terms, just, len } = behind;
    let is_goal = is_goal(&just.first);
    let stated = state(alloc, terms, is_goal, problem, names, symbols)?;
    let Stated { content, notes } = stated;
    Ok(LineRead {
        line: Line {
            number,
            content,
            just,
            notes,
        },
        len: len + 1,
    })
}
