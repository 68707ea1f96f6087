// What the content of a line states.
ghost use Rattle.std.specs.Prelude.{◌≡◌, Bool, true, false, List, [], None, option_map, IfOk, IfErr};
ghost use Rattle.answers.specs.AnswerView.{answers_of};
ghost use Rattle.fol_core.specs.RawTree.{RawTree};
ghost use Rattle.fol_core.specs.RawView.{raw_of};
ghost use Rattle.fol_core.specs.SymbolTable.{KeepsNumbers};
ghost use Rattle.ladr_formulas.specs.Formulas.{Reading, meets, style_of};
ghost use Rattle.ladr_formulas.specs.declared.styles.Mode.TheVariants.{Prover};
ghost use Rattle.fol_core.specs.FormulaView.{fol_of};
ghost use Rattle.proof_lines.specs.Noted.{asks_if, asks_in, kept_of, places_kept};
ghost use Rattle.proof_lines.specs.Parsed.{AreTermsRead, IsClauseTerm, IsTermStated, IsStatedFault, IsTermFaultOf};
ghost use Rattle.proof_lines.specs.Answered.{ReadAnswer, answer_views};
ghost use Rattle.proof_lines.specs.Stated.{answers_read_behind, is_deep_with};
ghost use Rattle.proof_lines.specs.Strays.{AreNamesOf};

use crate::answered::{AnsweredRaw, RawAnswer};
use crate::content::Terms;
use crate::counted::{cut_terms, gather};
use crate::fault::LineFault;
use crate::strays::{ProblemNames, brings_stray};
use derivation::{Content, LineNotes};
use fol_core::{Formula, Raw, RawSub, Raws, Symbols, free_vars};
use fol_problem::Problem;
use ladr_formulas::{Mode, clause_of, clause_with_terms, read_formula};
use ladr_lex::Misuse;
use ladr_rules::{LabelledFormula, line_asks};
use std::alloc::{AllocError, Global};

// The misuse of the least row, where one more is met.
fn meet(test: bool, misuse: Misuse, least: Option<Misuse>) -> Option<Misuse>
    ensures { (s : Reading) → s.least ≡ least → result ≡ (meets test misuse s).least }
{
    if test {
        Some(misuse.earlier(least))
    } else {
        least
    }
}

// The formula of a line with its label.
#[tactic(auto, using(crate::proofs::Steps::strays_told))]
fn formula(
    alloc: Global,
    raw: Raw,
    problem: &Problem,
    names: &ProblemNames,
    symbols: &mut Symbols,
) -> Result<Content, LineFault>
    requires names { AreNamesOf problem.now.symbols names.now }
    ensures stated { IfOk result (λ content. IsTermStated (style_of Prover
        problem.now.options.prolog_style_variables) problem.now.symbols symbols.old true
        (raw_of raw) [] content symbols.new) }
    ensures fault { IfErr result (IsStatedFault (style_of Prover
        problem.now.options.prolog_style_variables) problem.now.symbols symbols.old true
        (raw_of raw) []) }
    ensures kept { KeepsNumbers symbols.old symbols.new }
{
    let before = symbols.len();
    let stated = LabelledFormula::of(raw);
    let prolog = problem.options.prolog_style_variables;
    let LabelledFormula { formula, notes } = stated;
    let read = read_formula(alloc, formula, symbols, Mode::Prover, prolog)?;
    let least = meet(notes.misused, Misuse::UnfitAttribute, read.least);
    let strays = brings_stray(names, before, symbols);
    match meet(strays, Misuse::TwoKinds, least) {
        Some(misuse) => Err(LineFault::Misused(misuse)),
        None => {
            let label = RawSub::of(alloc, notes.label)?;
            Ok(Content::Formula(read.formula, label))
        }
    }
}

// The clause of a line without answers.
#[tactic(auto, using(crate::proofs::Steps::strays_told))]
fn clause(
    alloc: Global,
    literals: Vec<Raw>,
    problem: &Problem,
    names: &ProblemNames,
    symbols: &mut Symbols,
) -> Result<Content, LineFault>
    requires names { AreNamesOf problem.now.symbols names.now }
    requires literals { (t : RawTree) × IsClauseTerm t literals.items }
    ensures stated { (t : RawTree) → IsClauseTerm t literals.items → IfOk result (λ content.
        IsTermStated (style_of Prover problem.now.options.prolog_style_variables)
        problem.now.symbols symbols.old false t [] content symbols.new) }
    ensures fault { (t : RawTree) → IsClauseTerm t literals.items → IfErr result
        (IsStatedFault (style_of Prover problem.now.options.prolog_style_variables)
        problem.now.symbols symbols.old false t []) }
    ensures kept { KeepsNumbers symbols.old symbols.new }
{
    let before = symbols.len();
    let prolog = problem.options.prolog_style_variables;
    let read = clause_of(alloc, literals, symbols, Mode::Prover, prolog)?;
    let strays = brings_stray(names, before, symbols);
    match meet(strays, Misuse::TwoKinds, read.least) {
        Some(misuse) => Err(LineFault::Misused(misuse)),
        None => Ok(Content::Clause(read.clause.unwrap())),
    }
}

// The places that a formula can be asked for: none where it has free variables.
fn places_kept(alloc: Global, formula: &Formula, places: Vec<u64>) -> Result<Vec<u64>, AllocError>
    ensures { IfOk result (λ kept. kept.items
        ≡ places_kept (fol_of formula.now.shape) places.items) }
{
    let free = free_vars(alloc, formula)?;
    if free.is_empty() {
        Ok(places)
    } else {
        Ok(Vec::new(alloc))
    }
}

// What a content asks for, by what its attributes say.
fn notes_of(
    alloc: Global,
    content: &Content,
    asks: Option<Vec<u64>>,
) -> Result<LineNotes, AllocError>
    ensures asks { IfOk result (λ notes. asks_in notes
        ≡ kept_of content.now (option_map (λ places. places.items) asks)) }
    ensures answers { IfOk result (λ notes. notes.answers.items ≡ []) }
{
    let mut notes = LineNotes::none(alloc);
    if let Content::Formula(formula, _) = content {
        if let Some(places) = asks {
            notes.asks = Some(places_kept(alloc, formula, places)?);
        }
    }
    Ok(notes)
}

/// A line's content, and what stands behind it.
#[derive(Drop)]
pub struct Stated {
    pub content: Content,
    pub notes: LineNotes,
}

// The formula of a line, and what it asks for if it is a goal.
fn noted_formula(
    alloc: Global,
    raw: Raw,
    is_goal: bool,
    problem: &Problem,
    names: &ProblemNames,
    symbols: &mut Symbols,
) -> Result<Stated, LineFault>
    requires names { AreNamesOf problem.now.symbols names.now }
    ensures stated { IfOk result (λ s. IsTermStated (style_of Prover
        problem.now.options.prolog_style_variables) problem.now.symbols symbols.old true
        (raw_of raw) [] s.content symbols.new) }
    ensures asks { IfOk result (λ s. asks_in s.notes ≡ asks_if is_goal (style_of Prover
        problem.now.options.prolog_style_variables) symbols.old (raw_of raw)) }
    ensures answers { IfOk result (λ s. s.notes.answers.items ≡ []) }
    ensures fault { IfErr result (IsStatedFault (style_of Prover
        problem.now.options.prolog_style_variables) problem.now.symbols symbols.old true
        (raw_of raw) []) }
    ensures kept { KeepsNumbers symbols.old symbols.new }
{
    let asks = if is_goal {
        line_asks(alloc, &raw)?
    } else {
        None
    };
    let content = formula(alloc, raw, problem, names, symbols)?;
    let notes = notes_of(alloc, &content, asks)?;
    Ok(Stated { content, notes })
}

// The clause of a line with its answers.
#[tactic(auto, using(crate::proofs::Steps::strays_told))]
fn answered(
    alloc: Global,
    literals: Vec<Raw>,
    answers: Vec<RawAnswer>,
    problem: &Problem,
    names: &ProblemNames,
    symbols: &mut Symbols,
) -> Result<Stated, LineFault>
    requires names { AreNamesOf problem.now.symbols names.now }
    requires literals { (t : RawTree) × IsClauseTerm t literals.items }
    ensures stated { (t : RawTree) → IsClauseTerm t literals.items → IfOk result (λ s.
        IsTermStated (style_of Prover problem.now.options.prolog_style_variables)
        problem.now.symbols symbols.old false t (answer_views answers.items) s.content
        symbols.new) }
    ensures asks { IfOk result (λ s. asks_in s.notes ≡ None) }
    ensures answers { (t : RawTree) → IsClauseTerm t literals.items → IfOk result (λ s.
        answers_of s.notes.answers.items ≡ (answers_read_behind (style_of Prover
        problem.now.options.prolog_style_variables) symbols.old false t
        (answer_views answers.items)).tree) }
    ensures fault { (t : RawTree) → IsClauseTerm t literals.items → IfErr result
        (IsStatedFault (style_of Prover problem.now.options.prolog_style_variables)
        problem.now.symbols symbols.old false t (answer_views answers.items)) }
    ensures kept { KeepsNumbers symbols.old symbols.new }
{
    let before = symbols.len();
    let prolog = problem.options.prolog_style_variables;
    let mut terms = Vec::new(alloc);
    let counts = gather(alloc, answers, &mut terms)?;
    let behind = Raws { items: terms };
    let (read, made) = clause_with_terms(alloc, literals, &behind, symbols, Mode::Prover, prolog)?;
    let strays = brings_stray(names, before, symbols);
    match meet(strays, Misuse::TwoKinds, read.least) {
        Some(misuse) => Err(LineFault::Misused(misuse)),
        None => {
            let mut notes = LineNotes::none(alloc);
            notes.answers = cut_terms(alloc, &counts, made)?;
            Ok(Stated {
                content: Content::Clause(read.clause.unwrap()),
                notes,
            })
        }
    }
}

// The clause of a line, with its answers if it has some.
fn noted_clause(
    alloc: Global,
    whole: AnsweredRaw,
    problem: &Problem,
    names: &ProblemNames,
    symbols: &mut Symbols,
) -> Result<Stated, LineFault>
    requires names { AreNamesOf problem.now.symbols names.now }
    requires literals { (t : RawTree) × IsClauseTerm t whole.literals.items }
    ensures stated { (t : RawTree) → IsClauseTerm t whole.literals.items → IfOk result (λ s.
        IsTermStated (style_of Prover problem.now.options.prolog_style_variables)
        problem.now.symbols symbols.old false t (answer_views whole.answers.items) s.content
        symbols.new) }
    ensures asks { IfOk result (λ s. asks_in s.notes ≡ None) }
    ensures answers { (t : RawTree) → IsClauseTerm t whole.literals.items → IfOk result (λ s.
        answers_of s.notes.answers.items ≡ (answers_read_behind (style_of Prover
        problem.now.options.prolog_style_variables) symbols.old false t
        (answer_views whole.answers.items)).tree) }
    ensures fault { (t : RawTree) → IsClauseTerm t whole.literals.items → IfErr result
        (IsStatedFault (style_of Prover problem.now.options.prolog_style_variables)
        problem.now.symbols symbols.old false t (answer_views whole.answers.items)) }
    ensures kept { KeepsNumbers symbols.old symbols.new }
{
    let AnsweredRaw { literals, answers } = whole;
    if answers.len() > 0 {
        return answered(alloc, literals, answers, problem, names, symbols);
    }
    let content = clause(alloc, literals, problem, names, symbols)?;
    Ok(Stated {
        content,
        notes: LineNotes::none(alloc),
    })
}

/// What the content of a line states, unless it is too deep or misused, and what stands behind it: what it asks for if it is a
/// goal, and the answers of a clause.
pub fn state(
    alloc: Global,
    terms: Terms,
    is_goal: bool,
    problem: &Problem,
    names: &ProblemNames,
    symbols: &mut Symbols,
) -> Result<Stated, LineFault>
    requires names { AreNamesOf problem.now.symbols names.now }
    requires terms { (by_formula : Bool) × (t : RawTree) × (us : List ReadAnswer)
        × AreTermsRead by_formula t us terms }
    ensures stated { (by_formula : Bool) (t : RawTree) (us : List ReadAnswer)
        → AreTermsRead by_formula t us terms → IfOk result (λ s.
        (is_deep_with by_formula t us ≡ false)
        × IsTermStated (style_of Prover problem.now.options.prolog_style_variables)
        problem.now.symbols symbols.old by_formula t us s.content symbols.new) }
    ensures asks { (by_formula : Bool) (t : RawTree) (us : List ReadAnswer)
        → AreTermsRead by_formula t us terms → (is_goal ≡ true → by_formula ≡ true)
        → IfOk result (λ s. asks_in s.notes
        ≡ asks_if is_goal (style_of Prover problem.now.options.prolog_style_variables)
        symbols.old t) }
    ensures answers { (by_formula : Bool) (t : RawTree) (us : List ReadAnswer)
        → AreTermsRead by_formula t us terms → IfOk result (λ s.
        answers_of s.notes.answers.items ≡ (answers_read_behind (style_of Prover
        problem.now.options.prolog_style_variables) symbols.old by_formula t us).tree) }
    ensures fault { (by_formula : Bool) (t : RawTree) (us : List ReadAnswer)
        → AreTermsRead by_formula t us terms → IfErr result (IsTermFaultOf (style_of Prover
        problem.now.options.prolog_style_variables) problem.now.symbols symbols.old by_formula t
        us) }
    ensures kept { KeepsNumbers symbols.old symbols.new }
{
    match terms {
        Terms::Formula(Some(raw)) => { noted_formula(alloc, raw, is_goal, problem, names, symbols) }
        Terms::Clause(Some(whole)) => noted_clause(alloc, whole, problem, names, symbols),
        Terms::Formula(None) | Terms::Clause(None) => Err(LineFault::Deep),
    }
}
