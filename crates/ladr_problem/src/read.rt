// The problem of a file.
ghost use Rattle.std.specs.Prelude.{◌≡◌, ◌≤◌, ◌<◌, ◌^◌, ◌++◌, List, unwrap_or, OnOk, IfOk, IfErr, length, map, take};
ghost use Rattle.std.specs.List.{list_all};
ghost use Rattle.fol_core.specs.FormulaView.{fol_of};
ghost use Rattle.fol_problem.specs.Asks.{AreLive};
ghost use Rattle.fol_problem.specs.Stated.{stated_of, IsWellFormed};
ghost use Rattle.ladr_interpretations.specs.Covers.{covers};
ghost use Rattle.ladr_problem.specs.Items.{items_of, tokens_of};
ghost use Rattle.ladr_lex.specs.Cuts.{Cuts, Piece, piece_of, pieces_of};
ghost use Rattle.ladr_lex.specs.Places.{line_of, column_of};
ghost use Rattle.ladr_lex.specs.declared.limits.TheConstants.{MOST_BYTES, MOST_SYMBOLS};
ghost use Rattle.ladr_problem.specs.Draft.{sofar_of};
ghost use Rattle.ladr_problem.specs.File.{Says, problem, first_lacking, all_tables, tested};
ghost use Rattle.ladr_options.specs.Ranges.{AreInRange};
ghost use Rattle.ladr_problem.specs.Names.{AreTellable};
ghost use Rattle.ladr_formulas.specs.declared.styles.Mode.{Mode};
ghost use Rattle.ladr_formulas.specs.declared.styles.Mode.TheVariants.{Tester};
ghost use Rattle.ladr_problem.specs.Places.{shown_byte, shown_len, shown, shown_at, IsPlaced, IsReadError};
ghost use Rattle.ladr_problem.specs.Sofar.{Sofar, input_of, nothing_read};
ghost use Rattle.ladr_problem.specs.Stops.{IsStop};
ghost use Rattle.ladr_problem.specs.Whole.{IsOf, IsFinished};

use crate::draft::Draft;
use crate::file::take_all;
use crate::refusal::{Limit, Place, ReadError};
use crate::stop::RefusalAt;
use fol_core::{Formula, Name, Symbols};
use fol_problem::{Input, Problem};
use ladr_formulas::Mode;
use ladr_interpretations::{Interpretations, bind, covers};
use ladr_lex::{MOST_BYTES, Misuse, Ops, Text, Token, TokenKind, item_from, place_of};
use ladr_settings::Settings;
use model_tables::Tables;
use std::alloc::{AllocError, Global};

/// What a file says: its problem, the operators as they are at its end, and the interpretations.
#[derive(Drop)]
pub struct FileRead {
    pub problem: Problem,
    pub operators: Ops,
    pub interpretations: Interpretations,
}

// Whether each of the tables covers a formula.
fn are_covered(tables: &[Tables], formula: &Formula) -> bool
    ensures { result ≡ list_all (λ t. covers t (fol_of formula.now.shape)) tables.now }
{
    tables.iter().all(|one| covers(one, formula))
}

// Where the first formula begins that isn't covered.
fn first_lacking(tables: &[Tables], inputs: &[Input]) -> Option<u64>
    ensures { result ≡ first_lacking tables.now (map input_of inputs.now) }
{
    for input in inputs {
        if !are_covered(tables, &input.formula) {
            return Some(input.byte);
        }
    }
    None
}

// The tables of each interpretation for these symbols.
fn all_tables(
    alloc: Global,
    its: &Interpretations,
    symbols: &Symbols,
) -> Result<Vec<Tables>, AllocError>
    ensures { IfOk result (λ ts. ts.items ≡ all_tables its.now symbols.now) }
{
    let mut all = Vec::new(alloc);
    for place in 0..its.len() {
        all.push(bind(alloc, its.at(place), symbols)?)?;
    }
    Ok(all)
}

// Looks for a formula that an interpretation doesn't cover.
fn test(alloc: Global, end: usize, draft: &Draft) -> Result<(), RefusalAt>
    ensures ok { OnOk result (tested end (problem (sofar_of draft.now))
        ≡ problem (sofar_of draft.now)) }
    ensures stop { IfErr result (IsStop (λ o. tested end (problem (sofar_of draft.now)) ≡ o)) }
{
    if draft.settings.interpretations.len() == 0 {
        return Err(RefusalAt::Misuse(end as u64, Misuse::Uncovered));
    }
    let tables = all_tables(alloc, &draft.settings.interpretations, &draft.symbols)?;
    match first_lacking(&tables, &draft.inputs) {
        Some(byte) => Err(RefusalAt::Misuse(byte, Misuse::Uncovered)),
        None => Ok(()),
    }
}

// Takes a whole file.
fn take_file<'a>(
    alloc: Global,
    program: Mode,
    end: usize,
    text: &'a Text<'a>,
    draft: &mut Draft,
) -> Result<(), RefusalAt>
    requires { length text.now.bytes.now < 2 ^ 32 }
    ensures ok { OnOk result (IsFinished program end (sofar_of draft.old)
        (items_of (tokens_of text.now)) (problem (sofar_of draft.new))) }
    ensures stop { IfErr result (IsStop (IsFinished program end (sofar_of draft.old)
        (items_of (tokens_of text.now)))) }
{
    take_all(alloc, program, end, text, draft)?;
    match program {
        Mode::Prover | Mode::Mace => Ok(()),
        Mode::Tester => test(alloc, end, draft),
    }
}

/// A byte as it is shown.
pub fn shown_byte(byte: u8) -> u8
    ensures { result ≡ shown_byte byte }
{
    if (33..=126).contains(&byte) {
        byte
    } else {
        b'?'
    }
}

fn shown_len(kind: TokenKind) -> usize
    ensures { result ≡ shown_len kind }
{
    match kind {
        TokenKind::Unreadable => 1,
        _ => 20,
    }
}

// At most so many bytes of a text.
fn front<'a>(text: &'a [u8], most: usize) -> &'a [u8]
    ensures { result.now ≡ take most text.now }
{
    if most < text.len() {
        &text[..most]
    } else {
        text
    }
}

/// What is shown of a token.
pub fn shown(alloc: Global, token: &Token) -> Result<Name, AllocError>
    ensures { IfOk result (λ name. name ≡ shown (piece_of token.now)) }
{
    let mut bytes = Vec::new(alloc);
    for byte in front(token.text(), shown_len(token.kind())) {
        bytes.push(shown_byte(*byte))?;
    }
    Ok(Name::new(bytes))
}

// What is shown of the one of these tokens that begins at a byte, if one does.
fn shown_in(alloc: Global, tokens: &[Token], byte: u64) -> Result<Option<Name>, AllocError>
    ensures { IfOk result (λ name. (behind : List Piece) → shown_at (pieces_of tokens.now ++ behind)
        byte ≡ unwrap_or name (shown_at behind byte)) }
{
    for token in tokens {
        if token.start() as u64 == byte {
            return Ok(Some(shown(alloc, token)?));
        }
    }
    Ok(None)
}

// What is shown of the token of a text that begins at a byte.
fn shown_at<'a>(alloc: Global, text: &'a Text<'a>, byte: u64) -> Result<Name, AllocError>
    requires { length text.now.bytes.now < 2 ^ 32 }
    ensures { IfOk result (λ name. name ≡ shown_at (tokens_of text.now) byte) }
{
    let mut item = Vec::new(alloc);
    let mut at = 0;
    while at < text.bytes.len() {
        at = item_from(&mut item, text, at)?;
        if let Some(name) = shown_in(alloc, &item, byte)? {
            return Ok(name);
        }
    }
    Name::from_slice(alloc, b"end of input")
}

// The same; where the text ends no token begins, so that none is looked for.
fn shown_where<'a>(alloc: Global, text: &'a Text<'a>, byte: u64) -> Result<Name, AllocError>
    requires small { length text.now.bytes.now < 2 ^ 32 }
    requires cut { Cuts 0 text.now.bytes.now (tokens_of text.now) }
    ensures { IfOk result (λ name. name ≡ shown_at (tokens_of text.now) byte) }
{
    if byte >= text.bytes.len() as u64 {
        return Name::from_slice(alloc, b"end of input");
    }
    shown_at(alloc, text, byte)
}

// A byte with its line and column, and what is shown of its token.
fn place<'a>(alloc: Global, text: &'a Text<'a>, byte: u64) -> Result<Place, AllocError>
    requires small { length text.now.bytes.now < 2 ^ 32 }
    requires cut { Cuts 0 text.now.bytes.now (tokens_of text.now) }
    ensures byte { IfOk result (λ p. p.byte ≡ byte) }
    ensures line { IfOk result (λ p. p.line ≡ line_of text.now.bytes.now byte) }
    ensures column { IfOk result (λ p. p.column ≡ column_of text.now.bytes.now byte) }
    ensures token { IfOk result (λ p. p.token ≡ shown_at (tokens_of text.now) byte) }
{
    let token = shown_where(alloc, text, byte)?;
    let spot = place_of(text.bytes, (byte as usize).min(text.bytes.len()));
    Ok(Place {
        byte,
        line: spot.line,
        column: spot.column,
        token,
    })
}

// The refusal of a file with its place.
fn placed<'a>(alloc: Global, text: &'a Text<'a>, stop: RefusalAt) -> ReadError
    requires small { length text.now.bytes.now < 2 ^ 32 }
    requires cut { Cuts 0 text.now.bytes.now (tokens_of text.now) }
    ensures { IsPlaced text.now.bytes.now stop result }
{
    match stop {
        RefusalAt::Unreadable(byte) => match place(alloc, text, byte) {
            Ok(place) => ReadError::Unreadable(place),
            Err(_) => ReadError::Memory,
        },
        RefusalAt::Misuse(byte, misuse) => match place(alloc, text, byte) {
            Ok(place) => ReadError::Misuse(place, misuse),
            Err(_) => ReadError::Memory,
        },
        RefusalAt::TooLarge(byte, what) => ReadError::TooLarge { byte, what },
        RefusalAt::Memory => ReadError::Memory,
    }
}

// The parts of a draft that are handed on.
fn finish(draft: Draft) -> FileRead
    ensures of { IsOf (sofar_of draft) result }
    ensures inputs { result.problem.inputs.items ≡ draft.inputs.items }
{
    let Draft {
        settings,
        symbols,
        inputs,
        hints,
        weights,
        kbo_weights,
    } = draft;
    let Settings {
        operators,
        options,
        function_order,
        interpretations,
        ..
    } = settings;
    FileRead {
        problem: Problem {
            symbols,
            inputs,
            hints,
            weights,
            kbo_weights,
            function_order,
            options,
        },
        operators,
        interpretations,
    }
}

/// What a file says to a program: its problem, or the first refusal.
pub fn read_problem(alloc: Global, program: Mode, bytes: &[u8]) -> Result<FileRead, ReadError>
    ensures read { IfOk result (λ r. (s : Sofar) × Says program bytes.now (problem s) × IsOf s r) }
    ensures well_formed { IfOk result (λ r. IsWellFormed (stated_of r.problem)) }
    // Its symbols are few enough, and can be told apart.
    ensures few { IfOk result (λ r. length r.problem.symbols ≤ MOST_SYMBOLS) }
    ensures tellable { IfOk result (λ r. AreTellable r.problem.symbols) }
    // Its goals ask for what may be asked of them.
    ensures asks { IfOk result (λ r. AreLive r.problem.inputs.items) }
    // Its options have values of theirs, and a program that tests interpretations has some.
    ensures ranged { IfOk result (λ r. AreInRange r.problem.options) }
    ensures interpreted { program ≡ Tester → IfOk result (λ r. 0 < length r.interpretations) }
    ensures refused { IfErr result (IsReadError program bytes.now) }
{
    if bytes.len() as u64 > MOST_BYTES {
        return Err(ReadError::TooLarge {
            byte: MOST_BYTES,
            what: Limit::Input,
        });
    }
    let text = Text { bytes, start: 0 };
    let mut draft = Draft::new(alloc)?;
    match take_file(alloc, program, bytes.len(), &text, &mut draft) {
        Ok(()) => Ok(finish(draft)),
        Err(stop) => Err(placed(alloc, &text, stop)),
    }
}
