// The words that begin commands.
ghost use Rattle.std.specs.Prelude.{◌≡◌};
ghost use Rattle.ladr_commands.specs.Wanted.{word_of};

/// The word of a command.
#[derive(Clone, Copy)]
pub enum Word {
    Set,
    Clear,
    Assign,
    Op,
    FunctionOrder,
    PredicateOrder,
    Formulas,
    List,
    If,
    EndIf,
}

/// The word that a text is.
pub fn word_of(text: &[u8]) -> Option<Word>
    ensures { result ≡ word_of text.now }
{
    if text == b"set".as_slice() {
        Some(Word::Set)
    } else if text == b"clear".as_slice() {
        Some(Word::Clear)
    } else if text == b"assign".as_slice() {
        Some(Word::Assign)
    } else if text == b"op".as_slice() {
        Some(Word::Op)
    } else if text == b"function_order".as_slice() {
        Some(Word::FunctionOrder)
    } else if text == b"predicate_order".as_slice() {
        Some(Word::PredicateOrder)
    } else if text == b"formulas".as_slice() {
        Some(Word::Formulas)
    } else if text == b"list".as_slice() {
        Some(Word::List)
    } else if text == b"if".as_slice() {
        Some(Word::If)
    } else if text == b"end_if".as_slice() {
        Some(Word::EndIf)
    } else {
        None
    }
}
