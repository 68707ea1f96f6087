// The names of words and of literals.
ghost use Rattle.std.specs.Prelude.{◌≡◌, ◌+◌, ◌*◌, ◌-◌};
ghost use Rattle.std.specs.Char.{is_ascii_lowercase};
ghost use Rattle.std.specs.List.{list_all};
ghost use Rattle.ladr_lex.specs.Numeral.{fitting};
ghost use Rattle.proof_words.specs.Classes.{first_name, later_name, names_formula, may_begin};
ghost use Rattle.proof_words.specs.Names.{is_literal_name, place_named};

/// The word that a line's words begin with.
#[derive(Clone, Copy)]
pub enum FirstName {
    Assumption,
    Goal,
    Clausify,
    Deny,
    Copy,
    BackRewrite,
    BackUnitDel,
    Resolve,
    Hyper,
    Ur,
    Factor,
    Para,
    XxRes,
}

// Whether the word is one of formulas.
fn names_formula(name: FirstName) -> bool
    ensures { result ≡ names_formula name }
{
    matches!(name, FirstName::Assumption | FirstName::Goal)
}

/// What the words of a line stand behind: a formula that is no clause, a clause that is no formula, or content that may be
/// either.
#[derive(Clone, Copy)]
pub enum ContentKind {
    Formula,
    Clause,
    Either,
}

impl ContentKind {
    /// Whether words behind it may begin with this one.
    pub fn takes(self, name: FirstName) -> bool
        ensures { result ≡ may_begin self name }
    {
        match self {
            ContentKind::Formula => names_formula(name),
            ContentKind::Clause => !names_formula(name),
            ContentKind::Either => true,
        }
    }
}

/// A word behind the first.
#[derive(Clone, Copy)]
pub enum LaterName {
    Rewrite,
    Flip,
    Merge,
    Xx,
    UnitDel,
}

/// The first word that a text is.
pub fn first_name(text: &[u8]) -> Option<FirstName>
    ensures { result ≡ first_name text.now }
{
    if text == b"assumption".as_slice() {
        Some(FirstName::Assumption)
    } else if text == b"goal".as_slice() {
        Some(FirstName::Goal)
    } else if text == b"clausify".as_slice() {
        Some(FirstName::Clausify)
    } else if text == b"deny".as_slice() {
        Some(FirstName::Deny)
    } else if text == b"copy".as_slice() {
        Some(FirstName::Copy)
    } else if text == b"back_rewrite".as_slice() {
        Some(FirstName::BackRewrite)
    } else if text == b"back_unit_del".as_slice() {
        Some(FirstName::BackUnitDel)
    } else if text == b"resolve".as_slice() {
        Some(FirstName::Resolve)
    } else if text == b"hyper".as_slice() {
        Some(FirstName::Hyper)
    } else if text == b"ur".as_slice() {
        Some(FirstName::Ur)
    } else if text == b"factor".as_slice() {
        Some(FirstName::Factor)
    } else if text == b"para".as_slice() {
        Some(FirstName::Para)
    } else if text == b"xx_res".as_slice() {
        Some(FirstName::XxRes)
    } else {
        None
    }
}

/// The word behind the first that a text is.
pub fn later_name(text: &[u8]) -> Option<LaterName>
    ensures { result ≡ later_name text.now }
{
    if text == b"rewrite".as_slice() {
        Some(LaterName::Rewrite)
    } else if text == b"flip".as_slice() {
        Some(LaterName::Flip)
    } else if text == b"merge".as_slice() {
        Some(LaterName::Merge)
    } else if text == b"xx".as_slice() {
        Some(LaterName::Xx)
    } else if text == b"unit_del".as_slice() {
        Some(LaterName::UnitDel)
    } else {
        None
    }
}

/// Whether a text is the name of a literal.
pub fn is_literal_name(text: &[u8]) -> bool
    ensures { result ≡ is_literal_name text.now }
{
    match text {
        [] => false,
        [_, ..] => are_letters(text),
    }
}

fn are_letters(text: &[u8]) -> bool
    ensures { result ≡ list_all is_ascii_lowercase text.now }
{
    text.iter().all(|byte| byte.is_ascii_lowercase())
}

// The number of letters with one letter more.
fn with_letter(sum: u64, byte: u8) -> Option<u64>
    ensures { result ≡ fitting (sum * 26 + (byte - 96)) }
{
    match sum.checked_mul(26) {
        Some(product) => product.checked_add(u64::from(byte.saturating_sub(96))),
        None => None,
    }
}

/// The place that a name names.
pub fn place_named(text: &[u8]) -> u64
    ensures { result ≡ place_named text.now }
{
    let mut sum = 0;
    for byte in text {
        match with_letter(sum, *byte) {
            Some(more) => sum = more,
            None => return u64::MAX,
        }
    }
    sum.saturating_sub(1)
}
