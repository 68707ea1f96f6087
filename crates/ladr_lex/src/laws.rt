// Laws of the definitions, and examples worked out.
ghost use Rattle.std.specs.Prelude.{◌≡◌, ◌+◌, ◌<◌, ◌^◌, ◌∷◌, [], drop, ℕ, Bool, true, false, IsTrue, List, Option, Some, None, if◌then◌else◌, codes};
ghost use Rattle.std.specs.Str.{bytes_eq};
ghost use Rattle.std.specs.Fmt.{decimal};
ghost use Rattle.ladr_lex.specs.ClauseNames.{clause_variable, is_clause_name, clause_operator};
ghost use Rattle.ladr_lex.specs.Numeral.{whole_number};
ghost use Rattle.ladr_lex.specs.Cuts.{Piece, is_quoted, Cuts};
ghost use Rattle.ladr_lex.specs.Item.{CutsItem};
ghost use Rattle.ladr_lex.specs.Lexed.{lexed, lexed_from};
ghost use Rattle.ladr_lex.specs.OperatorView.{row_list};
ghost use Rattle.ladr_lex.specs.Operators.{OperatorRow, operator_of, are_lawful, is_fixed, standard_rows, unquoted, is_unfit_operator, is_unfit_symbol, declared, with_operator_row};
ghost use Rattle.ladr_lex.specs.Places.{line_of, column_of};
ghost use Rattle.ladr_lex.specs.declared.operators.Operator.{Operator};
ghost use Rattle.ladr_lex.specs.declared.operators.OperatorKind.TheVariants.{InfixLeft, Prefix};
ghost use Rattle.ladr_lex.specs.Worked.{worked_formula, formula_tokens, special_line, special_tokens, comment_lines, comment_tokens, quoted_line, quoted_tokens, open_lines, open_tokens, item_lines, first_item, last_item};

/// Each text is cut by one list of tokens and no other.
pub fn one_cutting()
    ensures some { (bytes : List ℕ) → Cuts 0 bytes (lexed bytes) }
    ensures only { (i : ℕ) (bytes : List ℕ) (ts us : List Piece) → Cuts i bytes ts → Cuts i bytes us
        → ts ≡ us }
    // What is computed from a byte on cuts the bytes from there on, at their place.
    ensures from { (start at : ℕ) (bytes : List ℕ) →
        Cuts (start + at) (drop at bytes) (lexed_from start at bytes) }
{}

/// Items of a text: the first ends with its full stop, and the last with the text.
pub fn worked_items()
    ensures first { CutsItem 0 item_lines first_item 0 2 }
    ensures behind { CutsItem 0 item_lines last_item 2 11 }
{}

/// Decimal digits are the numeral of their number, and no other text is.
pub fn one_numeral()
    ensures reads { (n : ℕ) → n < 2 ^ 64 → whole_number (decimal n) ≡ Some n }
    ensures writes { (text : List ℕ) (n : ℕ) → whole_number text ≡ Some n → text ≡ decimal n }
{}

/// The names of a clause's variables, and the operators of its text.
pub fn worked_clauses()
    ensures third { clause_variable false 2 ≡ codes "z" }
    ensures tenth { clause_variable false 9 ≡ codes "v9" }
    ensures prolog { (clause_variable true 4 ≡ codes "E") × (clause_variable true 5 ≡ codes "V5") }
    ensures names { (is_clause_name false (codes "v4") ≡ false)
        × (is_clause_name false (codes "v05") ≡ false) × (is_clause_name true (codes "f0") ≡ true) }
    ensures taken_away { clause_operator false (codes "x")
        (Some (record { precedence = 350; kind = Prefix })) ≡ None }
    ensures kept { clause_operator false (codes "x")
        (Some (record { precedence = 700; kind = InfixLeft }))
        ≡ Some (record { precedence = 700; kind = InfixLeft }) }
{}

/// The tokens of some lines, and the place of a byte on a second line.
pub fn worked()
    ensures formula { Cuts 0 worked_formula formula_tokens }
    ensures special { Cuts 0 special_line special_tokens }
    ensures comments { Cuts 0 comment_lines comment_tokens }
    ensures quoted_symbols { Cuts 0 quoted_line quoted_tokens }
    ensures unclosed { Cuts 0 open_lines open_tokens }
    ensures line { line_of (codes "p(a).\nq(b).\n") 8 ≡ 2 }
    ensures column { column_of (codes "p(a).\nq(b).\n") 8 ≡ 3 }
{}

/// What a table says once a name has an operator, and what no table says.
pub fn one_operator()
    // The name has it, and each other name what it had.
    ensures put { (rows : List OperatorRow) (name : List ℕ) (o : Option Operator) (other : List ℕ) →
        operator_of (with_operator_row name o rows) other
        ≡ (if bytes_eq other name then o else operator_of rows other) }
    // A fixed symbol has what it had, whatever is declared.
    ensures kept { (rows : List OperatorRow) (p : ℕ) (type symbol name : List ℕ)
        → is_unfit_symbol symbol ≡ false → is_fixed name ≡ true →
        operator_of (declared p type symbol rows) name ≡ operator_of rows name }
    // A quoted symbol is never an operator.
    ensures quotes { (rows : List OperatorRow) (text : List ℕ) → IsTrue (are_lawful rows)
        → is_quoted text ≡ true → operator_of rows text ≡ None }
{}

/// Symbols that are declared, with quotes and without, and such as can't be.
pub fn worked_operators()
    ensures unquoted_name { unquoted (codes "\"@@\"") ≡ codes "@@" }
    ensures operates { operator_of (declared 700 (codes "infix_left")
        (codes "\"@@\"") standard_rows) (codes "@@")
        ≡ Some (record { precedence = 700; kind = InfixLeft }) }
    ensures replaced { operator_of (declared 400 (codes "prefix") (codes "v") standard_rows)
        (codes "v") ≡ Some (record { precedence = 400; kind = Prefix }) }
    ensures taken_away { operator_of (declared 1 (codes "ordinary") (codes "+") standard_rows)
        (codes "+") ≡ None }
    ensures precedences { (is_unfit_operator 0 (codes "infix") ≡ true)
        × (is_unfit_operator 998 (codes "infix") ≡ false)
        × (is_unfit_operator 999 (codes "infix") ≡ true) }
    ensures types { is_unfit_operator 500 (codes "\"infix\"") ≡ true }
    ensures fixed_symbols { (is_unfit_symbol (codes "->") ≡ true)
        × (is_unfit_symbol (codes "\"$T\"") ≡ true) × (is_unfit_symbol (codes "exists") ≡ true) }
    ensures symbols { (is_unfit_symbol (codes "\"a b\"") ≡ true)
        × (is_unfit_symbol (codes "\"--\"") ≡ true) × (is_unfit_symbol (codes "\"'\"") ≡ false) }
    // A name has what stands at its place, and one behind the last operator has no row.
    ensures rows { row_list (codes "@" ∷ codes "#" ∷ []) (None ∷ [])
        ≡ record { name = codes "@"; operator = None } ∷ [] }
{}
