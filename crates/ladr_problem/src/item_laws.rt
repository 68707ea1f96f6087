// What the definitions of items amount to.
ghost use Rattle.std.specs.Prelude.{◌≡◌, List, [], ◌∷◌, codes};
ghost use Rattle.ladr_lex.specs.Cuts.{pieces_of};
ghost use Rattle.ladr_lex.specs.Lexed.{lexed};
ghost use Rattle.ladr_lex.specs.Lexeme.{Lexeme, lexemes_of};
ghost use Rattle.ladr_lex.specs.declared.token.Token.{Token};
ghost use Rattle.ladr_reader.specs.Table.{OperatorTable};
ghost use Rattle.ladr_reader.specs.Worked.{lexemes_of_text, constant, unary, standard};
ghost use Rattle.ladr_reader.specs.declared.fault.TermFault.TheVariants.{Bad};
ghost use Rattle.ladr_problem.specs.Items.{items_of, lexemes};
ghost use Rattle.ladr_problem.specs.ListItem.{ListItem, closing, term, names, IsListItem, IsItemFault};
ghost use Rattle.ladr_problem.specs.WorkedItems.{with_prefix, two_items};
ghost use Rattle.ladr_settings.specs.declared.lists.OpenList.{OpenList};
ghost use Rattle.ladr_settings.specs.declared.lists.OpenList.TheVariants.{Distinct};

/// Tokens are one item of a list at most.
pub fn one_item()
    ensures { (list : OpenList) (g : OperatorTable) (ts : List Lexeme) (i j : ListItem)
        → IsListItem list g ts i → IsListItem list g ts j → i ≡ j }
{}

/// Tokens are the same as lexemes with their places and without.
pub fn same_tokens()
    ensures { (ts : List Token) → lexemes (pieces_of ts) ≡ lexemes_of ts }
{}

/// Each full stop ends an item, and the end of the tokens the last one.
pub fn worked_cuts()
    ensures { items_of (lexed (codes "p. q")) ≡ two_items }
{}

/// Items of lists. `end_of_list.` ends a list also where `end_of_list` is an operator.
pub fn worked_items()
    ensures end { (list : OpenList) → IsListItem list standard (lexemes_of_text "end_of_list.")
        closing }
    ensures term { (list : OpenList) → (¬ list ≡ Distinct) → IsListItem list standard
        (lexemes_of_text "p(a).") (term (unary "p" (constant "a"))) }
    ensures operator { (list : OpenList) → IsListItem list with_prefix
        (lexemes_of_text "end_of_list.") closing }
    ensures argument { (list : OpenList) → (¬ list ≡ Distinct) → IsListItem list with_prefix
        (lexemes_of_text "end_of_list a.") (term (unary "end_of_list" (constant "a"))) }
    ensures names { IsListItem Distinct standard (lexemes_of_text "[a,end_of_list].")
        (names (codes "a" ∷ codes "end_of_list" ∷ [])) }
{}

/// Tokens that are no item of a list, each with its first bad one.
pub fn worked_item_faults()
    ensures cut_off { (list : OpenList) → (¬ list ≡ Distinct) → IsItemFault list standard
        (lexemes_of_text "end_of_list") (Bad 1) }
    ensures operator { (list : OpenList) → IsItemFault list with_prefix
        (lexemes_of_text "end_of_list. a.") (Bad 2) }
    ensures further { (list : OpenList) → (¬ list ≡ Distinct) → IsItemFault list standard
        (lexemes_of_text "end_of_list a.") (Bad 1) }
    // Among names `end_of_list` begins nothing but the end of the list.
    ensures names_cut_off { IsItemFault Distinct standard (lexemes_of_text "end_of_list") (Bad 1) }
    ensures names_operator { IsItemFault Distinct with_prefix (lexemes_of_text "end_of_list a.")
        (Bad 1) }
    ensures no_names { IsItemFault Distinct standard (lexemes_of_text "a != b.") (Bad 0) }
{}
