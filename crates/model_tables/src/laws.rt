// Laws of tables: the functions do nothing, and their contracts are the laws.
ghost use Rattle.std.specs.Prelude.{ℕ, ◌≡◌, [], ◌∷◌};
ghost use Rattle.fol_problem.specs.Stated.{Stated, IsCountermodel};
ghost use Rattle.fol_core.specs.declared.symbols.Kind.TheVariants.{Function};
ghost use Rattle.model_tables.specs.Expansion.{IsExpansion, SomeExpansion, OneExpansion, ExpansionPicks, ExpansionKeeps, ExpansionSays};
ghost use Rattle.model_tables.specs.ModelText.{model_text};
ghost use Rattle.model_tables.specs.Isomorphism.{IsIsomorphism};
ghost use Rattle.model_tables.specs.Size.{IsInterpretation};
ghost use Rattle.model_tables.specs.Tables.{Finite, listing, meaning_of};
ghost use Rattle.model_tables.specs.Worked.{apart, tables, exchange, tables_text, group_symbols, group, group_text, one, single, seekers, expanded};

/// Tables are isomorphic to themselves.
pub fn is_isomorphic_to_itself()
    ensures { (n : ℕ) (p : Stated) (t : Finite) → IsIsomorphism n p (λ x. x) t t }
{}

/// Tables of three elements: they are an interpretation of this size and a countermodel, and have a text; with names
/// exchanged they are other tables.
pub fn worked()
    ensures interpretation { IsInterpretation 3 apart (tables 0 1) }
    ensures countermodel { IsCountermodel (meaning_of (tables 0 1)) apart.formulas }
    ensures text { model_text apart.symbols 7 (tables 0 1) ≡ tables_text }
    ensures operation { model_text group_symbols 1 group ≡ group_text }
    ensures isomorphism { IsIsomorphism 3 apart exchange (tables 0 1) (tables 1 0) }
{}

/// All tables can be given values of Skolem symbols, in one way: with these they pick witnesses, and keep the tables of all other
/// symbols and what is said in these.
pub fn expansions()
    ensures some { SomeExpansion }
    ensures one { OneExpansion }
    ensures picks { ExpansionPicks }
    ensures keeps { ExpansionKeeps }
    ensures says { ExpansionSays }
{}

/// Values of Skolem symbols: the one element; of three elements, of which the last has `p`, this one, the least other one for
/// each, and the first where none will do.
pub fn worked_expansions()
    ensures single { IsExpansion (one []) (single ∷ []) (one (listing Function (0 ∷ []) ∷ [])) }
    ensures seekers { IsExpansion (tables 0 1) seekers expanded }
{}
