// What the texts say when they are read, and texts worked out: the functions do nothing, and their contracts are the laws.
ghost use Rattle.std.specs.Prelude.{◌≡◌, ◌<◌, ◌^◌, ℕ, true, [], ◌∷◌, codes};
ghost use Rattle.derivation.specs.Later.{flipped, merged, reflexive, unit_deleted, rewritten};
ghost use Rattle.words_print.specs.Sayable.{IsSayable};
ghost use Rattle.words_print.specs.WordTokens.{literal_name, words_tokens, words_text};
ghost use Rattle.proof_words.specs.Names.{is_literal_name, place_named};
ghost use Rattle.proof_words.specs.Spelling.{SaysWords, line_words};
ghost use Rattle.proof_words.specs.Written.{Written, written, satellite, as_goal, by_deny, by_back_rewrite, by_resolve, by_hyper, by_factor, by_para, by_xx_res};
ghost use Rattle.proof_words.specs.declared.names.ContentKind.TheVariants.{Either};

/// The name of a literal names its place.
pub fn literals_are_named()
    ensures { (a : ℕ) → a < 2 ^ 64
        → (is_literal_name (literal_name a) ≡ true) × (place_named (literal_name a) ≡ a) }
{}

/// The tokens of a line's words say these words.
pub fn words_are_said()
    ensures { (w : Written) → IsSayable w → SaysWords (line_words Either) (words_tokens w) w }
{}

/// Names of literals, and words with their texts.
pub fn worked_words()
    ensures names { (literal_name 0 ≡ codes "a") × (literal_name 25 ≡ codes "z")
        × (literal_name 26 ≡ codes "aa") × (literal_name 701 ≡ codes "zz")
        × (literal_name 702 ≡ codes "aaa") }
    ensures goal { words_text (written as_goal []) ≡ codes "[goal]." }
    ensures input { words_text (written (by_deny 3) []) ≡ codes "[deny(3)]." }
    ensures resolve { words_text (written (by_resolve 3 (satellite 0 5 1)) (flipped 1 ∷ []))
        ≡ codes "[resolve(3,a,5,b),flip(b)]." }
    ensures hyper { words_text
        (written (by_hyper 4 (satellite 0 5 1 ∷ satellite 2 6 0 ∷ [])) (unit_deleted 0 6 ∷ []))
        ≡ codes "[hyper(4,a,5,b,c,6,a),unit_del(a,6)]." }
    ensures factor { words_text (written (by_factor 3 0 2) (reflexive 1 ∷ []))
        ≡ codes "[factor(3,a,c),xx(b)]." }
    ensures para { words_text (written (by_para 7 0 1 8 1 (2 ∷ 1 ∷ [])) (merged 2 ∷ []))
        ≡ codes "[para(7(a,1),8(b,2,1)),merge(c)]." }
    ensures rewritings { words_text (written (by_back_rewrite 4)
        (rewritten 5 0 (1 ∷ 2 ∷ []) ∷ rewritten 6 1 (1 ∷ []) ∷ flipped 0 ∷ rewritten 5 0 (1 ∷ [])
        ∷ [])) ≡ codes "[back_rewrite(4),rewrite([5(a,1,2),6(b,1)]),flip(a),rewrite([5(a,1)])]." }
{}
