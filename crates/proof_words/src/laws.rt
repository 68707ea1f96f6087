// What the spelling of words amounts to, and words worked out: the functions do nothing, and their contracts are the laws.
ghost use Rattle.std.specs.Prelude.{◌≡◌, ℕ, List, [], ◌∷◌};
ghost use Rattle.derivation.specs.Later.{flipped, merged, reflexive, unit_deleted, rewritten};
ghost use Rattle.derivation.specs.View.{first_word_of};
ghost use Rattle.derivation.specs.declared.words.First.{First};
ghost use Rattle.ladr_lex.specs.Lexeme.{Lexeme};
ghost use Rattle.proof_words.specs.Faults.{AreFirstWords, IsBadWordToken};
ghost use Rattle.proof_words.specs.Spelling.{Spelling, SaysWords, line_words};
ghost use Rattle.proof_words.specs.Worked.{tokens_of};
ghost use Rattle.proof_words.specs.declared.names.ContentKind.TheVariants.{Formula, Clause, Either};
ghost use Rattle.proof_words.specs.Written.{Written, written, satellite, written_first, meant, as_assumption, as_goal, by_clausify, by_deny, by_copy, by_back_rewrite, by_back_unit_del, by_resolve, by_hyper, by_ur, by_factor, by_para, by_xx_res};

/// Tokens begin with one line's words at most.
pub fn one_reading()
    ensures { (f : Spelling) (ts : List Lexeme) (w v : Written) (n m : ℕ)
        → AreFirstWords f ts w n → AreFirstWords f ts v m → (w ≡ v) × (n ≡ m) }
{}

/// What is written is what is meant.
pub fn words_mean()
    ensures { (f : First) → first_word_of f ≡ meant (written_first f) }
{}

/// Words of lines, and tokens that are none.
pub fn worked()
    ensures goal { SaysWords (line_words Formula) (tokens_of "[goal].") (written as_goal []) }
    ensures input { SaysWords (line_words Either) (tokens_of "[clausify(3)].")
        (written (by_clausify 3) []) }
    ensures hyper { SaysWords (line_words Either) (tokens_of "[hyper(4,a,5,b,c,6,a),flip(a)].")
        (written (by_hyper 4 (satellite 0 5 1 ∷ satellite 2 6 0 ∷ [])) (flipped 0 ∷ [])) }
    ensures para { SaysWords (line_words Either)
        (tokens_of "[para(7(a,1),8(b,2,1)),merge(c),xx(a)].")
        (written (by_para 7 0 1 8 1 (2 ∷ 1 ∷ [])) (merged 2 ∷ reflexive 0 ∷ [])) }
    ensures rewrite { SaysWords (line_words Either)
        (tokens_of "[back_rewrite(4),rewrite([5(a,1,2),6(b,1)]),unit_del(b,9)].")
        (written (by_back_rewrite 4) (rewritten 5 0 (1 ∷ 2 ∷ []) ∷ rewritten 6 1 (1 ∷ [])
        ∷ unit_deleted 1 9 ∷ [])) }
    ensures stated { SaysWords (line_words Either) (tokens_of "[assumption].")
        (written as_assumption []) }
    ensures denial { SaysWords (line_words Either) (tokens_of "[deny(3)].")
        (written (by_deny 3) []) }
    ensures copy { SaysWords (line_words Either) (tokens_of "[copy(3)].") (written (by_copy 3) []) }
    ensures deleted { SaysWords (line_words Either) (tokens_of "[back_unit_del(3)].")
        (written (by_back_unit_del 3) []) }
    ensures ur { SaysWords (line_words Either) (tokens_of "[ur(4,a,5,b)].")
        (written (by_ur 4 (satellite 0 5 1 ∷ [])) []) }
    ensures factor { SaysWords (line_words Either) (tokens_of "[factor(3,a,c)].")
        (written (by_factor 3 0 2) []) }
    ensures reflexivity { SaysWords (line_words Either) (tokens_of "[xx_res(3,b)].")
        (written (by_xx_res 3 1) []) }
    ensures far { SaysWords (line_words Either) (tokens_of "[resolve(1,z,2,ab)].")
        (written (by_resolve 1 (satellite 25 2 27)) []) }
    ensures clause { SaysWords (line_words Clause) (tokens_of "[copy(3)].")
        (written (by_copy 3) []) }
    ensures no_formula { IsBadWordToken (line_words Clause) (tokens_of "[goal].") 1 }
    ensures formula { IsBadWordToken (line_words Formula) (tokens_of "[copy(5)].") 1 }
    ensures no_group { IsBadWordToken (line_words Either) (tokens_of "[hyper(4)].") 4 }
    ensures no_rewriting { IsBadWordToken (line_words Either)
        (tokens_of "[copy(1),rewrite([])].") 9 }
    ensures zeros { IsBadWordToken (line_words Either) (tokens_of "[copy(07)].") 3 }
    ensures none_behind { IsBadWordToken (line_words Either) (tokens_of "[deny(2),flip(a)].") 5 }
    ensures cut_off { IsBadWordToken (line_words Either) (tokens_of "[xx_res(2,a") 6 }
{}
