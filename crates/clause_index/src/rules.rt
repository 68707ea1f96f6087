// Rules, found by their left sides, and the terms that are known to be in normal form by them.
ghost use Rattle.std.specs.Prelude.{◌≡◌, ◌+◌, ◌≤◌, ◌==◌, not, [], IfOk, OnOk, OnErr, filter, is_some, length};
ghost use Rattle.std.specs.List.{find};
ghost use Rattle.std.specs.Option.{option_map};
ghost use Rattle.clause_index.specs.Entries.{left_sides};
ghost use Rattle.clause_index.specs.Normal.{HaveNoStep};
ghost use Rattle.discrim_tree.specs.Tries.{count_linear, count_up_to, HasRisen};
ghost use Rattle.discrim_tree.specs.declared.sought.Sought.TheVariants.{Generalizations};
ghost use Rattle.fol_core.specs.TermView.{tree_of};
ghost use Rattle.prover_steps.specs.HeldOrder.{numbers_of, IsNoneOf};
ghost use Rattle.prover_steps.specs.Rewriting.{rewritten_by};
ghost use Rattle.prover_steps.specs.Searching.{put_in, held_without};

use crate::lists::{leave_out_one, put_in, with_number};
use crate::normal_terms::NormalTerms;
use discrim_tree::{Index, Tries};
use fol_core::Term;
use held_clauses::{Held, rule_left};
use std::alloc::{AllocError, Global};
use std::marker::Model;
use std::mem;

/// Rules by rising number, with an index of their left sides, and terms that no rule fits in; contracts see the list of rules.
#[derive(Drop)]
pub struct RewriteRules {
    rules: Vec<Held>,
    lefts: Index,
    known: NormalTerms,
}

impl Model for RewriteRules {
    ghost use Rattle.std.specs.Prelude.{List};
    ghost use Rattle.std.specs.Coded.{coded_list};
    ghost use Rattle.held_clauses.specs.Holding.{HeldClause, coded_held};

    ghost Value = { List HeldClause };

    ghost coded = { coded_list coded_held };

    ghost use Rattle.clause_index.specs.Normal.{AreRules};

    ghost view = { λ a. a.rules.items };

    ghost invariant = { λ a. AreRules a.rules.items a.lefts a.known };
}

impl RewriteRules {
    /// No rules.
    pub fn new(alloc: Global) -> RewriteRules
        ensures { result ≡ [] }
    {
        RewriteRules {
            rules: Vec::new(alloc),
            lefts: Index::new(alloc),
            known: NormalTerms::new(alloc),
        }
    }

    /// Whether there are none.
    pub fn is_empty(&self) -> bool
        ensures { result ≡ (length self.now == 0) }
    {
        self.rules.is_empty()
    }

    /// The first rule that fits the term as a whole.
    pub fn first_for(&self, term: &Term, tries: &mut Tries) -> Result<Option<&Held>, AllocError>
        ensures first { IfOk result (λ o. option_map (λ r. r.now) o
            ≡ find (λ r. is_some (rewritten_by r (tree_of term.now))) self.now) }
        ensures on { tries.old ≤ tries.new }
        ensures within { tries.new ≤ tries.old
            + count_linear Generalizations (tree_of term.now) (left_sides self.now) }
        ensures no_more { OnOk result (tries.new ≤ tries.old
            + count_up_to Generalizations (tree_of term.now) (left_sides self.now)
            (option_map (λ r. r.number) (find (λ r. is_some (rewritten_by r (tree_of term.now))) self.now))) }
        ensures tested { OnOk result (HasRisen (count_up_to Generalizations (tree_of term.now) (left_sides self.now)
            (option_map (λ r. r.number) (find (λ r. is_some (rewritten_by r (tree_of term.now))) self.now)))
            tries.old tries.new) }
    {
        match self.lefts.first_generalization(term, tries)? {
            Some(number) => Ok(with_number(number, self.rules.as_slice())),
            None => Ok(None),
        }
    }

    /// Puts in a rule under a number that no other one has.
    pub fn put_in(&mut self, rule: Held) -> Result<(), AllocError>
        requires { IsNoneOf rule.number (numbers_of self.old) }
        ensures ok { OnOk result (self.new ≡ put_in rule self.old) }
        ensures err { OnErr result (self.new ≡ self.old) }
    {
        let number = rule.number();
        // What has no left side stands under a variable.
        let variable = Term::Var(0);
        let left = rule_left(&rule).unwrap_or(&variable);
        self.lefts.insert(number, left)?;
        self.known.forget();
        match put_in(rule, &mut self.rules) {
            Ok(()) => Ok(()),
            Err(error) => {
                self.lefts.remove(number);
                Err(error)
            }
        }
    }

    /// The terms that are known to be in normal form, handed out till they are handed in again.
    pub fn hand_out(&mut self, alloc: Global) -> NormalTerms
        ensures normal { HaveNoStep self.old result }
        ensures same { self.new ≡ self.old }
    {
        mem::replace(&mut self.known, NormalTerms::new(alloc))
    }

    /// Terms in normal form are handed in.
    pub fn hand_in(&mut self, known: NormalTerms)
        requires { HaveNoStep self.old known }
        ensures { self.new ≡ self.old }
    {
        self.known = known;
    }

    /// Takes out the rule with a number, if there is one.
    pub fn leave_out_one(&mut self, number: u64)
        ensures { self.new ≡ filter (λ r. not (r.number == number)) self.old }
    {
        self.lefts.remove(number);
        leave_out_one(number, &mut self.rules);
    }

    /// Takes out rules by their numbers.
    #[tactic(auto, using(crate::proofs::Removals::none_gone, crate::proofs::Removals::next_gone))]
    pub fn leave_out(&mut self, gone: &[Held])
        ensures { self.new ≡ held_without gone.now self.old }
    {
        for held in gone {
            self.leave_out_one(held.number());
        }
    }
}
