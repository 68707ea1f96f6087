// The index.
ghost use Rattle.std.specs.Prelude.{ℕ, ◌≡◌, ◌+◌, ◌<◌, ◌≤◌, [], false, length, remove, slice_get, IfOk, OnOk, OnErr};
ghost use Rattle.std.specs.List.{Contains};
ghost use Rattle.std.specs.List.Sorted.{IsStrictlyIncreasing};
ghost use Rattle.fol_core.specs.TermView.{tree_of};
ghost use Rattle.discrim_tree.specs.Beginnings.{count_beginnings};
ghost use Rattle.discrim_tree.specs.Entries.{indexed, has_number, with_entry, without_entry, numbers_found, NumbersRise};
ghost use Rattle.discrim_tree.specs.Linear.{passes_linear};
ghost use Rattle.discrim_tree.specs.Seeking.{passes};
ghost use Rattle.discrim_tree.specs.Terms.{has_instance, can_unify};
ghost use Rattle.discrim_tree.specs.Tries.{count_linear, count_up_to, HasRisen};
ghost use Rattle.discrim_tree.specs.declared.sought.Sought.TheVariants.{Generalizations, Instances, Unifiable};

use crate::edge::path_of;
use crate::entry::IndexEntry;
use crate::hints::Hints;
use crate::nodes::Nodes;
use crate::once::tell;
use crate::seeking::{first, found, near, place_of};
use crate::sought::Sought;
use crate::tries::Tries;
use fol_core::Term;
use packed_terms::PackedTerm;
use std::alloc::{AllocError, Global};
use std::marker::Model;

/// Terms under numbers; contracts see the entries by rising number.
#[derive(Drop)]
pub struct Index {
    // By rising number.
    entries: Vec<IndexEntry>,
    // Where they may stand; most of it is right.
    hints: Hints,
    // A tree whose paths lead to the entries' numbers and to no others, and that has a number at each node or below it.
    nodes: Nodes,
}

impl Model for Index {
    ghost use Rattle.std.specs.Prelude.{List};
    ghost use Rattle.discrim_tree.specs.Entries.{Indexed, NumbersRise, coded_entries};

    ghost Value = { List Indexed };

    ghost coded = { coded_entries };

    ghost use Rattle.discrim_tree.specs.View.{all_indexed};

    ghost view = { λ a. all_indexed a.entries.items };

    ghost use Rattle.discrim_tree.specs.Linear.{AreTold};
    ghost use Rattle.discrim_tree.specs.Seeking.{AreReached, AreOnly};
    ghost use Rattle.discrim_tree.specs.Trees.{AllUsed, IsTree};

    ghost invariant = { λ a. NumbersRise (all_indexed a.entries.items) × AreReached a.nodes.items a.entries.items
        × AreOnly a.nodes.items a.entries.items × IsTree a.nodes.items × AllUsed a.nodes.items
        × AreTold a.entries.items };
}

impl Index {
    /// No entries.
    #[tactic(auto, using(crate::proofs::Only::empty_only, crate::proofs::Trees::empty_tree, crate::proofs::Trees::empty_used))]
    pub fn new(alloc: Global) -> Index
        ensures { result ≡ [] }
    {
        Index {
            entries: Vec::new(alloc),
            hints: Hints::new(alloc),
            nodes: Nodes::new(alloc),
        }
    }

    /// A term under a number that no entry has.
    #[tactic(auto, using(crate::proofs::Placing::entry_placed, crate::proofs::Placing::numbers_rise_on))]
    pub fn insert(&mut self, number: u64, term: &Term) -> Result<(), AllocError>
        requires { has_number number self.old ≡ false }
        ensures ok { OnOk result (self.new
            ≡ with_entry (indexed number (tree_of term.now)) self.old) }
        ensures err { OnErr result (self.new ≡ self.old) }
    {
        let alloc = *self.entries.allocator();
        let tree = PackedTerm::new(alloc, term)?;
        let path = path_of(alloc, term)?;
        let told = tell(alloc, term)?;
        let place = place_of(&self.entries, number);
        self.entries.reserve(1)?;
        self.nodes.put(alloc, &path, number)?;
        self.entries
            .insert(place, IndexEntry { number, tree, told })?;
        self.hints.renew(&self.entries, place);
        Ok(())
    }

    /// Takes out the entry of a number, where there is one.
    #[tactic(auto, using(crate::proofs::Placing::entry_out, crate::proofs::Placing::none_to_take, crate::proofs::Placing::rise_kept))]
    pub fn remove(&mut self, number: u64)
        ensures { self.new ≡ without_entry number self.old }
    {
        let place = place_of(&self.entries, number);
        if place < self.entries.len() {
            let entry = &self.entries[place];
            if entry.number == number {
                self.nodes.take_packed(&entry.tree, number);
                take_out(&mut self.entries, place);
                self.hints.renew(&self.entries, place);
            }
        }
    }

    /// How many nodes the tree of the entries' paths has, but for its root: one for each of their distinct beginnings.
    pub fn nodes(&self) -> u64
        ensures { result ≡ count_beginnings self.now }
    {
        self.nodes.count()
    }

    /// The numbers of the entries that would be sought if each occurrence of a variable were a variable of its own, rising, with
    /// no test of an entry. Those that are sought are among them.
    pub fn near(&self, sought: &Sought, t: &Term) -> Result<Vec<u64>, AllocError>
        ensures near { IfOk result (λ near. near.items
            ≡ numbers_found (passes_linear sought.now (tree_of t.now)) self.now) }
        ensures rise { IfOk result (λ near. IsStrictlyIncreasing near.items) }
        ensures whole { IfOk result (λ near. (n : ℕ) → Contains (numbers_found (λ s. passes sought.now (tree_of t.now) s) self.now) n
            → Contains near.items n) }
    {
        near(
            *self.entries.allocator(),
            &self.entries,
            &self.nodes,
            sought,
            t,
        )
    }

    /// The numbers of the entries of which the term is an instance, rising.
    pub fn generalizations(&self, t: &Term, tries: &mut Tries) -> Result<Vec<u64>, AllocError>
        ensures found { IfOk result (λ found. found.items
            ≡ numbers_found (λ s. has_instance s (tree_of t.now)) self.now) }
        ensures rise { NumbersRise self.now }
        ensures on { tries.old ≤ tries.new }
        ensures within { tries.new ≤ tries.old + count_linear Generalizations (tree_of t.now) self.now }
        ensures tested { OnOk result (HasRisen (count_linear Generalizations (tree_of t.now) self.now) tries.old tries.new) }
    {
        found(
            *self.entries.allocator(),
            &self.entries,
            &self.hints,
            &self.nodes,
            &Sought::Generalizations,
            t,
            tries,
        )
    }

    /// The least number of an entry of which the term is an instance.
    pub fn first_generalization(
        &self,
        t: &Term,
        tries: &mut Tries,
    ) -> Result<Option<u64>, AllocError>
        ensures found { IfOk result (λ found. found
            ≡ slice_get (numbers_found (λ s. has_instance s (tree_of t.now)) self.now) 0) }
        ensures on { tries.old ≤ tries.new }
        ensures within { tries.new ≤ tries.old + count_linear Generalizations (tree_of t.now) self.now }
        ensures no_more { IfOk result (λ found. tries.new
            ≤ tries.old + count_up_to Generalizations (tree_of t.now) self.now found) }
        ensures tested { IfOk result (λ found. HasRisen (count_up_to Generalizations (tree_of t.now) self.now found) tries.old tries.new) }
    {
        first(
            *self.entries.allocator(),
            &self.entries,
            &self.hints,
            &self.nodes,
            &Sought::Generalizations,
            t,
            tries,
        )
    }

    /// The numbers of the entries that are instances of the term, rising.
    pub fn instances(&self, t: &Term, tries: &mut Tries) -> Result<Vec<u64>, AllocError>
        ensures found { IfOk result (λ found. found.items
            ≡ numbers_found (λ s. has_instance (tree_of t.now) s) self.now) }
        ensures rise { NumbersRise self.now }
        ensures on { tries.old ≤ tries.new }
        ensures within { tries.new ≤ tries.old + count_linear Instances (tree_of t.now) self.now }
        ensures tested { OnOk result (HasRisen (count_linear Instances (tree_of t.now) self.now) tries.old tries.new) }
    {
        found(
            *self.entries.allocator(),
            &self.entries,
            &self.hints,
            &self.nodes,
            &Sought::Instances,
            t,
            tries,
        )
    }

    /// The numbers of the entries that unify with the term, where each has variables of its own, rising.
    pub fn unifiable(&self, t: &Term, tries: &mut Tries) -> Result<Vec<u64>, AllocError>
        ensures found { IfOk result (λ found. found.items
            ≡ numbers_found (λ s. can_unify s (tree_of t.now)) self.now) }
        ensures rise { NumbersRise self.now }
        ensures on { tries.old ≤ tries.new }
        ensures within { tries.new ≤ tries.old + count_linear Unifiable (tree_of t.now) self.now }
        ensures tested { OnOk result (HasRisen (count_linear Unifiable (tree_of t.now) self.now) tries.old tries.new) }
    {
        found(
            *self.entries.allocator(),
            &self.entries,
            &self.hints,
            &self.nodes,
            &Sought::Unifiable,
            t,
            tries,
        )
    }
}

// The entry at a place goes.
fn take_out(entries: &mut Vec<IndexEntry>, place: usize)
    requires { place < length entries.old.items }
    ensures { entries.new.items ≡ remove entries.old.items place }
{
    let _entry = entries.remove(place);
}
