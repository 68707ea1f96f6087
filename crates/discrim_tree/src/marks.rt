// Numbers under lists of marks, of which a retrieval leaves out none where it answers.
ghost use Rattle.std.specs.Prelude.{ℕ, List, IfOk, IfSome, OnOk};
ghost use Rattle.std.specs.List.{Contains};
ghost use Rattle.std.specs.List.Sorted.{IsStrictlyIncreasing};
ghost use Rattle.discrim_tree.specs.Marks.{AreAmong, IsMarked, OthersStayMarked, StayMarked};

use crate::marking::{Meeting, path_of_marks};
use crate::nodes::Nodes;
use crate::seeking::put_in_order;
use std::alloc::{AllocError, Global};

// For how many nodes a walk has room at first.
const ROOM: usize = 64;

/// Numbers under lists of marks. A retrieval answers the numbers whose lists are sought and may answer others: whoever asks tests
/// what stands under them.
#[derive(Drop)]
pub struct MarkSieve {
    // A tree whose paths are the lists: a step for each mark.
    nodes: Nodes,
}

impl MarkSieve {
    /// No numbers.
    pub fn new(alloc: Global) -> MarkSieve
        ensures { (ms : List ℕ) (n : ℕ) → IsMarked result ms n → ⊥ }
    {
        MarkSieve {
            nodes: Nodes::new(alloc),
        }
    }

    /// A number under one more list of marks.
    pub fn put(&mut self, alloc: Global, marks: &[u64], number: u64) -> Result<(), AllocError>
        ensures others { StayMarked self.old self.new }
        ensures put { OnOk result (IsMarked self.new marks.now number) }
    {
        let path = path_of_marks(alloc, marks)?;
        self.nodes.put(alloc, &path, number)
    }

    /// A number is taken from under a list of marks.
    pub fn take(&mut self, marks: &[u64], number: u64)
        ensures others { OthersStayMarked number self.old self.new }
        ensures gone { IsMarked self.new marks.now number → ⊥ }
    {
        self.nodes.take_marked(marks, number);
    }

    /// The numbers under lists all of whose marks are among these, rising; others may be among them. None where it would take
    /// long: fewer nodes than so many are gone through.
    pub fn within(
        &self,
        alloc: Global,
        marks: &[u64],
        most: usize,
    ) -> Result<Option<Vec<u64>>, AllocError>
        ensures rise { IfOk result (λ o. IfSome o (λ ns. IsStrictlyIncreasing ns.items)) }
        ensures found { IfOk result (λ o. IfSome o (λ ns. (ms : List ℕ) (n : ℕ)
            → IsMarked self.now ms n → AreAmong ms marks.now → Contains ns.items n)) }
    {
        let mut waiting = Vec::with_capacity(alloc, ROOM)?;
        let mut numbers = Vec::new(alloc);
        waiting.push(0)?;
        if !self.nodes.within(&mut waiting, &mut numbers, marks, most)? {
            return Ok(None);
        }
        put_in_order(&mut numbers);
        Ok(Some(numbers))
    }

    /// The numbers under rising lists that have all of these marks, which rise; others may be among them. None where it
    /// would take long: fewer nodes than so many are gone through.
    pub fn over(
        &self,
        alloc: Global,
        marks: &[u64],
        most: usize,
    ) -> Result<Option<Vec<u64>>, AllocError>
        ensures rise { IfOk result (λ o. IfSome o (λ ns. IsStrictlyIncreasing ns.items)) }
        ensures found { IfOk result (λ o. IfSome o (λ ns. IsStrictlyIncreasing marks.now
            → (ms : List ℕ) (n : ℕ) → IsMarked self.now ms n → IsStrictlyIncreasing ms
            → AreAmong marks.now ms → Contains ns.items n)) }
    {
        let mut waiting = Vec::with_capacity(alloc, ROOM)?;
        let mut numbers = Vec::new(alloc);
        waiting.push(Meeting { node: 0, met: 0 })?;
        if !self.nodes.over(&mut waiting, &mut numbers, marks, most)? {
            return Ok(None);
        }
        put_in_order(&mut numbers);
        Ok(Some(numbers))
    }
}
