// Numbers leave the ends of the paths of packed terms.
ghost use Rattle.std.specs.Prelude.{◌≡◌};
ghost use Rattle.discrim_tree.specs.Nodes.{Ends, KeepsOthers, KeepsPaths, Reaches};
ghost use Rattle.discrim_tree.specs.Paths.{path_of};
ghost use Rattle.discrim_tree.specs.Trees.{AllUsed, IsTree};

use crate::edge::edge_of;
use crate::nodes::Nodes;
use packed_terms::PackedTerm;

impl Nodes {
    // The node to which the path of a packed term leads.
    fn end_of_packed(&self, tree: &PackedTerm) -> Option<usize>
        ensures { Ends self.now.items (path_of tree.now) result }
    {
        let mut at = 0;
        for i in 0..tree.len() {
            let head = tree.head(i)?;
            at = self.child(at, edge_of(head))?;
        }
        Some(at)
    }

    /// A number leaves the end of a packed term's path; nodes without numbers and branches go.
    pub fn take_packed(&mut self, tree: &PackedTerm, number: u64)
        ensures others { KeepsOthers number self.old.items self.new.items }
        ensures fewer { KeepsPaths self.new.items self.old.items }
        ensures gone { Reaches self.new.items 0 (path_of tree.now) number → ⊥ }
        ensures tree { IsTree self.old.items → IsTree self.new.items }
        ensures used { IsTree self.old.items → AllUsed self.old.items → AllUsed self.new.items }
    {
        match self.end_of_packed(tree) {
            None => {}
            Some(end) => self.take_at(end, number),
        }
    }
}
