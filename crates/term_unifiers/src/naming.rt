// The nodes of variables: few are looked through one by one, further ones are found in a tree.
ghost use Rattle.std.specs.BTreeMap.{is_at};
ghost use Rattle.std.specs.Map.{lookup};
ghost use Rattle.std.specs.Ordering.{nat_cmp};
ghost use Rattle.std.specs.Prelude.{◌≡◌, ℕ, Some, None, false, IfOk, OnOk};
ghost use Rattle.term_unifiers.specs.Named.{node_named};

use std::alloc::{AllocError, Global};
use std::collections::BTreeMap;

// How many variables are few.
const FEW: usize = 16;

/// Variables with their nodes: the first ones, and those that came when there were many of these.
#[derive(Drop)]
pub struct VariableNodes {
    pub few: Vec<(u128, usize)>,
    pub others: BTreeMap<u128, usize>,
}

/// No variables, and room for the first ones of so many.
pub fn no_variables(alloc: Global, room: usize) -> Result<VariableNodes, AllocError>
    ensures { IfOk result (λ v. (x : ℕ) → node_named v x ≡ None) }
{
    Ok(VariableNodes {
        few: Vec::with_capacity(alloc, room.min(FEW))?,
        others: BTreeMap::new(alloc),
    })
}

/// No variables, and no memory.
pub fn empty_variables(alloc: Global) -> VariableNodes
    ensures { (x : ℕ) → node_named result x ≡ None }
{
    VariableNodes {
        few: Vec::new(alloc),
        others: BTreeMap::new(alloc),
    }
}

// The node of a variable among the first ones.
#[tactic(auto, using(crate::proofs::Looking::look_here, crate::proofs::Looking::look_behind, crate::proofs::Looking::look_end))]
fn node_among(few: &[(u128, usize)], x: u128) -> Option<usize>
    ensures { result ≡ lookup (is_at (nat_cmp x)) few.now }
{
    for (y, n) in few {
        if x == *y {
            return Some(*n);
        }
    }
    None
}

/// The node of a variable, if it has one.
pub fn node_of(variables: &VariableNodes, x: u128) -> Option<usize>
    ensures { result ≡ node_named variables.now x }
{
    match node_among(variables.few.as_slice(), x) {
        Some(n) => Some(n),
        None => variables.others.get(&x).copied(),
    }
}

/// A variable that has no node gets one.
pub fn name_node(variables: &mut VariableNodes, x: u128, n: usize) -> Result<(), AllocError>
    requires { node_named variables.old x ≡ None }
    ensures here { OnOk result (node_named variables.new x ≡ Some n) }
    ensures others { OnOk result ((q : ℕ) → is_at (nat_cmp x) q ≡ false
        → node_named variables.new q ≡ node_named variables.old q) }
{
    if variables.few.len() < FEW {
        variables.few.push((x, n))?;
        Ok(())
    } else {
        variables.others.insert(x, n)?;
        Ok(())
    }
}
