// Laws of cells and ground instances: the functions do nothing, and their contracts are the laws.
ghost use Rattle.std.specs.Prelude.{◌≡◌, [], ◌∷◌, None, Some};
ghost use Rattle.fol_core.specs.declared.symbols.Kind.TheVariants.{Function, Relation};
ghost use Rattle.mace_ground.specs.Cells.{cell, cell_at, cells_in, found};
ghost use Rattle.mace_ground.specs.GroundLaws.{CellsByNumber};
ghost use Rattle.mace_ground.specs.Instances.{InstancesSuffice, IsInstance, ground_literals};
ghost use Rattle.mace_ground.specs.Worked.{blocks, clause, less, next};

/// A clause is true exactly where its ground instances are.
pub fn instances_suffice()
    ensures { InstancesSuffice }
{}

/// The cell of a symbol and its arguments has a number of its own.
pub fn cells_by_number()
    ensures { CellsByNumber }
{}

/// Where there are three elements a constant has one cell, a relation of two arguments nine and a function of one three: the
/// cells are numbered in this order. A clause of two literals and two variables has nine instances, so 18 ground literals.
pub fn worked()
    ensures many { cells_in 3 blocks ≡ 13 }
    ensures constant { cell_at 3 blocks 0 ≡ cell Function 5 [] }
    ensures first { cell_at 3 blocks 1 ≡ cell Relation 2 (0 ∷ 0 ∷ []) }
    ensures later { cell_at 3 blocks 6 ≡ cell Relation 2 (1 ∷ 2 ∷ []) }
    ensures last { cell_at 3 blocks 12 ≡ cell Function 7 (2 ∷ []) }
    ensures found { (found 3 blocks 2 ≡ Some (1, less)) × (found 3 blocks 7 ≡ Some (10, next))
        × (found 3 blocks 6 ≡ None) }
    ensures literals { ground_literals 3 (clause ∷ clause ∷ []) ≡ 36 }
    ensures instance { IsInstance 3 clause (2 ∷ 0 ∷ []) × ¬ IsInstance 3 clause (2 ∷ 3 ∷ [])
        × ¬ IsInstance 3 clause (2 ∷ []) }
{}
