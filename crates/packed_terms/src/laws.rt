// Packed terms worked out: the function does nothing, and its contract is the example.
ghost use Rattle.packed_terms.specs.Worked.{WorkedHeads};

/// The heads of some terms.
pub fn worked()
    ensures { WorkedHeads }
{}
