// The models of a problem worked out, and a clock's readings: the functions do nothing, and their
// contracts are the examples.
ghost use Rattle.std.specs.Prelude.{ℕ, ◌≡◌, None, Some};
ghost use Rattle.mace_search.specs.Models.{IsModel};
ghost use Rattle.ladr_io.specs.Watch.{IsEarly, IsLate};
ghost use Rattle.mace_search.specs.Worked.{spared, tables, single, readings};

/// Of two elements `a` is one and `p` holds of the other: no model where `p` holds of none, or of `a`, or where `a` is no element. A
/// single element gives none.
pub fn worked()
    ensures models { IsModel spared 2 (tables 0 0 1) × IsModel spared 2 (tables 1 1 0) }
    ensures empty { ¬ IsModel spared 2 (tables 0 0 0) }
    ensures spoiled { ¬ IsModel spared 2 (tables 0 1 0) × ¬ IsModel spared 2 (tables 1 1 1) }
    ensures beyond { ¬ IsModel spared 2 (tables 2 0 1) }
    ensures alone { ¬ IsModel spared 1 (single 0) × ¬ IsModel spared 1 (single 1) }
{}

/// Of a stop at 10 and the readings behind the first: 9 is before it, and 10 reaches it. The first
/// itself, even at the stop, is not asked. Once a reading reached the stop, a further one is
/// neither early nor late; with no stop none is late.
pub fn worked_readings()
    ensures before { IsEarly (Some 10) (readings 2 0 9) × ¬ IsLate (Some 10) (readings 2 0 9) 9 }
    ensures reached { IsLate (Some 10) (readings 3 9 10) 10
        × ¬ IsEarly (Some 10) (readings 3 9 10) }
    ensures first { IsEarly (Some 9) (readings 1 0 9) × IsLate (Some 9) (readings 2 0 9) 9 }
    ensures earlier { ¬ IsLate (Some 10) (readings 4 11 12) 12
        × ¬ IsEarly (Some 10) (readings 4 11 9) }
    ensures no_stop { (last : ℕ) → IsEarly None (readings 2 0 last)
        × ¬ IsLate None (readings 2 0 last) last }
{}
