// Whether the time is over.
ghost use Rattle.std.specs.Prelude.{MatchOption};
ghost use Rattle.mace_cells.specs.Readings.{ReadsOn};
ghost use Rattle.ladr_io.specs.Watch.{IsEarly, IsLate};

use ladr_io::Clock;

/// Reads the clock where there is a stop; a reading that reached it is answered.
pub fn late<C: Clock>(stop: Option<u128>, clock: &mut C) -> Option<u64>
    requires { IsEarly stop (C.times clock.old) }
    ensures goes { ReadsOn stop 1 (C.times clock.old) (C.times clock.new) }
    ensures late { MatchOption result (IsEarly stop (C.times clock.new))
        (λ last. IsLate stop (C.times clock.new) last) }
{
    let Some(stop) = stop else {
        return None;
    };
    let now = clock.read();
    if u128::from(now) < stop {
        None
    } else {
        Some(now)
    }
}
