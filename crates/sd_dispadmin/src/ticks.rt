//! Quanta in ticks.

ghost use Rattle.std.specs.Prelude.{◌≡◌, ◌≤◌};
ghost use Rattle.sd_types.specs.Limits.{greatest_resolution, most_quantum_units};
ghost use Rattle.sd_types.specs.Ticks.{ticks_of};

/// A quantum in units of 1/RES second as ticks, of which there are `hz` in a second: the least number of ticks that
/// last as long. No sum or product overflows.
#[tactic(auto, using(crate::proofs::TicksLemmas::most_units, crate::proofs::TicksLemmas::some_ticks))]
pub fn ticks(quantum: u64, hz: u32, res: u64) -> u64
    requires some_quantum { 1 ≤ quantum }
    requires most_quantum { quantum ≤ most_quantum_units }
    requires some_hz { 1 ≤ hz }
    requires some_res { 1 ≤ res }
    requires most_res { res ≤ greatest_resolution }
    ensures value { result ≡ ticks_of quantum hz res }
    ensures some { 1 ≤ result }
{
    (quantum * u64::from(hz) + (res - 1)) / res
}
