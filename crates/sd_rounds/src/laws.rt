//! A law of runs that go in rounds, as the contract of a function that does nothing.

ghost use Rattle.std.specs.Prelude.{◌≡◌, ℕ, List};
ghost use Rattle.sd_machine.specs.Runs.{IsSerial};

use sd_types::{CpuId, Entry, Work};

/// Two runs of a workload that go in rounds of the same orders are equal: `run_rounds` returns the one there is.
pub fn one_serial()
    ensures { (w : Work) (orders : ℕ → List CpuId) (es fs : List Entry) → IsSerial w orders es → IsSerial w orders fs → es ≡ fs }
{}
