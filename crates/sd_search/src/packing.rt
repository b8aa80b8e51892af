//! States as bytes: with its rank for each key, a state has the same bytes as each other whose keys have the same order.

ghost use Rattle.std.specs.Prelude.{◌≡◌, IfOk, OnOk};
ghost use Rattle.sd_encoding.specs.Encoding.{IsHeld, encoded};
ghost use Rattle.sd_encoding.specs.Ranks.{ranked};
ghost use Rattle.sd_state.specs.declared.states.State.{State as StateOf};

use sd_encoding::{decode, encode};
use sd_state::State;
use std::alloc::{AllocError, Global};

/// The bytes of a state with its rank for each key, in the place of those of `room`.
pub(crate) fn pack(state: &State, room: Vec<u8>) -> Result<Vec<u8>, AllocError>
    ensures bytes { IfOk result (λ bytes. bytes.items ≡ encoded (ranked state.now)) }
    ensures held { OnOk result (IsHeld (ranked state.now)) }
{
    encode(state, room)
}

/// The state that has these bytes.
pub(crate) fn unpack(alloc: Global, bytes: &[u8]) -> Result<State, AllocError>
    requires spelled { (s : StateOf) × IsHeld s × (bytes.now ≡ encoded s) }
    ensures held { IfOk result IsHeld }
    ensures bytes { IfOk result (λ s. bytes.now ≡ encoded s) }
{
    match decode(alloc, bytes)? {
        Some(state) => Ok(state),
        None => unreachable!(),
    }
}
