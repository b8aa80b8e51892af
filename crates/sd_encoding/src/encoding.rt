//! States as bytes.

ghost use Rattle.std.specs.Prelude.{◌≡◌, Some, OnOk, IfOk};
ghost use Rattle.sd_encoding.specs.Encoding.{encoded, state_in, IsHeld, StatesAreReadAgain, EncodingsDiffer};
ghost use Rattle.sd_encoding.specs.Ranks.{ranked};
ghost use Rattle.sd_state.specs.declared.states.State.{State};

use crate::bytes::spelled_in;
use crate::ranks::write_ranked;
use crate::states::read_state;
use crate::writer::Writer;
use sd_state::State;
use std::alloc::{AllocError, Global};

/// The bytes of a state with its rank for each key, in the place of those of `room`.
#[tactic(auto, unfolding(crate::specs::Encoding::encoded))]
pub fn encode(state: &State, room: Vec<u8>) -> Result<Vec<u8>, AllocError>
    ensures bytes { IfOk result (λ bytes. bytes.items ≡ encoded (ranked state.now)) }
    ensures held { OnOk result (IsHeld (ranked state.now)) }
{
    let mut writer = Writer::new(room);
    write_ranked(state, &mut writer)?;
    writer.finish()
}

/// The state that the bytes spell. `None` where they spell none that the program can hold.
pub fn decode(alloc: Global, bytes: &[u8]) -> Result<Option<State>, AllocError>
    ensures read { IfOk result (λ found. found ≡ state_in bytes.now) }
    ensures again { (s : State) → IsHeld s → bytes.now ≡ encoded s → IfOk result (λ found. found ≡ Some s) }
{
    let found = state_in(alloc, bytes)?;
    Ok(found)
}

/// The state whose numbers the bytes spell, all of them.
#[tactic(auto, unfolding(crate::specs::Encoding::state_in))]
fn state_in(alloc: Global, bytes: &[u8]) -> Result<Option<State>, AllocError>
    ensures { IfOk result (λ found. found ≡ state_in bytes.now) }
{
    let Some(spelled) = spelled_in(alloc, bytes)? else {
        return Ok(None);
    };
    let Some((state, rest)) = read_state(alloc, spelled.numbers())? else {
        return Ok(None);
    };
    if rest.is_empty() {
        Ok(Some(state))
    } else {
        Ok(None)
    }
}

/// What the bytes of a state spell is that state.
pub fn states_are_read_again()
    ensures { StatesAreReadAgain }
{}

/// States that differ have bytes that differ.
pub fn encodings_differ()
    ensures { EncodingsDiffer }
{}
