//! A trace as a reader of JSON finds it.

ghost use Rattle.sd_examples.specs.Traces.{Counts, number_of_events};
ghost use Rattle.serde_json.specs.View.{view};
ghost use Rattle.std.specs.Prelude.{◌≡◌, IfOk};

use serde_json::Value;
use std::alloc::{AllocError, Global};

/// How many events a trace has, None where it has no array of events.
fn number_of_events(trace: &Value) -> Option<usize>
    ensures { result ≡ number_of_events (view trace.now) }
{
    Some(trace.get("traceEvents")?.as_array()?.len())
}

/// How many events the text has, which is JSON with an array `traceEvents`. None where it is not.
pub fn count_events(alloc: Global, text: &[u8]) -> Result<Option<usize>, AllocError>
    ensures { IfOk result (Counts text.now) }
{
    match Value::from_slice(alloc, text) {
        Ok(trace) => Ok(number_of_events(&trace)),
        Err(error) if error.is_memory() => Err(AllocError),
        Err(_) => Ok(None),
    }
}
