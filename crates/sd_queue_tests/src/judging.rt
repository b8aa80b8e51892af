//! How cases are judged. A test returns nothing and calls this, since one that returns a fault takes long to prove.

use std::alloc::AllocError;
use std::process::Abort;

/// It is so, and memory did not run out.
pub(crate) fn is_so<R: Abort>(rt: &R, is_so: Result<bool, AllocError>) {
    assert!(rt; matches!(is_so, Ok(true)));
}
