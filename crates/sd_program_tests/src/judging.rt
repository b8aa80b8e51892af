//! How cases are judged. A test returns nothing and calls these, since one that returns a fault and formats what is wrong takes long to prove.

use std::alloc::AllocError;
use std::process::Abort;

/// No case is wrong, of which the first would be told by its index, and memory did not run out.
pub(crate) fn judge<R: Abort>(rt: &R, wrong: Result<Option<usize>, AllocError>) {
    assert!(rt; matches!(wrong, Ok(None)), "case {wrong:?}");
}

/// It is so, and memory did not run out.
pub(crate) fn is_so<R: Abort>(rt: &R, is_so: Result<bool, AllocError>) {
    assert!(rt; matches!(is_so, Ok(true)));
}
