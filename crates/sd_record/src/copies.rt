//! What a thread keeps, copied.

ghost use Rattle.std.specs.Prelude.{◌≡◌};

use arrayvec::ArrayVec;
use sd_types::ThreadBody;

/// The same items in a list of their own.
pub fn copied<T: Copy + Default, const N: usize>(items: &ArrayVec<T, N>) -> ArrayVec<T, N>
    ensures { result.items ≡ items.now.items }
{
    match ArrayVec::try_from(items.as_slice()) {
        Ok(copy) => copy,
        Err(_) => unreachable!(),
    }
}

/// The same body once more.
pub fn copied_body(body: &ThreadBody) -> ThreadBody
    ensures { result ≡ body.now }
{
    ThreadBody {
        class: body.class,
        willed: copied(&body.willed),
        held: copied(&body.held),
        op: body.op,
        run_left: body.run_left,
        back: body.back,
        last: body.last,
        left_at: body.left_at,
        looped: body.looped,
        bound: body.bound,
    }
}
