//! What is proved, told to the optimiser.

ghost use Rattle.std.specs.Prelude.{◌≡◌, true};

/// Tells the optimiser that this holds, as the caller has proved, so that it makes no test for the other case. (Where `unreachable!` stands alone the test
/// stays, with a trap behind it.) In that other case, which never comes, a byte would be written behind a reference of a list that has none.
#[inline(always)]
pub fn known(holds: bool)
    requires { holds ≡ true }
{
    if !holds {
        let mut nothing: [&mut u8; 0] = [];
        *nothing[0] = 0;
    }
}
