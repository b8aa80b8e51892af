//! What an item tells of itself, by which queues order and find it.
ghost use Rattle.std.specs.Prelude.{◌≡◌, ℕ, ℤ};
ghost use Rattle.sd_boxq.specs.Order.{precedes_keyed};
ghost use Rattle.sd_boxq.specs.Search.{precedes_by};

/// An item with a rank, a key and an id.
///
/// The greater rank comes first, and of equal ranks the smaller key (Solaris Internals, dispatcher:
/// a rank is an effective priority; keys are this project's own).
pub trait Ranked {
    ghost rank: { Self → ℕ };

    ghost key: { Self → ℤ };

    ghost id: { Self → ℕ };

    /// The rank: the greater comes first.
    fn rank(&self) -> u8
        ensures { result ≡ rank self.now };

    /// The key: of equal ranks the smaller comes first.
    fn key(&self) -> i64
        ensures { result ≡ key self.now };

    /// The id, by which an item is found.
    fn id(&self) -> u32
        ensures { result ≡ id self.now };
}

/// Whether an item of this rank and key precedes `y`: the greater rank first, and of equal ranks the smaller key.
#[inline(always)]
pub(crate) fn precedes<T: Ranked>(rank: u8, key: i64, y: &T) -> bool
    ensures { result ≡ precedes_by T.rank T.key rank key y.now }
{
    let other = y.rank();
    other < rank || rank == other && key < y.key()
}

/// The smaller key first, and of equal keys the smaller id.
pub(crate) fn precedes_keyed<T: Ranked>(x: &T, y: &T) -> bool
    ensures { result ≡ precedes_keyed T.key T.id x.now y.now }
{
    x.key() < y.key() || x.key() == y.key() && x.id() < y.id()
}
