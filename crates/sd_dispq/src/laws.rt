//! Laws of lists in order of rank and key, each as the contract of a function that does nothing.
ghost use Rattle.sd_boxq.specs.Order.{precedes};
ghost use Rattle.sd_dispq.specs.Laws.{BackIsRanked, FrontIsRanked, FirstIsBest, OrderIsKept};

use sd_boxq::Ranked;

/// An item whose key is greater than those of all items goes to the back of its rank by its rank and key.
pub fn back_is_ranked<T: Ranked>()
    ensures { BackIsRanked T.rank T.key }
{}

/// An item whose key is smaller than those of all items goes to the front of its rank by its rank and key.
pub fn front_is_ranked<T: Ranked>()
    ensures { FrontIsRanked T.rank T.key }
{}

/// The first item of a list in order of rank and key is the best: no item has a greater rank, or an equal
/// rank and a smaller key.
pub fn first_is_best<T: Ranked>()
    ensures { FirstIsBest T.rank T.key }
{}

/// A list in order of rank and key stays so when an item comes by its rank and key, when its first item or
/// one with an id leaves, and when an item makes room for one alike.
pub fn order_is_kept<T: Ranked>()
    ensures { OrderIsKept T.rank T.key T.id }
{}
