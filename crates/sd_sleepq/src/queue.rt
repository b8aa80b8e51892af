//! The sleep queue of one channel, in which a sleeper that comes behind all others is put at the back at once.
ghost use Rattle.std.specs.Prelude.{◌≡◌, ℕ, ℤ, [], slice_get};
ghost use Rattle.std.specs.Option.{option_copied};
ghost use Rattle.sd_sleepq.specs.Ends.{is_at_end, EndsBy};
ghost use Rattle.sd_boxq.specs.Order.{insert_ranked, find_id, drop_id, find_below, drop_below};

use sd_boxq::{BoxQueue, Items, Node, Ranked};
use std::marker::Model;

/// A place in the order of rank and key.
#[derive(Clone, Copy)]
struct OrderPlace {
    rank: u8,
    key: i64,
}

/// The sleepers of one channel, each of which comes by its rank and key. Contracts see the list of them.
///
/// It keeps a place behind which nobody stands: that of the sleeper who came to the back last, or one before all while the queue is
/// empty. Most sleepers do not precede that place, since a key tells when they came, and no search is made for theirs.
#[derive(Drop)]
pub(crate) struct SleepQueue<T: Ranked> {
    boxes: BoxQueue<T>,
    end: OrderPlace,
}

impl<T: Ranked> Model for SleepQueue<T> {
    ghost use Rattle.std.specs.Prelude.{List};
    ghost use Rattle.sd_sleepq.specs.Ends.{EndsBy};

    ghost Value = { List T };

    ghost view = { λ q. q.boxes };

    ghost invariant = { λ q. EndsBy T.rank T.key q.end.rank q.end.key q.boxes };
}

impl OrderPlace {
    /// The place before all others.
    fn first() -> OrderPlace {
        OrderPlace {
            rank: u8::MAX,
            key: i64::MIN,
        }
    }

    fn of<T: Ranked>(item: &T) -> OrderPlace
        ensures rank { result.rank ≡ T.rank item.now }
        ensures key { result.key ≡ T.key item.now }
    {
        OrderPlace {
            rank: item.rank(),
            key: item.key(),
        }
    }

    /// It does not precede the other place.
    fn is_at_end(self, end: OrderPlace) -> bool
        ensures { result ≡ is_at_end end.rank end.key self.rank self.key }
    {
        self.rank < end.rank || self.rank == end.rank && end.key <= self.key
    }
}

/// A place behind which nobody stands, once some may have left.
fn end_of<T>(boxes: &BoxQueue<T>, end: OrderPlace) -> OrderPlace
    ensures { (rank : T → ℕ) (key : T → ℤ) → EndsBy rank key end.rank end.key boxes.now → EndsBy rank key result.rank result.key boxes.now }
{
    if boxes.is_empty() {
        OrderPlace::first()
    } else {
        end
    }
}

impl<T: Ranked> SleepQueue<T> {
    /// An empty queue.
    pub(crate) fn new() -> SleepQueue<T>
        ensures { result ≡ [] }
    {
        SleepQueue {
            boxes: BoxQueue::new(),
            end: OrderPlace::first(),
        }
    }

    /// Puts the sleeper by its rank and key.
    #[tactic(auto, using(crate::proofs::Ends::at_end, crate::proofs::Ends::ends_there, crate::proofs::Ends::ends_as_before))]
    pub(crate) fn insert_ranked(&mut self, n: Node<T>)
        ensures { self.new ≡ insert_ranked T.rank T.key n self.old }
    {
        let place = OrderPlace::of(n.item());
        if place.is_at_end(self.end) {
            self.boxes.push_back(n);
            self.end = place;
        } else {
            self.boxes.insert_ranked(n);
        }
    }

    /// Takes the first sleeper with this id. `None` exactly where there is none.
    #[tactic(auto, using(crate::proofs::Ends::ends_once_left))]
    pub(crate) fn take_first(&mut self, id: u32) -> Option<Node<T>>
        ensures taken { result ≡ find_id T.id id self.old }
        ensures rest { self.new ≡ drop_id T.id id self.old }
    {
        let taken = self.boxes.take_first(id);
        self.end = end_of(&self.boxes, self.end);
        taken
    }

    /// Takes the first sleeper whose key is smaller than `below`. `None` exactly where there is none.
    #[tactic(auto, using(crate::proofs::Ends::ends_once_left))]
    pub(crate) fn take_below(&mut self, below: i64) -> Option<Node<T>>
        ensures taken { result ≡ find_below T.key below self.old }
        ensures rest { self.new ≡ drop_below T.key below self.old }
    {
        let taken = self.boxes.take_below(below);
        self.end = end_of(&self.boxes, self.end);
        taken
    }

    /// The first sleeper. `None` exactly where the queue is empty.
    pub(crate) fn first(&self) -> Option<&T>
        ensures { option_copied result ≡ slice_get self.now 0 }
    {
        self.boxes.first()
    }

    /// The first sleeper with this id. `None` exactly where there is none.
    pub(crate) fn find(&self, id: u32) -> Option<&T>
        ensures { option_copied result ≡ find_id T.id id self.now }
    {
        self.boxes.find(id)
    }

    /// The sleepers from the first one on.
    pub(crate) fn items(&self) -> Items<'_, T>
        ensures { result ≡ self.now }
    {
        self.boxes.items()
    }
}
