//! Queues of boxes: orders by hand, both ends, freeing, and a long queue; four values, and a value in a box of its own.
ghost use Rattle.std.specs.Prelude.{◌≡◌, IfOk, length, pos};

use crate::items::{Item, id_of, node, sent, taken};
use crate::judging::is_so;
use sd_boxq::{BoxQueue, Boxed, Four, Node, Ranked};
use std::alloc::AllocError;
use std::rc::Rc;
use std::test::Fail;

// Whether these are the ids of the first items, with 0 past the end.
fn are(queue: &BoxQueue<Item>, ids: &[u32]) -> bool {
    for (index, id) in ids.iter().enumerate() {
        if id_of(queue.item(index)) != *id {
            return false;
        }
    }
    true
}

// Puts an item in for each rank, key and id.
fn insert_ranked(
    rt: &HostRuntime,
    queue: &mut BoxQueue<Item>,
    rows: &[(u8, i64, u32)],
) -> Result<(), AllocError> {
    for row in rows {
        let (rank, key, id) = *row;
        queue.insert_ranked(node(rt, rank, key, id)?);
    }
    Ok(())
}

fn insert_keyed(
    rt: &HostRuntime,
    queue: &mut BoxQueue<Item>,
    rows: &[(u8, i64, u32)],
) -> Result<(), AllocError> {
    for row in rows {
        let (rank, key, id) = *row;
        queue.insert_keyed(node(rt, rank, key, id)?);
    }
    Ok(())
}

// Ids 3 and 5 have equal ranks and keys, so 5 comes behind 3, but by key and id 1 is before 4.
const ORDERED: [(u8, i64, u32); 5] = [(5, 20, 3), (9, 30, 2), (9, -7, 4), (5, 20, 5), (0, -7, 1)];

fn orders_by_rank(rt: &HostRuntime) -> Result<bool, AllocError> {
    let mut queue = BoxQueue::new();
    insert_ranked(rt, &mut queue, &ORDERED)?;
    Ok(are(&queue, &[4, 2, 3, 5, 1]) && id_of(queue.find(5)) == 5)
}

fn takes_by_key(queue: &mut BoxQueue<Item>) -> bool {
    taken(queue.take_below(20)) == 1
        && taken(queue.take_below(-7)) == 0
        && taken(queue.take_first(3)) == 3
}

fn orders_by_key(rt: &HostRuntime) -> Result<bool, AllocError> {
    let mut queue = BoxQueue::new();
    insert_keyed(rt, &mut queue, &ORDERED)?;
    let is_ordered = are(&queue, &[1, 4, 3, 5, 2]);
    let is_taken = takes_by_key(&mut queue);
    Ok(is_ordered && is_taken && are(&queue, &[4, 5, 2, 0, 0]))
}

#[test]
fn orders(rt: HostRuntime) {
    is_so(&rt, orders_by_rank(&rt));
    is_so(&rt, orders_by_key(&rt));
}

// An item that shares a counter, which counts the items that are not dropped yet.
#[derive(Drop)]
struct Shared {
    owner: Rc<u8>,
    id: u32,
    mark: u8,
}

impl Ranked for Shared {
    ghost rank = { λ _. 1 };

    ghost key = { λ _. pos 2 };

    ghost id = { λ x. x.id };

    fn rank(&self) -> u8 {
        1
    }

    fn key(&self) -> i64 {
        2
    }

    fn id(&self) -> u32 {
        self.id
    }
}

fn share(owner: &Rc<u8>, id: u32, mark: u8) -> Result<Shared, AllocError>
    ensures { IfOk result (λ x. x.id ≡ id) }
{
    let owner = owner.clone()?;
    Ok(Shared { owner, id, mark })
}

fn replace(
    queue: &mut BoxQueue<Shared>,
    owner: &Rc<u8>,
    id: u32,
    mark: u8,
) -> Result<Option<Shared>, AllocError> {
    let item = share(owner, id, mark)?;
    Ok(queue.replace(id, item))
}

fn mark_of(item: Option<&Shared>) -> u8 {
    match item {
        Some(item) => item.mark,
        None => 0,
    }
}

// Puts an item with a share in for each id and mark.
fn push_shares(
    rt: &HostRuntime,
    queue: &mut BoxQueue<Shared>,
    owner: &Rc<u8>,
    rows: &[(u32, u8)],
) -> Result<(), AllocError> {
    for row in rows {
        let (id, mark) = *row;
        queue.push_back(Node::node(rt.alloc(), share(owner, id, mark)?)?);
    }
    Ok(())
}

// From the middle, from the back and from the front.
fn drop_three(queue: &mut BoxQueue<Shared>) {
    drop(queue.take_first(1));
    drop(queue.take_first(3));
    drop(queue.pop_front());
}

// How many own the counter where the item that was replaced is dropped.
fn owners_after(
    queue: &mut BoxQueue<Shared>,
    owner: &Rc<u8>,
    id: u32,
) -> Result<usize, AllocError> {
    drop(replace(queue, owner, id, 1)?);
    Ok(Rc::strong_count(owner))
}

// The counter has one owner of its own, beside the items.
fn counts_owners(
    rt: &HostRuntime,
    queue: &mut BoxQueue<Shared>,
    owner: &Rc<u8>,
) -> Result<bool, AllocError> {
    push_shares(rt, queue, owner, &[(0, 1), (1, 1), (2, 1), (3, 1)])?;
    let four = Rc::strong_count(owner);
    drop_three(queue);
    let one = Rc::strong_count(owner);
    // The item that was there is returned, and dropped. Where none was there, the new one is dropped.
    let replaced = owners_after(queue, owner, 2)?;
    let unused = owners_after(queue, owner, 9)?;
    queue.push_front(Node::node(rt.alloc(), share(owner, 5, 1)?)?);
    let two = Rc::strong_count(owner);
    Ok(four == 5 && one == 2 && replaced == 2 && unused == 2 && two == 3)
}

fn drops_all(rt: &HostRuntime, owner: &Rc<u8>) -> Result<bool, AllocError> {
    let mut queue = BoxQueue::new();
    let is_counted = counts_owners(rt, &mut queue, owner)?;
    drop(queue);
    Ok(is_counted && Rc::strong_count(owner) == 1)
}

fn drops_shares(rt: &HostRuntime) -> Result<bool, AllocError> {
    let owner = Rc::new(rt.alloc(), 0)?;
    drops_all(rt, &owner)
}

#[test]
fn drops_each_item(rt: HostRuntime) {
    is_so(&rt, drops_shares(&rt));
}

// Whether these are the marks of the first items, with 0 past the end.
fn marks_are(queue: &BoxQueue<Shared>, marks: &[u8]) -> bool {
    let mut items = queue.items();
    for mark in marks {
        if mark_of(items.next()) != *mark {
            return false;
        }
    }
    true
}

fn last_mark_is(queue: &BoxQueue<Shared>, mark: u8) -> bool {
    let mut items = queue.items();
    let _first = items.next();
    let _second = items.next();
    mark_of(items.last()) == mark
}

// The mark of the item that made room.
fn old_mark(
    queue: &mut BoxQueue<Shared>,
    owner: &Rc<u8>,
    id: u32,
    mark: u8,
) -> Result<Option<u8>, AllocError> {
    match replace(queue, owner, id, mark)? {
        Some(old) => Ok(Some(old.mark)),
        None => Ok(None),
    }
}

fn replaces_marks(
    rt: &HostRuntime,
    queue: &mut BoxQueue<Shared>,
    owner: &Rc<u8>,
) -> Result<bool, AllocError> {
    push_shares(rt, queue, owner, &[(4, 1), (7, 2), (7, 3), (9, 4)])?;
    let is_read = marks_are(queue, &[1, 2]) && last_mark_is(queue, 4);
    // The first of the two with id 7 makes room.
    let old = old_mark(queue, owner, 7, 5)?;
    let none = old_mark(queue, owner, 5, 6)?;
    Ok(is_read && old == Some(2) && none.is_none() && marks_are(queue, &[1, 5, 3, 4, 0]))
}

fn replaces_in_queue(rt: &HostRuntime, owner: &Rc<u8>) -> Result<bool, AllocError> {
    let mut queue = BoxQueue::new();
    replaces_marks(rt, &mut queue, owner)
}

fn replaces_shares(rt: &HostRuntime) -> Result<bool, AllocError> {
    let owner = Rc::new(rt.alloc(), 0)?;
    replaces_in_queue(rt, &owner)
}

#[test]
fn reads_and_replaces(rt: HostRuntime) {
    is_so(&rt, replaces_shares(&rt));
}

fn push_each(rt: &HostRuntime, queue: &mut BoxQueue<Item>, ids: &[u32]) -> Result<(), AllocError> {
    for id in ids {
        queue.push_back(node(rt, 1, 0, *id)?);
    }
    Ok(())
}

// Whether each of these ids is taken in turn.
fn takes_each(queue: &mut BoxQueue<Item>, ids: &[u32]) -> bool {
    for id in ids {
        if taken(queue.take_first(*id)) != *id {
            return false;
        }
    }
    true
}

// From the middle and from both ends.
fn leaves_three(rt: &HostRuntime, queue: &mut BoxQueue<Item>) -> Result<bool, AllocError> {
    push_each(rt, queue, &[1, 2, 3, 4])?;
    let two = takes_each(queue, &[2, 4]);
    // The last box is found at the back again.
    push_each(rt, queue, &[5])?;
    let is_kept = are(queue, &[1, 3, 5, 0, 0]);
    Ok(two && is_kept && takes_each(queue, &[1]))
}

// Among 3 and 5, and the last one leaves last.
fn leaves_empty(rt: &HostRuntime, queue: &mut BoxQueue<Item>) -> Result<bool, AllocError> {
    insert_ranked(rt, queue, &[(2, 0, 6), (1, -1, 7), (0, 0, 8)])?;
    let is_ordered = are(queue, &[6, 7, 3, 5, 8]);
    let all = takes_each(queue, &[8, 5, 6, 3, 7]);
    push_each(rt, queue, &[9])?;
    Ok(is_ordered && all && are(queue, &[9, 0, 0, 0, 0]))
}

fn leaves_all(rt: &HostRuntime, queue: &mut BoxQueue<Item>) -> Result<bool, AllocError> {
    Ok(leaves_three(rt, queue)? && leaves_empty(rt, queue)?)
}

fn leaves(rt: &HostRuntime) -> Result<bool, AllocError> {
    let mut queue = BoxQueue::new();
    leaves_all(rt, &mut queue)
}

#[test]
fn leaves_from_anywhere(rt: HostRuntime) {
    is_so(&rt, leaves(&rt));
}

fn many(rt: &HostRuntime) -> Result<BoxQueue<Item>, AllocError>
    ensures { IfOk result (λ queue. length queue ≡ 400000) }
{
    let mut queue = BoxQueue::new();
    for id in 0..400_000 {
        queue.push_back(node(rt, 0, 0, id)?);
    }
    Ok(queue)
}

// A queue that goes to its end for each box does not end here.
#[test]
fn holds_400_000_boxes(rt: HostRuntime) -> Result<(), Fail> {
    let queue = many(&rt)?;
    let is_whole = queue.len() == 400_000 && id_of(queue.item(399_999)) == 399_999;
    assert!(rt; is_whole);
    Ok(())
}

// What goes to another thread.
fn sends(rt: &HostRuntime) -> Result<bool, AllocError> {
    let mut queue = sent(BoxQueue::new());
    queue.push_back(sent(node(rt, 1, 0, 5)?));
    let mut queue = sent(queue);
    Ok(taken(queue.pop_front()) == 5)
}

#[test]
fn is_send(rt: HostRuntime) {
    is_so(&rt, sends(&rt));
}

fn four_are(four: &Four<u8>, values: [u8; 4]) -> bool {
    *four.at(0) == values[0]
        && *four.at(1) == values[1]
        && *four.at(2) == values[2]
        && *four.at(3) == values[3]
}

fn changes_the_third() -> bool {
    let mut four = Four::new(10u8, 20, 30, 40);
    let is_read = four_are(&four, [10, 20, 30, 40]);
    *four.at_mut(2) = 7;
    is_read && four_are(&four, [10, 20, 7, 40])
}

// Each of four values is read and changed by its number.
#[test]
fn reads_and_changes(rt: HostRuntime) {
    is_so(&rt, Ok(changes_the_third()));
}

fn changes_its_value(boxed: &mut Boxed<u8>) -> bool {
    let seven = *boxed.get() == 7;
    *boxed.get_mut() = 9;
    seven && *boxed.get() == 9
}

fn changes_a_box(rt: &HostRuntime) -> Result<bool, AllocError> {
    let mut boxed = sent(Boxed::new(rt.alloc(), 7u8)?);
    Ok(changes_its_value(&mut boxed))
}

#[test]
fn is_read_and_changed(rt: HostRuntime) {
    is_so(&rt, changes_a_box(&rt));
}
