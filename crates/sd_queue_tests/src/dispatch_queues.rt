//! Dispatch queues: levels at the bounds of the bitmap's words, and a long queue over all levels.
ghost use Rattle.std.specs.Prelude.{◌≡◌};

use crate::items::{Item, id_of, node, sent, taken};
use crate::judging::is_so;
use sd_boxq::Ranked;
use sd_dispq::DispQueue;
use std::alloc::AllocError;

// Whether these are the ids of the items, with 0 past the last.
fn are(queue: &DispQueue<Item>, ids: &[u32]) -> bool {
    let mut items = queue.items();
    for id in ids {
        if id_of(items.next()) != *id {
            return false;
        }
    }
    true
}

// Whether these are the ids at these places, with 0 past the last.
fn stand_at(queue: &DispQueue<Item>, rows: &[(usize, u32)]) -> bool {
    for row in rows {
        let (index, id) = *row;
        if id_of(queue.item(index)) != id {
            return false;
        }
    }
    true
}

// Whether what is found of each id has the id beside it.
fn are_found(queue: &DispQueue<Item>, rows: &[(u32, u32)]) -> bool {
    for row in rows {
        let (id, found) = *row;
        if id_of(queue.find(id)) != found {
            return false;
        }
    }
    true
}

// Whether these are taken in turn as the best, and the greatest rank that is left behind each.
fn leave_in_turn(queue: &mut DispQueue<Item>, rows: &[(u32, Option<u8>)]) -> bool {
    for row in rows {
        let (id, rest) = *row;
        if taken(queue.take_best()) != id || queue.max() != rest {
            return false;
        }
    }
    true
}

// Puts an item of this key at the back for each rank and id. No rank is too great.
fn put_each(
    rt: &HostRuntime,
    queue: &mut DispQueue<Item>,
    key: i64,
    rows: &[(u8, u32)],
) -> Result<bool, AllocError> {
    for row in rows {
        let (rank, id) = *row;
        if rank >= 160 {
            return Ok(false);
        }
        queue.put_back(node(rt, rank, key, id)?);
    }
    Ok(true)
}

// The rank and the id, at the bounds of the words.
const LEVELS: [(u8, u32); 7] = [
    (63, 1),
    (128, 2),
    (0, 3),
    (159, 4),
    (64, 5),
    (127, 6),
    (64, 7),
];

fn fill_levels(rt: &HostRuntime, queue: &mut DispQueue<Item>) -> Result<bool, AllocError> {
    let is_filled = put_each(rt, queue, 10, &LEVELS)?;
    queue.put_front(node(rt, 64, 20, 8)?);
    // Before 8, whose key is 20, and 5 and 7 stand behind 8 as they were put.
    queue.put_ranked(node(rt, 64, 15, 9)?);
    Ok(is_filled)
}

fn is_levelled(queue: &DispQueue<Item>) -> bool {
    id_of(queue.best()) == 4
        && are(queue, &[4, 2, 6, 9, 8, 5, 7, 1, 3])
        && stand_at(
            queue,
            &[(0, 4), (3, 9), (6, 7), (8, 3), (9, 0), (usize::MAX, 0)],
        )
        && are_found(queue, &[(4, 4), (7, 7), (1, 1), (3, 3), (10, 0)])
}

// What is left of the levels, as each of them is taken.
const LEFT: [(u32, Option<u8>); 8] = [
    (4, Some(128)),
    (2, Some(127)),
    (6, Some(64)),
    (9, Some(64)),
    (8, Some(64)),
    (5, Some(63)),
    (1, Some(0)),
    (3, None),
];

fn leaves_levels(queue: &mut DispQueue<Item>) -> bool {
    taken(queue.take(7)) == 7 && taken(queue.take(7)) == 0 && leave_in_turn(queue, &LEFT)
}

fn holds_levels(rt: &HostRuntime, queue: &mut DispQueue<Item>) -> Result<bool, AllocError> {
    let is_filled = fill_levels(rt, queue)?;
    Ok(is_filled && is_levelled(queue) && leaves_levels(queue))
}

fn has_levels(rt: &HostRuntime) -> Result<bool, AllocError> {
    let mut queue = DispQueue::new(rt.alloc())?;
    holds_levels(rt, &mut queue)
}

#[test]
fn levels(rt: HostRuntime) {
    is_so(&rt, has_levels(&rt));
}

// Puts a marked item in place of the one with this id, and returns the mark of that one.
fn marked(queue: &mut DispQueue<Item>, id: u32) -> Option<u8> {
    let item = match queue.find(id) {
        None => Item {
            rank: 200,
            key: 0,
            id,
            mark: 1,
        },
        Some(found) => Item {
            rank: found.rank,
            key: found.key,
            id: found.id,
            mark: 1,
        },
    };
    match queue.replace(id, item) {
        None => None,
        Some(item) => Some(item.mark),
    }
}

// Whether these are the marks that make room, one after another.
fn marks_were(queue: &mut DispQueue<Item>, rows: &[(u32, Option<u8>)]) -> bool {
    for row in rows {
        let (id, mark) = *row;
        if marked(queue, id) != mark {
            return false;
        }
    }
    true
}

// The rank and the id.
const REPLACED: [(u8, u32); 4] = [(5, 1), (9, 2), (9, 3), (9, 4)];

// The id, and the mark that makes room.
const MARKS: [(u32, Option<u8>); 4] = [(3, Some(0)), (3, Some(1)), (5, None), (1, Some(0))];

fn replaces_marks(rt: &HostRuntime, queue: &mut DispQueue<Item>) -> Result<bool, AllocError> {
    let is_filled = put_each(rt, queue, 0, &REPLACED)?;
    Ok(is_filled && marks_were(queue, &MARKS) && are(queue, &[2, 3, 4, 1, 0, 0, 0, 0, 0]))
}

fn is_replaced(rt: &HostRuntime) -> Result<bool, AllocError> {
    let mut queue = DispQueue::new(rt.alloc())?;
    replaces_marks(rt, &mut queue)
}

#[test]
fn replaces(rt: HostRuntime) {
    is_so(&rt, is_replaced(&rt));
}

fn fill_all_levels(rt: &HostRuntime, queue: &mut DispQueue<Item>) -> Result<(), AllocError> {
    for id in 0..400_000u32 {
        queue.put_back(node(rt, (id % 160) as u8, 0, id)?);
    }
    Ok(())
}

fn fill_one_level(rt: &HostRuntime, queue: &mut DispQueue<Item>) -> Result<(), AllocError> {
    for id in 0..400_000u32 {
        queue.put_back(node(rt, 80, 0, id)?);
    }
    Ok(())
}

// Whether the item of this id is the last of 400,000.
fn ends_with(queue: &DispQueue<Item>, id: u32) -> bool {
    id_of(queue.item(399_999)) == id && queue.item(400_000).is_none()
}

fn holds_many_levels(rt: &HostRuntime) -> Result<bool, AllocError> {
    let mut queue = DispQueue::new(rt.alloc())?;
    fill_all_levels(rt, &mut queue)?;
    Ok(ends_with(&queue, 399_840))
}

fn holds_a_long_level(rt: &HostRuntime) -> Result<bool, AllocError> {
    let mut queue = DispQueue::new(rt.alloc())?;
    fill_one_level(rt, &mut queue)?;
    Ok(ends_with(&queue, 399_999))
}

// A queue that goes to the end of a level for each box does not end here.
#[test]
fn holds_400_000_boxes(rt: HostRuntime) {
    is_so(&rt, holds_many_levels(&rt));
    is_so(&rt, holds_a_long_level(&rt));
}

fn queue_is_sent<T: Ranked + Send>(queue: DispQueue<T>) -> DispQueue<T>
    ensures { result ≡ queue }
{
    sent(queue)
}

// What goes to another thread.
fn sends(rt: &HostRuntime) -> Result<bool, AllocError> {
    let mut queue = DispQueue::new(rt.alloc())?;
    queue.put_front(node(rt, 1, 0, 5)?);
    let mut queue = queue_is_sent(queue);
    Ok(taken(queue.take_best()) == 5)
}

#[test]
fn is_send(rt: HostRuntime) {
    is_so(&rt, sends(&rt));
}
