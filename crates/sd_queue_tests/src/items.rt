//! What the tested queues hold: an item with a rank, a key, an id and a mark that queues do not look at.
ghost use Rattle.std.specs.Prelude.{◌≡◌, IfOk};

use sd_boxq::{Node, Ranked};
use std::alloc::AllocError;

#[derive(Drop)]
pub struct Item {
    pub rank: u8,
    pub key: i64,
    pub id: u32,
    pub mark: u8,
}

impl Ranked for Item {
    ghost rank = { λ x. x.rank };

    ghost key = { λ x. x.key };

    ghost id = { λ x. x.id };

    fn rank(&self) -> u8 {
        self.rank
    }

    fn key(&self) -> i64 {
        self.key
    }

    fn id(&self) -> u32 {
        self.id
    }
}

pub fn node(rt: &HostRuntime, rank: u8, key: i64, id: u32) -> Result<Node<Item>, AllocError>
    ensures { IfOk result (λ n. n.rank ≡ rank) }
{
    Node::node(
        rt.alloc(),
        Item {
            rank,
            key,
            id,
            mark: 0,
        },
    )
}

/// The item's id, and 0 where there is none.
pub fn id_of(item: Option<&Item>) -> u32 {
    match item {
        Some(item) => item.id,
        None => 0,
    }
}

/// The id of what was taken, and 0 where nothing was.
pub fn taken(node: Option<Node<Item>>) -> u32 {
    match node {
        Some(node) => node.item().id,
        None => 0,
    }
}

/// A value that may go to another thread.
pub fn sent<T: Send>(value: T) -> T
    ensures { result ≡ value }
{
    value
}
