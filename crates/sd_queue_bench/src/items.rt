//! The items that are measured: a small one that owns a box, and a big one by value.
ghost use Rattle.std.specs.Prelude.{◌≡◌, IfOk};

use sd_boxq::{Node, Ranked};
use std::alloc::{AllocError, Global};

/// By what queues order and find an item.
#[derive(Clone, Copy)]
pub struct Tag {
    pub rank: u8,
    pub key: i64,
    pub id: u32,
}

/// An item that is made from its tag.
pub trait Made: Ranked {
    fn made(alloc: Global, tag: Tag) -> Result<Self, AllocError>
        ensures { IfOk result (λ x. (Self.rank x ≡ tag.rank) × (Self.key x ≡ tag.key) × (Self.id x ≡ tag.id)) };
}

/// A tag and a box, as a record of a thread has it.
#[derive(Drop)]
pub struct Small {
    tag: Tag,
    _record: Box<u64>,
}

impl Ranked for Small {
    ghost rank = { λ x. x.tag.rank };

    ghost key = { λ x. x.tag.key };

    ghost id = { λ x. x.tag.id };

    fn rank(&self) -> u8 {
        self.tag.rank
    }

    fn key(&self) -> i64 {
        self.tag.key
    }

    fn id(&self) -> u32 {
        self.tag.id
    }
}

impl Made for Small {
    fn made(alloc: Global, tag: Tag) -> Result<Small, AllocError> {
        let _record = Box::new(alloc, 0)?;
        Ok(Small { tag, _record })
    }
}

/// 144 bytes by value.
#[derive(Drop)]
pub struct Big {
    tag: Tag,
    _record: [u64; 15],
}

impl Ranked for Big {
    ghost rank = { λ x. x.tag.rank };

    ghost key = { λ x. x.tag.key };

    ghost id = { λ x. x.tag.id };

    fn rank(&self) -> u8 {
        self.tag.rank
    }

    fn key(&self) -> i64 {
        self.tag.key
    }

    fn id(&self) -> u32 {
        self.tag.id
    }
}

impl Made for Big {
    fn made(_alloc: Global, tag: Tag) -> Result<Big, AllocError> {
        Ok(Big {
            tag,
            _record: [0; 15],
        })
    }
}

/// A box with an item of this tag.
pub fn node<T: Made + Drop>(alloc: Global, tag: Tag) -> Result<Node<T>, AllocError>
    ensures { IfOk result (λ n. T.rank n ≡ tag.rank) }
{
    Node::node(alloc, T::made(alloc, tag)?)
}
