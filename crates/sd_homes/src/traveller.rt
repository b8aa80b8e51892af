//! A thread on its way from home to home.

ghost use Rattle.std.specs.Prelude.{◌≡◌, ◌+◌, ◌<◌, IfOk};
ghost use Rattle.sd_types.specs.Priorities.{eff};
ghost use Rattle.sd_turnstile.specs.Waiters.{IsIdle};
ghost use Rattle.sd_machine.specs.Bodies.{arrived, departed, with_class};
ghost use Rattle.sd_homes.specs.Standing.{record_key};
ghost use Rattle.sd_store.specs.Bodies.{changed};
ghost use Rattle.sd_homes.specs.Bodies.{CanChangeThread};
ghost use Rattle.sd_homes.specs.Homes.{with_body_of, with_key};

use crate::bodies;
use crate::places::record_key;
use sd_basics::known;
use sd_boxq::Node;
use sd_record::Record;
use sd_state::Place;
use sd_store::BodyChange;
use sd_turnstile::{Rack, Turnstile};
use sd_types::{ClassState, CpuId, ThreadId, Work};
use std::alloc::{AllocError, Global};
use std::marker::Model;

/// A thread that is in no home, with its turnstile. Contracts see it as its record.
#[derive(Drop)]
pub struct Traveller {
    node: Node<Record>,
    own: Turnstile<Record>,
}

impl Model for Traveller {
    ghost use Rattle.sd_record.specs.Records.{ThreadRecord};
    ghost use Rattle.sd_turnstile.specs.Waiters.{IsIdle};

    ghost Value = { ThreadRecord };

    ghost view = { λ t. t.node };

    ghost invariant = { λ t. IsIdle t.own };
}

/// The thread with a spare turnstile of a rack that has one.
#[inline(always)]
pub(crate) fn equipped(node: Node<Record>, rack: &mut Rack<Record>) -> Traveller
    requires { 0 < rack.old }
    ensures thread { result ≡ node }
    ensures rack { rack.old ≡ rack.new + 1 }
{
    let spare = rack.take();
    known(spare.is_some());
    match spare {
        None => unreachable!(),
        Some(own) => Traveller::of_parts(node, own),
    }
}

impl Traveller {
    /// A thread with a turnstile of its own. Where memory runs out, the thread is dropped.
    pub fn new(alloc: Global, thread: Record) -> Result<Traveller, AllocError>
        ensures { IfOk result (λ t. t ≡ thread) }
    {
        let node = Node::node(alloc, thread)?;
        let own = Turnstile::new(alloc)?;
        Ok(Traveller::of_parts(node, own))
    }

    #[inline(always)]
    pub(crate) fn of_parts(node: Node<Record>, own: Turnstile<Record>) -> Traveller
        requires { IsIdle own }
        ensures { result ≡ node }
    {
        Traveller { node, own }
    }

    #[inline(always)]
    pub(crate) fn into_parts(self) -> (Node<Record>, Turnstile<Record>)
        ensures node { result.0 ≡ self }
        ensures own { IsIdle result.1 }
    {
        let Traveller { node, own } = self;
        (node, own)
    }

    #[inline(always)]
    pub fn id(&self) -> ThreadId
        ensures { result ≡ self.now.id }
    {
        self.node.item().kept.id
    }

    /// The processor on which it ran last.
    pub fn last(&self) -> CpuId
        ensures { result ≡ self.now.body.last }
    {
        self.node.item().kept.body.last
    }

    /// The effective priority, 0 to 159.
    #[inline(always)]
    pub fn effective(&self) -> u8
        ensures value { result ≡ eff self.now.body }
        ensures below { result < 160 }
    {
        self.node.item().effective()
    }

    /// It goes to a place, whose key it has from now on.
    #[inline(always)]
    pub fn set_place(&mut self, place: Place)
        ensures { self.new ≡ with_key (record_key place) self.old }
    {
        let key = record_key(place);
        let record = self.node.item_mut();
        record.kept.key = key;
    }

    /// It runs on a processor.
    #[inline(always)]
    pub fn arrive(&mut self, c: CpuId)
        ensures { self.new ≡ with_body_of (arrived c self.old.body) self.old }
    {
        let record = self.node.item_mut();
        record.kept.body.last = c;
    }

    /// It has left a processor that has counted these ticks.
    #[inline(always)]
    pub fn depart(&mut self, count: u32)
        ensures { self.new ≡ with_body_of (departed count self.old.body) self.old }
    {
        let record = self.node.item_mut();
        record.kept.body.back = false;
        record.kept.body.left_at = Some(count);
    }

    /// Its body changes, where it can be changed so.
    #[inline(always)]
    pub fn change(&mut self, work: &Work, t: ThreadId, change: BodyChange)
        ensures body { CanChangeThread work.now t.0 change self.old.body → self.new ≡ with_body_of (changed work.now t.0 change self.old.body) self.old }
        ensures id { self.new.id ≡ self.old.id }
    {
        let record = self.node.item_mut();
        bodies::change(work, t, change, record);
    }

    /// It has this class state.
    #[inline(always)]
    pub fn set_class(&mut self, class: ClassState)
        ensures { self.new ≡ with_body_of (with_class self.old.body class) self.old }
    {
        let record = self.node.item_mut();
        record.kept.body.class = class;
    }

    /// It is bound to a processor, or to none.
    pub fn set_bound(&mut self, bound: Option<CpuId>)
        ensures { self.new ≡ with_body_of (record self.old.body { bound = bound }) self.old }
    {
        let record = self.node.item_mut();
        record.kept.body.bound = bound;
    }
}
