//! The home of a processor.

ghost use Rattle.std.specs.Prelude.{◌≡◌, ◌∷◌, false, true, None, Some, is_some, option_map, slice_get, IfOk, MatchOption};
ghost use Rattle.std.specs.Option.{option_copied};
ghost use Rattle.sd_boxq.specs.Order.{find_first, find_id, drop_id, insert_ranked, insert_keyed};
ghost use Rattle.sd_homes.specs.Standing.{id_of, ages, earlier, is_unbound, key_in, least_to_age, rank_of};
ghost use Rattle.sd_types.specs.declared.numbers.HomeId.TheVariants.{Cpu};
ghost use Rattle.sd_record.specs.Records.{ThreadRecord};
ghost use Rattle.sd_store.specs.Bodies.{changed};
ghost use Rattle.sd_homes.specs.Bodies.{CanChangeThread};
ghost use Rattle.sd_homes.specs.Kinds.{IsListed, cpu_has, cpu_list};
ghost use Rattle.sd_homes.specs.Homes.{OfCpu, empty_cpu, one, head_of, queued_as, running_on, with_body_of, with_ended, with_nappers, with_queue, with_running, with_view};

use crate::ready::ReadyQueue;
use crate::traveller::{Traveller, equipped};
use crate::{ListId, bodies};
use sd_boxq::{BoxQueue, Node};
use sd_dispq::{Bitmap, DispQueue};
use sd_record::Record;
use sd_store::{BodyChange, CpuView};
use sd_turnstile::Rack;
use sd_types::{ClassState, CpuId, ThreadId, Work};
use std::alloc::{AllocError, Global};
use std::marker::Model;

/// A processor: its dispatch queue, the thread that runs on it, those that nap on it and those that ended and ran there
/// last, with a spare turnstile for each; its marks, its set, the set that it is closing to and the number of threads that
/// are bound to it. Most of those that nap have a bit under their numbers, so that they need not be sought among the others.
///
/// Source: Solaris Internals (`cpu_t`, dispatch queues).
#[derive(Drop)]
pub struct CpuHome {
    cpu: CpuId,
    queue: ReadyQueue,
    running: Option<Node<Record>>,
    nappers: BoxQueue<Record>,
    naps: Bitmap,
    ended: BoxQueue<Record>,
    view: CpuView,
    rack: Rack<Record>,
}

impl Model for CpuHome {
    ghost use Rattle.std.specs.Prelude.{◌≡◌, ◌+◌, length};
    ghost use Rattle.sd_homes.specs.Homes.{OfCpu, one};
    ghost use Rattle.sd_homes.specs.ReadyIndexes.{AreNumbersOf};

    ghost Value = { OfCpu };

    ghost view = { λ h. record { cpu = h.cpu; queue = h.queue; running = h.running; nappers = h.nappers; ended = h.ended; view = h.view } };

    ghost invariant = { λ h. (h.rack ≡ length h.queue + (length (one h.running) + (length h.nappers + length h.ended))) × AreNumbersOf h.naps h.nappers };
}

#[tactic(auto, using(crate::proofs::Lengths::length_dropped, crate::proofs::Lengths::length_inserted))]
impl CpuHome {
    /// The home of a processor with no thread. A thread on its queue is sought by its number, if that is below `threads`, in the level where it
    /// stands, and a thread that naps has a bit then.
    pub fn new(
        alloc: Global,
        cpu: CpuId,
        view: CpuView,
        threads: u16,
    ) -> Result<CpuHome, AllocError>
        ensures { IfOk result (λ h. h ≡ empty_cpu cpu view) }
    {
        Ok(CpuHome {
            cpu,
            queue: ReadyQueue::new(alloc, threads)?,
            running: None,
            nappers: BoxQueue::new(),
            naps: Bitmap::new(alloc, threads)?,
            ended: BoxQueue::new(),
            view,
            rack: Rack::new(),
        })
    }

    #[inline(always)]
    pub fn cpu(&self) -> CpuId
        ensures { result ≡ self.now.cpu }
    {
        self.cpu
    }

    /// The marks, the set and the bindings.
    #[inline(always)]
    pub fn view(&self) -> CpuView
        ensures { result ≡ self.now.view }
    {
        self.view
    }

    /// With other marks, set and bindings.
    #[inline(always)]
    pub fn set_view(&mut self, view: CpuView)
        ensures { self.new ≡ with_view view self.old }
    {
        self.view = view;
    }

    /// Takes the first thread with this number from the queue.
    pub fn take_queued(&mut self, t: ThreadId) -> Option<Traveller>
        ensures taken { result ≡ find_id id_of t.0 self.old.queue }
        ensures rest { self.new ≡ with_queue (drop_id id_of t.0 self.old.queue) self.old }
    {
        match self.queue.take(u32::from(t.0)) {
            None => None,
            Some(node) => Some(equipped(node, &mut self.rack)),
        }
    }

    /// Puts the thread on the queue, by its priority and key.
    pub fn put_queued(&mut self, t: Traveller)
        ensures { self.new ≡ with_queue (insert_ranked rank_of key_in t self.old.queue) self.old }
    {
        let _rank = t.effective();
        let (node, own) = t.into_parts();
        self.queue.put(node);
        self.rack.put(own);
    }

    /// The first thread with this number on the queue runs, on processor `c`, without a turnstile being taken and put back. Tells whether
    /// there is one. Where another ran, that one is dropped.
    #[inline(always)]
    pub fn run_queued(&mut self, t: ThreadId, c: CpuId) -> bool
        ensures queued { result ≡ is_some (find_id id_of t.0 self.old.queue) }
        ensures runs { MatchOption (find_id id_of t.0 self.old.queue) (self.new ≡ self.old)
            (λ r. self.new ≡ with_running (Some (running_on c r)) (with_queue (drop_id id_of t.0 self.old.queue) self.old)) }
    {
        match self.queue.take(u32::from(t.0)) {
            None => false,
            Some(mut node) => {
                bodies::run_on(c, node.item_mut());
                if let Some(other) = self.running.take() {
                    let _gone = equipped(other, &mut self.rack);
                }
                self.running = Some(node);
                true
            }
        }
    }

    /// The first thread with this number on the queue has another class state and key, and goes to its place by them. Tells whether there
    /// is one.
    #[inline(always)]
    pub fn requeue(&mut self, t: ThreadId, class: ClassState, key: i64) -> bool
        ensures queued { result ≡ is_some (find_id id_of t.0 self.old.queue) }
        ensures moved { MatchOption (find_id id_of t.0 self.old.queue) (self.new ≡ self.old)
            (λ r. self.new ≡ with_queue (insert_ranked rank_of key_in (queued_as class key r) (drop_id id_of t.0 self.old.queue)) self.old) }
    {
        match self.queue.take(u32::from(t.0)) {
            None => false,
            Some(mut node) => {
                bodies::queue_as(class, key, node.item_mut());
                let _rank = node.item().effective();
                self.queue.put(node);
                true
            }
        }
    }

    /// Takes the running thread, if it has this number.
    #[inline(always)]
    pub fn take_running(&mut self, t: ThreadId) -> Option<Traveller>
        ensures taken { result ≡ find_id id_of t.0 (one self.old.running) }
        ensures rest { self.new ≡ with_running (head_of (drop_id id_of t.0 (one self.old.running))) self.old }
    {
        match self.running.take() {
            None => None,
            Some(node) => {
                if node.item().kept.id.0 == t.0 {
                    Some(equipped(node, &mut self.rack))
                } else {
                    self.running = Some(node);
                    None
                }
            }
        }
    }

    /// The thread runs. Where another ran, that one is dropped.
    #[inline(always)]
    pub fn put_running(&mut self, t: Traveller)
        ensures { self.new ≡ with_running (Some t) self.old }
    {
        let (node, own) = t.into_parts();
        match self.running.take() {
            None => self.rack.put(own),
            Some(_other) => {}
        }
        self.running = Some(node);
    }

    /// The body of the running thread changes where it stands, if the thread has this number, where it can be changed so. Tells whether
    /// the thread has this number.
    #[inline(always)]
    pub fn change_running(&mut self, work: &Work, t: ThreadId, change: BodyChange) -> bool
        ensures runs { result ≡ is_some (find_id id_of t.0 (one self.old.running)) }
        ensures changed { MatchOption (find_id id_of t.0 (one self.old.running)) (self.new ≡ self.old) (λ r. (q : ThreadRecord) × (self.new ≡ with_running (Some q) self.old) × (q.id ≡ r.id)
            × (CanChangeThread work.now t.0 change r.body → q ≡ with_body_of (changed work.now t.0 change r.body) r)) }
    {
        if let Some(node) = &mut self.running {
            if node.item().kept.id.0 == t.0 {
                let record = node.item_mut();
                bodies::change(work, t, change, record);
                return true;
            }
        }
        false
    }

    /// Takes the first napper with this number.
    pub fn take_napper(&mut self, t: ThreadId) -> Option<Traveller>
        ensures taken { result ≡ find_id id_of t.0 self.old.nappers }
        ensures rest { self.new ≡ with_nappers (drop_id id_of t.0 self.old.nappers) self.old }
    {
        self.naps.clear(t.0 as usize);
        match self.nappers.take_first(u32::from(t.0)) {
            None => None,
            Some(node) => Some(equipped(node, &mut self.rack)),
        }
    }

    /// Puts the thread among the nappers, by its key and number.
    pub fn put_napper(&mut self, t: Traveller)
        ensures { self.new ≡ with_nappers (insert_keyed key_in id_of t self.old.nappers) self.old }
    {
        self.naps.set(t.id().0 as usize);
        let (node, own) = t.into_parts();
        self.nappers.insert_keyed(node);
        self.rack.put(own);
    }

    /// Takes the first ended thread with this number.
    pub fn take_ended(&mut self, t: ThreadId) -> Option<Traveller>
        ensures taken { result ≡ find_id id_of t.0 self.old.ended }
        ensures rest { self.new ≡ with_ended (drop_id id_of t.0 self.old.ended) self.old }
    {
        match self.ended.take_first(u32::from(t.0)) {
            None => None,
            Some(node) => Some(equipped(node, &mut self.rack)),
        }
    }

    /// Puts the thread among those that ended.
    pub fn put_ended(&mut self, t: Traveller)
        ensures { self.new ≡ with_ended (t ∷ self.old.ended) self.old }
    {
        let (node, own) = t.into_parts();
        self.ended.push_front(node);
        self.rack.put(own);
    }

    /// The running thread.
    #[inline(always)]
    pub fn running(&self) -> Option<&Record>
        ensures { option_copied result ≡ slice_get (one self.now.running) 0 }
    {
        match &self.running {
            None => None,
            Some(node) => Some(node.item()),
        }
    }

    /// The running thread, if it has this number.
    #[inline(always)]
    pub fn find_running(&self, t: ThreadId) -> Option<&Record>
        ensures { option_copied result ≡ find_id id_of t.0 (one self.now.running) }
    {
        match &self.running {
            None => None,
            Some(node) => {
                if node.item().kept.id.0 == t.0 {
                    Some(node.item())
                } else {
                    None
                }
            }
        }
    }

    pub fn find_queued(&self, t: ThreadId) -> Option<&Record>
        ensures { option_copied result ≡ find_id id_of t.0 self.now.queue }
    {
        self.queue.find(u32::from(t.0))
    }

    /// Whether the thread is known to nap here, by its bit. False may also be told of one that naps: of one whose number has no bit, and of a
    /// second one with a number of which one has left.
    #[inline(always)]
    pub fn naps(&self, t: ThreadId) -> bool
        ensures { result ≡ true → is_some (find_id id_of t.0 self.now.nappers) ≡ true }
    {
        match self.naps.next_set(t.0 as usize) {
            None => false,
            Some(i) => i == t.0 as usize,
        }
    }

    #[inline(never)]
    pub fn find_napper(&self, t: ThreadId) -> Option<&Record>
        ensures { option_copied result ≡ find_id id_of t.0 self.now.nappers }
    {
        self.nappers.find(u32::from(t.0))
    }

    pub fn find_ended(&self, t: ThreadId) -> Option<&Record>
        ensures { option_copied result ≡ find_id id_of t.0 self.now.ended }
    {
        self.ended.find(u32::from(t.0))
    }

    /// The list in which the thread stands. `None` exactly where it stands in none of this home.
    pub fn where_is(&self, t: ThreadId) -> Option<ListId>
        ensures { MatchOption result (cpu_has t.0 self.now ≡ false) (IsListed t.0 (Cpu self.now.cpu) (cpu_list self.now) (cpu_has t.0 self.now)) }
    {
        if self.find_running(t).is_some() {
            return Some(ListId::Runs(self.cpu));
        }
        if self.find_queued(t).is_some() {
            return Some(ListId::Queues(self.cpu));
        }
        if self.find_napper(t).is_some() {
            return Some(ListId::Naps(self.cpu));
        }
        if self.find_ended(t).is_some() {
            return Some(ListId::Ends(self.cpu));
        }
        None
    }

    /// The best thread on the queue.
    #[inline(always)]
    pub fn best(&self) -> Option<&Record>
        ensures { option_copied result ≡ slice_get self.now.queue 0 }
    {
        self.queue.threads().best()
    }

    /// The thread whose nap ends first.
    #[inline(always)]
    pub fn first_napper(&self) -> Option<&Record>
        ensures { option_copied result ≡ slice_get self.now.nappers 0 }
    {
        self.nappers.first()
    }

    /// The threads that have ended.
    pub fn ended(&self) -> &BoxQueue<Record>
        ensures { result.now ≡ self.now.ended }
    {
        &self.ended
    }

    #[inline(always)]
    pub fn first_ended(&self) -> Option<&Record>
        ensures { option_copied result ≡ slice_get self.now.ended 0 }
    {
        self.ended.first()
    }

    /// The best thread on the queue that is bound to no processor.
    #[inline(always)]
    pub fn best_unbound(&self) -> Option<&Record>
        ensures { option_copied result ≡ find_first is_unbound self.now.queue }
    {
        match self.queue.threads().best() {
            None => None,
            Some(best) => {
                if best.kept.body.bound.is_none() {
                    Some(best)
                } else {
                    first_unbound(self.queue.threads())
                }
            }
        }
    }

    /// The least number, from `u` on, of a time-sharing thread on the queue.
    pub fn next_to_age(&self, u: ThreadId) -> Option<ThreadId>
        ensures { option_map (λ t. t.0) result ≡ least_to_age u.0 self.now.queue }
    {
        self.queue.next_to_age(u)
    }
}

#[inline(never)]
fn first_unbound(queue: &DispQueue<Record>) -> Option<&Record>
    ensures { option_copied result ≡ find_first is_unbound queue.now }
{
    for record in queue.items() {
        if record.kept.body.bound.is_none() {
            return Some(record);
        }
    }
    None
}
