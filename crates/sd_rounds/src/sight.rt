//! What one look at the home of a processor tells of its next event, as in most turns: that its thread runs on, does its operation or has a mark to
//! heed, that the processor dispatches, searches or finds nothing, or that a thread on its queue is aged.

ghost use Rattle.std.specs.Prelude.{◌≡◌, ℕ, Option, None, Some, false, true, IfSome};
ghost use Rattle.std.specs.Option.{option_copied};
ghost use Rattle.sd_types.specs.declared.events.Duty.TheVariants.{Age, Nothing};
ghost use Rattle.sd_types.specs.declared.events.Which.TheVariants.{Queued};
ghost use Rattle.sd_types.specs.declared.numbers.HomeId.TheVariants.{Cpu};
ghost use Rattle.sd_types.specs.declared.scripts.Op.TheVariants.{Run};
ghost use Rattle.sd_state.specs.Operations.{op_of};
ghost use Rattle.sd_state.specs.declared.states.State.{State as StateOf};
ghost use Rattle.sd_machine.specs.Hints.{hint_shown};
ghost use Rattle.sd_homes.specs.Standing.{due_of_first};
ghost use Rattle.sd_hand.specs.Acting.{IsShown};
ghost use Rattle.sd_hand.specs.Hands.{held};
ghost use Rattle.sd_rounds.specs.Searched.{IsSearched, all_show_zero};
ghost use Rattle.sd_rounds.specs.Sights.{Sees, SeesQuiet, SeesRunner, SeesSearch, noted};
ghost use Rattle.sd_rounds.specs.declared.sight.Searched.{Searched as SearchedOf};

use sd_class::class_expires;
use sd_hand::Acting;
use sd_homes::{Home, ListId, is_over};
use sd_record::Record;
use sd_store::{CpuView, Look};
use sd_types::{CpuId, Duty, HomeId, Op, SetId, ThreadId, Work};

/// A set in which a search finds nothing, and how many open processors it has.
#[derive(Clone, Copy)]
pub struct Searched {
    pub set: SetId,
    pub cpus: usize,
}

/// What a processor is about to do, as far as one look tells it.
#[derive(Clone, Copy)]
pub enum Sight {
    /// Its thread runs for a tick, which ends its quantum or does not.
    Runs { t: ThreadId, expires: bool },
    /// Its thread need not leave it, and does its operation.
    Acts(ThreadId),
    /// It has a mark: its thread leaves it where that is due, and else does its operation.
    Marked(ThreadId),
    /// It ages this thread of its queue.
    Ages(ThreadId),
    /// Nothing is ready for it, nor on the queue of a neighbour in its set: it is idle for a tick.
    Idles(Searched),
    /// Nothing is ready for it: it searches.
    Searches,
    /// No thread runs on it, and one may be ready for it: it dispatches the best.
    Ready,
    /// It has to make a plan.
    Unclear,
}

/// The operation of the thread is to run.
#[inline(always)]
fn is_to_run(work: &Work, thread: &Record) -> bool
    ensures { result ≡ true → (n : ℕ) × (op_of work.now thread.now.id.0 thread.now.body ≡ Some (Run n)) }
{
    match work.threads.items().get(thread.kept.id.0 as usize) {
        Some(decl) => matches!(
            decl.script.ops().get(thread.kept.body.op as usize),
            Some(Op::Run(_))
        ),
        None => false,
    }
}

/// The first nap is over at this count.
#[inline(always)]
fn is_due(napper: Option<&Record>, count: u32) -> bool
    ensures { result ≡ false → due_of_first count (option_copied napper.entry) ≡ None }
{
    match napper {
        None => false,
        Some(thread) => is_over(thread, count),
    }
}

/// What is seen of a thread that runs on a processor with these marks.
#[inline(always)]
fn see_runner(work: &Work, view: CpuView, thread: &Record) -> Sight
    ensures { SeesRunner work.now view thread.now result }
{
    if view.user || view.kernel {
        return Sight::Marked(thread.kept.id);
    }
    if !is_to_run(work, thread) {
        return Sight::Acts(thread.kept.id);
    }
    Sight::Runs {
        t: thread.kept.id,
        expires: class_expires(&thread.kept.body.class),
    }
}

/// No thread on the queue of processor `d` may be stolen.
#[inline(always)]
fn has_none_to_steal(x: &Acting, d: CpuId) -> bool
    ensures { result ≡ true → (n : ℕ) (s : StateOf) → IsShown x.now n s → hint_shown s Queued d ≡ 0 }
{
    match x.best_unbound(d) {
        Ok(None) => true,
        _ => false,
    }
}

/// No thread on the queues of these processors may be stolen.
#[inline(always)]
fn have_none_to_steal(x: &Acting, cpus: &[CpuId]) -> bool
    ensures { result ≡ true → (n : ℕ) (s : StateOf) → IsShown x.now n s → all_show_zero s cpus.now ≡ true }
{
    for d in cpus {
        if !has_none_to_steal(x, *d) {
            return false;
        }
    }
    true
}

/// What is known of a search in this set.
#[inline(always)]
fn known_of(searched: Option<Searched>, set: SetId) -> Option<Searched>
    ensures { IfSome result (λ found. (searched ≡ Some found) × (found.set ≡ set)) }
{
    match searched {
        Some(found) if found.set.0 == set.0 => Some(found),
        _ => None,
    }
}

/// What is seen of a search in this set. It is a call, so that what is seen of a processor is small enough to be inline.
#[inline(never)]
fn search(x: &Acting, set: SetId) -> Sight
    ensures { SeesSearch x.now set result }
{
    match x.hand.home(HomeId::RealTime(set)) {
        Err(_) => Sight::Unclear,
        Ok(urgent) => {
            if urgent.first(ListId::Urgent(set)).is_some() {
                return Sight::Ready;
            }
            let open = urgent.open_cpus();
            if !have_none_to_steal(x, open) {
                return Sight::Searches;
            }
            Sight::Idles(Searched {
                set,
                cpus: open.len(),
            })
        }
    }
}

/// What is seen of a processor on which no thread runs. Where it is known that there is nothing in its set, it looks at no other home, and
/// where it finds nothing, that is known from now on.
#[inline(always)]
fn see_quiet(x: &Acting, home: &Home, view: CpuView, searched: &mut Option<Searched>) -> Sight
    requires home { held (Cpu x.now.actor.cpu) x.now.hand.slots ≡ Some home.now }
    ensures seen { SeesQuiet x.now home.now view searched.old result }
    ensures noted { searched.new ≡ noted searched.old result }
{
    if view.closing.is_some() {
        return Sight::Unclear;
    }
    if home.first(ListId::Queues(x.actor.cpu)).is_some() {
        return Sight::Ready;
    }
    if let Some(found) = known_of(*searched, view.set) {
        return Sight::Idles(found);
    }
    match search(x, view.set) {
        Sight::Idles(found) => {
            *searched = Some(found);
            Sight::Idles(found)
        }
        Sight::Searches => Sight::Searches,
        Sight::Ready => Sight::Ready,
        _ => Sight::Unclear,
    }
}

/// What is seen of a processor without a duty, whose home this is.
#[inline(always)]
fn see_home(work: &Work, x: &Acting, home: &Home, searched: &mut Option<Searched>) -> Sight
    requires duty { x.now.actor.duty ≡ Nothing }
    requires home { held (Cpu x.now.actor.cpu) x.now.hand.slots ≡ Some home.now }
    ensures seen { (n : ℕ) (s : StateOf) → IsShown x.now n s → IsSearched s searched.old → Sees work.now s x.now.actor.cpu.0 result }
    ensures noted { searched.new ≡ noted searched.old result }
{
    let c = x.actor.cpu;
    if is_due(home.first(ListId::Naps(c)), x.actor.count) {
        return Sight::Unclear;
    }
    match home.view() {
        None => Sight::Unclear,
        Some(view) => match home.first(ListId::Runs(c)) {
            Some(thread) => see_runner(work, view, thread),
            None => see_quiet(x, home, view, searched),
        },
    }
}

/// What is seen of a processor that is to age its queue from thread `u` on.
#[inline(always)]
fn see_ageing(work: &Work, x: &Acting, u: ThreadId) -> Sight
    requires { x.now.actor.duty ≡ Age u }
    ensures seen { (n : ℕ) (s : StateOf) → IsShown x.now n s → Sees work.now s x.now.actor.cpu.0 result }
    ensures noted { (known : Option SearchedOf) → known ≡ noted known result }
{
    let c = x.actor.cpu;
    let Ok(None) = x.first_due(c) else {
        return Sight::Unclear;
    };
    match x.next_to_age(c, u) {
        Ok(Some(t)) => Sight::Ages(t),
        _ => Sight::Unclear,
    }
}

/// What is seen of the processor that acts. Where nothing is ready in its set, that is known from now on.
#[inline(always)]
pub(crate) fn see(work: &Work, x: &Acting, searched: &mut Option<Searched>) -> Sight
    ensures seen { (n : ℕ) (s : StateOf) → IsShown x.now n s → IsSearched s searched.old → Sees work.now s x.now.actor.cpu.0 result }
    ensures noted { searched.new ≡ noted searched.old result }
{
    match x.actor.duty {
        Duty::Nothing => match x.hand.home(HomeId::Cpu(x.actor.cpu)) {
            Err(_) => Sight::Unclear,
            Ok(home) => see_home(work, x, home, searched),
        },
        Duty::Age(u) => see_ageing(work, x, u),
        _ => Sight::Unclear,
    }
}
