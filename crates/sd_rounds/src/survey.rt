//! What a processor reads in a search that finds something: the number of each neighbour, and whose is the greatest, by one walk along the
//! processors of its set.

ghost use Rattle.std.specs.Prelude.{◌≡◌, ℕ, ◌==◌, ◌++◌, ◌<◌, ◌≤◌, ◌∷◌, [], List, length, filter, not, IfSome};
ghost use Rattle.sd_types.specs.declared.events.Which.TheVariants.{Queued};
ghost use Rattle.sd_types.specs.declared.numbers.CpuId.{CpuId as CpuOf};
ghost use Rattle.sd_types.specs.Limits.{most_processors};
ghost use Rattle.sd_state.specs.declared.states.State.{State as StateOf};
ghost use Rattle.sd_state.specs.States.{cpu_of};
ghost use Rattle.sd_machine.specs.Hints.{hint_shown};
ghost use Rattle.sd_machine.specs.Threads.{open_of};
ghost use Rattle.sd_hand.specs.Acting.{IsShown};
ghost use Rattle.sd_world.specs.Plain.{AreCpus, Stands, told};
ghost use Rattle.sd_rounds.specs.Surveys.{IsBusiest, IsSurvey};

use arrayvec::ArrayVec;
use sd_hand::Acting;
use sd_rules::is_busier;
use sd_store::Look;
use sd_types::{CpuId, Which, Work};
use sd_world::{PlainWorld, shown_hint};

/// The processor with the greatest number of those that were read, the least of several, and this number; none where all are 0.
#[derive(Clone, Copy)]
pub(crate) struct Busiest {
    pub cpu: Option<CpuId>,
    pub number: u8,
}

/// The numbers that a search reads, and the processor from which it steals.
#[derive(Drop)]
pub(crate) struct Survey {
    pub numbers: ArrayVec<u8, 64>,
    pub victim: Option<CpuId>,
}

impl Busiest {
    /// Nobody's number was read.
    fn none() -> Busiest
        ensures { IsBusiest [] [] result }
    {
        Busiest {
            cpu: None,
            number: 0,
        }
    }

    /// The same after the number of one more processor.
    #[inline(always)]
    fn with(self, d: CpuId, number: u8) -> Busiest
        ensures { (cpus : List CpuOf) (numbers : List ℕ) → length cpus ≡ length numbers → IsBusiest cpus numbers self
            → IsBusiest (cpus ++ d ∷ []) (numbers ++ number ∷ []) result }
    {
        // Most change nothing, and are known by their number alone.
        if number == 0 || number < self.number {
            return self;
        }
        match self.cpu {
            Some(c) if !is_busier(d, number, c, self.number) => self,
            _ => Busiest {
                cpu: Some(d),
                number,
            },
        }
    }
}

/// The number that processor `d` shows of its queue.
#[inline(always)]
fn number_of(work: &Work, world: &PlainWorld, d: CpuId) -> u8
    requires stands { Stands work.now world.now }
    requires cpu { d.0 < work.now.cpus }
    ensures { result ≡ hint_shown (told work.now world.now) Queued d }
{
    shown_hint(&world.acting, Which::Queued, d)
}

/// What the processor that acts reads of the others among these.
pub(crate) fn take_survey(work: &Work, world: &PlainWorld, cpus: &[CpuId]) -> Survey
    requires stands { Stands work.now world.now }
    requires fits { length cpus.now ≤ most_processors }
    requires there { AreCpus work.now cpus.now }
    ensures { IsSurvey (told work.now world.now) (filter (λ d. not (d.0 == world.now.acting.actor.cpu.0)) cpus.now) result }
{
    let c = world.acting.actor.cpu;
    let mut numbers = ArrayVec::new();
    let mut busiest = Busiest::none();
    for d in cpus {
        if d.0 != c.0 {
            let number = number_of(work, world, *d);
            numbers.push(number);
            busiest = busiest.with(*d, number);
        }
    }
    Survey {
        numbers,
        victim: busiest.cpu,
    }
}

/// The open processors of the set of the processor that acts.
pub(crate) fn open_around(x: &Acting) -> Option<&[CpuId]>
    ensures value { IfSome result (λ cpus. (n : ℕ) (s : StateOf) → IsShown x.now n s → cpus.now ≡ open_of s (cpu_of s x.now.actor.cpu.0).set.0) }
    ensures fits { IfSome result (λ cpus. length cpus.now ≤ most_processors) }
{
    let Ok(view) = x.cpu(x.actor.cpu) else {
        return None;
    };
    match x.open_cpus(view.set) {
        Ok(cpus) => Some(cpus),
        Err(_) => None,
    }
}
