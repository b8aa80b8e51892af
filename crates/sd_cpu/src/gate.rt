//! A gate that a processor passes once in each turn, with the home that the turn looks at first: a
//! test holds a processor there, or reads the home.

ghost use Rattle.std.specs.Prelude.{◌≡◌, ◌||◌, is_some};
ghost use Rattle.sd_hand.specs.Hands.{held};
ghost use Rattle.sd_world.specs.Worlds.{Meaning};
ghost use Rattle.sd_cpu.specs.Gates.{first_home, holds_first};

use sd_hand::{Actor, Hand};
use sd_homes::Home;
use sd_types::{CpuId, Duty, HomeId, home_of_chan, home_of_lock};
use sd_world::World;

/// What is done as a processor passes. It changes nothing.
pub trait Gate {
    /// Whether nothing is done there, so that nobody has to pass.
    fn is_open(&self) -> bool {
        false
    }

    /// The processor passes. `turn` counts its turns from 0, those that make no entry included. The
    /// home is lent from where the run keeps it.
    fn pass(&self, cpu: CpuId, turn: u64, home: &Home);
}

/// A gate that holds nobody.
#[derive(Clone, Copy)]
pub struct OpenGate;

impl Gate for OpenGate {
    #[inline(always)]
    fn is_open(&self) -> bool {
        true
    }

    fn pass(&self, cpu: CpuId, turn: u64, home: &Home) {}
}

/// The home that a turn with this duty looks at first: the processor's own where it has no duty or
/// ages its queue, and else the chain of the lock or the sleepers of the channel.
fn first_home(cpu: CpuId, duty: Duty) -> HomeId
    ensures { result ≡ first_home cpu duty }
{
    match duty {
        Duty::Nothing => HomeId::Cpu(cpu),
        Duty::Age(_) => HomeId::Cpu(cpu),
        Duty::Walk { lock, .. } => home_of_lock(lock),
        Duty::WakeMutex(lock) => home_of_lock(lock),
        Duty::GrantWriter(lock) => home_of_lock(lock),
        Duty::GrantReaders(lock) => home_of_lock(lock),
        Duty::Rouse(channel, _) => home_of_chan(channel),
    }
}

/// The processor passes the gate, where the hand has the home that its turn looks at first. Whether
/// the hand has it.
pub fn pass_gate<G: Gate>(gate: &G, turn: u64, actor: Actor, hand: &Hand) -> bool
    ensures { result ≡ is_some (held (first_home actor.cpu actor.duty) hand.now.slots) }
{
    match hand.home(first_home(actor.cpu, actor.duty)) {
        Err(_) => false,
        Ok(home) => {
            gate.pass(actor.cpu, turn, home);
            true
        }
    }
}

/// The processor that acts passes the gate, where it has not and has the home for it.
pub(crate) fn pass_once<W: World, G: Gate>(world: &W, gate: &G, turn: u64, passed: bool) -> bool
    ensures { result ≡ passed || holds_first (W.meaning world.now).acting }
{
    if passed {
        return true;
    }
    let acting = world.acting();
    pass_gate(gate, turn, acting.actor, &acting.hand)
}
