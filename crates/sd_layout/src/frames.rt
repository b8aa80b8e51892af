//! What is asked for of a run, and when the last thing happens in it.

ghost use Rattle.std.specs.Prelude.{◌≡◌};
ghost use Rattle.sd_layout.specs.Frames.{act_tick, last_act};

use sd_stretches::Happening;
use sd_types::Event;

/// What is to be drawn of a run: the ticks from `from` to `to`, a row for each of so many processors, and rows for so many threads.
#[derive(Clone, Copy)]
pub struct Frame {
    pub from: u32,
    pub to: u32,
    pub cpus: u16,
    pub threads: u16,
}

// The tick of an entry by which something happens, which is not so of one by which a processor has nothing to run.
fn act_tick(x: &Happening) -> u32
    ensures { result ≡ act_tick x.now x.now.event }
{
    match x.event {
        Event::Idle => 0,
        _ => x.tick,
    }
}

/// The last tick at which anything happens, beside ticks of processors that have nothing to run.
pub fn last_act(happenings: &[Happening]) -> u32
    ensures { result ≡ last_act happenings.now }
{
    let mut i = happenings.len();
    let mut last = 0;
    while i > 0 {
        i -= 1;
        last = act_tick(&happenings[i]).max(last);
    }
    last
}
