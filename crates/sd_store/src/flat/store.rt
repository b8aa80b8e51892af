//! Changing a state that is one value.

ghost use Rattle.std.specs.Prelude.{◌≡◌};
ghost use Rattle.sd_machine.specs.Walking.{next_walk};
ghost use Rattle.sd_store.specs.Bodies.{changed};
ghost use Rattle.sd_store.specs.Flat.{CanChangeBody};

use crate::flat::Never;
use crate::keyless::{duty_of, place_by, place_put, rouse, walk};
use crate::{BodyChange, Chore, Destination, Store};
use sd_class::tick_class;
use sd_flat::{cpu_of, is_looped, is_thread, place_of, script_of};
use sd_state::{LockState, Place, State};
use sd_types::{ChanId, ClassState, CpuId, Duty, LockId, Put, Side, ThreadBody, ThreadId, Work};

/// Where the walk goes from the owner `o`, which is looped or not, at a place.
fn next_walk(duty: Duty, o: ThreadId, looped: bool, place: Place) -> Duty
    ensures { result ≡ next_walk duty o looped place }
{
    match (duty, place) {
        (Duty::Walk { seek, key, .. }, Place::Waiting(lock, _, k)) => {
            if looped || seek.0 == o.0 && key == k {
                Duty::Nothing
            } else if key < k {
                Duty::Walk {
                    lock,
                    seek: o,
                    key: k,
                }
            } else {
                Duty::Walk { lock, seek, key }
            }
        }
        _ => Duty::Nothing,
    }
}

/// The change of a body that can be changed so.
fn change(work: &Work, t: ThreadId, change: BodyChange, b: &mut ThreadBody)
    ensures { CanChangeBody work.now t.0 change b.old → b.new ≡ changed work.now t.0 change b.old }
{
    match change {
        BodyChange::Tick => {
            tick_class(work, &mut b.class);
            sd_flat::ran(script_of(work, t), b);
        }
        BodyChange::FinishOp => sd_flat::op_over(script_of(work, t), b),
        BodyChange::Class(class) => b.class = class,
        BodyChange::SendBack => b.back = true,
        BodyChange::Hold(l) => sd_flat::hold(b, l),
        BodyChange::LetGo(l) => b.release_lock(l),
        BodyChange::Inherit(l, number) => sd_flat::inherit(b, l, number),
        BodyChange::Looped(looped) => b.looped = looped,
    }
}

impl Store for State {
    #[tactic(auto, unfolding(sd_machine::specs::Changes::set_duty))]
    fn set_duty(&mut self, c: CpuId, chore: Chore) -> Result<(), Never> {
        sd_flat::set_duty(self, c, duty_of(chore));
        Ok(())
    }

    #[tactic(auto, unfolding(sd_machine::specs::Changes::set_duty))]
    fn begin_rouse(&mut self, number: u64, c: CpuId, k: ChanId) -> Result<(), Never> {
        sd_flat::set_duty(self, c, rouse(number, k));
        Ok(())
    }

    #[tactic(auto, unfolding(crate::specs::Walks::walk_begun, sd_machine::specs::Changes::set_duty))]
    fn begin_walk(&mut self, c: CpuId, t: ThreadId) -> Result<(), Never> {
        if let Place::Waiting(lock, _, key) = place_of(self, t) {
            sd_flat::set_duty(self, c, Duty::Walk { lock, seek: t, key });
        }
        Ok(())
    }

    #[tactic(auto, unfolding(crate::specs::Walks::walk_gone_on, sd_machine::specs::Changes::set_duty))]
    fn walk_on(&mut self, c: CpuId, o: ThreadId) -> Result<(), Never> {
        let duty = next_walk(
            cpu_of(self, c).duty,
            o,
            is_looped(self, o),
            place_of(self, o),
        );
        sd_flat::set_duty(self, c, duty);
        Ok(())
    }

    #[tactic(auto, unfolding(sd_machine::specs::Changes::count_tick))]
    fn count_tick(&mut self, work: &Work, c: CpuId) -> Result<(), Never> {
        sd_flat::count_tick(work, self, c);
        Ok(())
    }

    #[tactic(auto, unfolding(sd_machine::specs::Changes::clear_marks))]
    fn clear_marks(&mut self, c: CpuId) -> Result<(), Never> {
        sd_flat::clear_marks(self, c);
        Ok(())
    }

    #[tactic(auto, unfolding(sd_machine::specs::Changes::set_mark))]
    fn set_mark(&mut self, c: CpuId, m: u8) -> Result<(), Never> {
        sd_flat::set_mark(self, c, m);
        Ok(())
    }

    #[tactic(auto, using(sd_flat::proofs::Past::past))]
    fn change_body(
        &mut self,
        work: &Work,
        t: ThreadId,
        body_change: BodyChange,
    ) -> Result<(), Never> {
        if is_thread(self, t) {
            let body = &mut self.threads.items_mut()[t.0 as usize].body;
            change(work, t, body_change, body);
        }
        Ok(())
    }

    #[tactic(auto, unfolding(sd_machine::specs::Changes::run_on))]
    fn run_on(&mut self, t: ThreadId, c: CpuId) -> Result<(), Never> {
        sd_flat::run_on(self, t, c);
        Ok(())
    }

    #[tactic(auto, unfolding(sd_machine::specs::Changes::leave))]
    fn leave(&mut self, number: u64, c: CpuId, t: ThreadId, to: Destination) -> Result<(), Never> {
        sd_flat::leave(self, c, t, place_by(number, c, to));
        Ok(())
    }

    #[tactic(auto, unfolding(sd_machine::specs::Changes::leave, sd_machine::specs::Changes::set_duty))]
    fn block(
        &mut self,
        number: u64,
        c: CpuId,
        t: ThreadId,
        l: LockId,
        side: Side,
    ) -> Result<(), Never> {
        let place = place_by(number, c, Destination::Turnstile(l, side));
        sd_flat::leave(self, c, t, place);
        sd_flat::set_duty(self, c, walk(number, l, t));
        Ok(())
    }

    fn enqueue(&mut self, work: &Work, number: u64, t: ThreadId, at: Put) -> Result<(), Never> {
        sd_flat::move_to(self, t, place_put(work, number, t, at));
        Ok(())
    }

    #[tactic(auto, unfolding(sd_machine::specs::Changes::set_class))]
    fn enqueue_as(
        &mut self,
        work: &Work,
        number: u64,
        t: ThreadId,
        class: ClassState,
        at: Put,
    ) -> Result<(), Never> {
        self.change_body(work, t, BodyChange::Class(class))?;
        self.enqueue(work, number, t, at)
    }

    fn set_lock(&mut self, l: LockId, lock: LockState) -> Result<(), Never> {
        sd_flat::set_lock(self, l, lock);
        Ok(())
    }
}
