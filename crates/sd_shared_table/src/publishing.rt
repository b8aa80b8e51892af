//! A processor shows to others who runs and who is queued on the processors whose homes it holds.

ghost use Rattle.std.specs.Prelude.{◌≡◌, true};
ghost use Rattle.sd_types.specs.declared.numbers.HomeId.{HomeId as HomeIdOf};
ghost use Rattle.sd_types.specs.declared.numbers.HomeId.TheVariants.{Cpu};
ghost use Rattle.sd_hand.specs.Hands.{IsHeld};
ghost use Rattle.sd_shared_table.specs.Seats.{Fits, HasWritten, ShowsHint, ShowsHints, id_of, work_of};

use crate::seat::{Held, Seat};
use crate::shared::Shared;
use sd_types::{CpuId, HomeId, Which};
use sd_world::shown_hint;
use std::marker::Brand;

impl Shared {
    /// The hints of each processor whose home is held are the numbers that it shows.
    pub(crate) fn publish_hints(&self, seat: &mut Seat)
        requires fits { Fits (id_of self.now) (work_of self.now) seat.old }
        ensures fits { Fits (id_of self.now) (work_of self.now) seat.new }
        ensures written { HasWritten seat.old seat.new }
        ensures shows { (k : HomeIdOf) → IsHeld k seat.new.acting.hand.slots → ShowsHints (work_of self.now) seat.new k }
    {
        for i in 0..seat.order.len() {
            let Held(k) = seat.order[i];
            self.publish_hints_of(seat, k);
        }
    }

    /// Those of the processor whose home this is, if it is that of one.
    fn publish_hints_of(&self, seat: &mut Seat, k: HomeId)
        requires fits { Fits (id_of self.now) (work_of self.now) seat.old }
        requires held { IsHeld k seat.old.acting.hand.slots }
        ensures fits { Fits (id_of self.now) (work_of self.now) seat.new }
        ensures written { HasWritten seat.old seat.new }
        ensures shows { ShowsHints (work_of self.now) seat.new k }
    {
        if let HomeId::Cpu(c) = k {
            self.publish_hint(seat, c, Which::Running);
            self.publish_hint(seat, c, Which::Queued);
        }
    }

    /// A hint of a processor whose home is held.
    fn publish_hint(&self, seat: &mut Seat, c: CpuId, which: Which)
        requires fits { Fits (id_of self.now) (work_of self.now) seat.old }
        requires held { IsHeld (Cpu c) seat.old.acting.hand.slots }
        ensures fits { Fits (id_of self.now) (work_of self.now) seat.new }
        ensures written { HasWritten seat.old seat.new }
        ensures shows { ShowsHint (work_of self.now) seat.new c which }
    {
        let hint = shown_hint(&seat.acting, which, c);
        self.write_hint::<Brand>(&mut seat.place, c, which, hint);
    }
}
