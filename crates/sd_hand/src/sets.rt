//! Changing counts, sets of processors and bindings by a hand.

use crate::acting::Acting;
use sd_homes::IsFull;
use sd_store::{CpuView, Part, Sets};
use sd_types::{ChanId, CpuId, SetId, ThreadId};

impl Sets for Acting {
    fn set_tokens(&mut self, k: ChanId, n: u32) -> Result<(), Part> {
        match self.hand.tokens(k) {
            Err(q) => Err(q),
            Ok(_) => {
                self.hand.set_tokens(k, n);
                Ok(())
            }
        }
    }

    fn set_kernel_mark(&mut self, c: CpuId) -> Result<(), Part> {
        match self.hand.view(c) {
            Err(q) => Err(q),
            Ok(view) => {
                self.set_view(
                    c,
                    CpuView {
                        kernel: true,
                        ..view
                    },
                );
                Ok(())
            }
        }
    }

    fn close(&mut self, d: CpuId, to: SetId) -> Result<(), Part> {
        let view = match self.hand.view(d) {
            Err(q) => return Err(q),
            Ok(view) => view,
        };
        match self.hand.open_cpus(view.set) {
            Err(q) => Err(q),
            Ok(_) => {
                self.shut(view.set, d);
                self.set_view(
                    d,
                    CpuView {
                        closing: Some(to),
                        ..view
                    },
                );
                Ok(())
            }
        }
    }

    fn join(&mut self, c: CpuId, set: SetId) -> Result<(), Part> {
        let view = match self.hand.view(c) {
            Err(q) => return Err(q),
            Ok(view) => view,
        };
        match self.hand.open_cpus(set) {
            Err(q) => Err(q),
            Ok(_) => match self.open(set, c) {
                // None of the states that are shown asks for this.
                Err(IsFull) => Ok(()),
                Ok(()) => {
                    self.set_view(
                        c,
                        CpuView {
                            set,
                            closing: None,
                            ..view
                        },
                    );
                    Ok(())
                }
            },
        }
    }

    fn bind(&mut self, t: ThreadId, d: CpuId) -> Result<(), Part> {
        let at = match self.hand.where_is(t) {
            Err(q) => return Err(q),
            Ok(at) => at,
        };
        match self.hand.view(d) {
            Err(q) => Err(q),
            Ok(view) => {
                if view.bound < u16::MAX {
                    self.bind_at(t, at, Some(d));
                    let bound = view.bound + 1;
                    self.set_view(d, CpuView { bound, ..view });
                }
                Ok(())
            }
        }
    }

    fn unbind(&mut self, t: ThreadId, b: CpuId) -> Result<(), Part> {
        let at = match self.hand.where_is(t) {
            Err(q) => return Err(q),
            Ok(at) => at,
        };
        match self.hand.view(b) {
            Err(q) => Err(q),
            Ok(view) => {
                self.bind_at(t, at, None);
                let bound = view.bound.saturating_sub(1);
                self.set_view(b, CpuView { bound, ..view });
                Ok(())
            }
        }
    }
}
