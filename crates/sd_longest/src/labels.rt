//! Since when a wait is open in each state.

ghost use Rattle.sd_longest.specs.declared.labels.Label.{Label as LabelOf};
ghost use Rattle.sd_longest.specs.Labels.{IsLabelled};

use sd_types::CpuId;

/// A wait that is open in a state, and the last edge of the walk along which it came there.
#[derive(Clone, Copy)]
pub(crate) struct Label {
    /// The tick of the edge that opened the wait.
    pub since: u32,

    /// The state that the last edge leads from.
    pub before: usize,

    /// The processor of the last edge.
    pub cpu: CpuId,

    /// How many edges follow the one that opened the wait: with 0 that one is the last.
    pub steps: usize,
}

/// The label of state `i`, which has one.
pub(crate) fn label_at(labels: &[Option<Label>], i: usize) -> Label
    requires { (l : LabelOf) × IsLabelled labels.now i l }
    ensures { IsLabelled labels.now i result }
{
    match labels[i] {
        Some(label) => label,
        None => unreachable!(),
    }
}
