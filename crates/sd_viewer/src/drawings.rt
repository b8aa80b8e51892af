//! The drawings.

ghost use Rattle.std.specs.Prelude.{◌≡◌, ◌<◌, ◌^◌, ℕ, IfOk, IfErr, length, map};
ghost use Rattle.sd_state.specs.declared.states.State.{State as StateValue};
ghost use Rattle.sd_machine.specs.LockGraph.{cycles_of};
ghost use Rattle.sd_audit.specs.Audits.{IsFault, IsJournal, IsMemory};
ghost use Rattle.sd_set_inputs.specs.ToldTasks.{tasks_said};
ghost use Rattle.sd_viewer.specs.Drawings.{IsDrawn, picture_text};
ghost use Rattle.sd_viewer.specs.Views.{drawing_of, view_text};

use crate::frames::frame_of;
use crate::gathering::{Gathered, gather};
use crate::reports::{jobs_of, report_of, sheet_of};
use sd_audit::AuditFault;
use sd_state::State;
use sd_story::{Selection, tell};
use sd_stretches::ByThread;
use sd_tasks::SetTask;
use sd_timeline::timeline;
use sd_trace::trace;
use sd_types::Work;
use std::alloc::{AllocError, Global};

/// What is drawn of a run: the timeline of the ticks from `from` to `to`, the trace, a story of some of its entries, or its
/// statistics, as a table or as comma-separated rows, or the jobs of its tasks.
#[derive(Drop)]
pub enum Drawing {
    Timeline { from: u32, to: u32 },
    Trace,
    Story(Selection),
    Report,
    Sheet,
    Jobs,
}

/// A drawing that is made of the whole history of a run.
#[derive(Clone, Copy)]
enum View {
    Timeline { from: u32, to: u32 },
    Trace,
    Report,
    Sheet,
    Jobs,
}

/// The picture of the ticks from `from` to `to`, of a run with this history, this last state and its blocking cycles; there is none where
/// the run has none of the ticks.
fn picture(
    alloc: Global,
    work: &Work,
    from: u32,
    to: u32,
    history: &ByThread,
    end: &State,
    cycles: &[Vec<usize>],
) -> Result<Vec<u8>, AllocError>
    requires { map (λ v. v.items) cycles.now ≡ cycles_of end.now }
    ensures { IfOk result (λ text. text.items ≡ picture_text work.now history.now from to end.now) }
{
    if work.limit <= from {
        return Ok(Vec::new(alloc));
    }
    let frame = frame_of(work, &history.history, from, to);
    timeline(alloc, work, frame, history, end, cycles)
}

/// What the view shows of a run.
fn view_text(
    alloc: Global,
    work: &Work,
    tasks: &Option<Vec<SetTask>>,
    view: View,
    run: Gathered,
) -> Result<Vec<u8>, AllocError>
    requires { map (λ v. v.items) run.cycles.items ≡ cycles_of run.end }
    ensures { IfOk result (λ out. out.items ≡ view_text view (tasks_said tasks.now) work.now run.history run.end) }
{
    let Gathered {
        history,
        end,
        cycles,
        ..
    } = run;
    let history = history.by_thread(alloc)?;
    match view {
        View::Timeline { from, to } => picture(alloc, work, from, to, &history, &end, &cycles),
        View::Trace => trace(alloc, work, &history),
        View::Report => report_of(alloc, work, tasks, &history, &end),
        View::Sheet => sheet_of(alloc, work, tasks, &history, &end),
        View::Jobs => jobs_of(alloc, work, tasks, &history, &end),
    }
}

/// The view of the run whose journal the text is.
fn draw_view(
    alloc: Global,
    work: &Work,
    tasks: &Option<Vec<SetTask>>,
    text: &[u8],
    view: View,
) -> Result<Vec<u8>, AuditFault>
    requires { length text.now < 2 ^ 31 }
    ensures drawn { IfOk result (λ out. IsDrawn (drawing_of view) (tasks_said tasks.now) work.now text.now out.items) }
    ensures fault { IfErr result (IsFault work.now text.now) }
{
    let gathered = gather(alloc, work, text)?;
    let number = gathered.number;
    let Ok(out) = view_text(alloc, work, tasks, view, gathered) else {
        return Err(AuditFault::Memory { number });
    };
    Ok(out)
}

/// The drawing of the run whose journal the text is; where it is no journal of a complete legal run, what is first at fault. A
/// text that is such a journal is refused only where memory runs out. The text is read once. The tasks are those of the set that expands
/// to the workload, where it comes from one.
pub fn draw(
    alloc: Global,
    work: &Work,
    tasks: &Option<Vec<SetTask>>,
    text: &[u8],
    drawing: &Drawing,
) -> Result<Vec<u8>, AuditFault>
    requires { length text.now < 2 ^ 31 }
    ensures drawn { IfOk result (λ out. IsDrawn drawing.now (tasks_said tasks.now) work.now text.now out.items) }
    ensures fault { IfErr result (IsFault work.now text.now) }
    ensures exact { IfErr result (λ fault. (s : StateValue) (n : ℕ) → IsJournal work.now text.now s n → IsMemory fault) }
{
    match drawing {
        Drawing::Timeline { from, to } => {
            let view = View::Timeline {
                from: *from,
                to: *to,
            };
            draw_view(alloc, work, tasks, text, view)
        }
        Drawing::Trace => draw_view(alloc, work, tasks, text, View::Trace),
        Drawing::Story(selection) => tell(alloc, work, text, selection),
        Drawing::Report => draw_view(alloc, work, tasks, text, View::Report),
        Drawing::Sheet => draw_view(alloc, work, tasks, text, View::Sheet),
        Drawing::Jobs => draw_view(alloc, work, tasks, text, View::Jobs),
    }
}
