//! The drawing of an input that holds a workload or a task set, and a journal.

ghost use Rattle.sd_answers.specs.Handing.{LeavesHeldBy};
ghost use Rattle.sd_answers.specs.StreamChanges.{change_of};
ghost use Rattle.sd_viewer.specs.Viewing.{CausedByView, IsDrawing, viewed_answer, viewed_line};

use crate::drawings::{Drawing, draw};
use crate::lines::left_line;
use sd_answers::{Answer, print_text};
use sd_set_inputs::read_certificate;
use sd_text::{Sink, Source};
use std::alloc::Global;

/// The text of a drawing, and what is said of it: what is left out, or is not there.
#[derive(Drop)]
pub struct Drawn {
    pub text: Vec<u8>,
    pub line: Vec<u8>,
}

/// The drawing of the run whose journal the input holds behind its workload, or why there is none.
fn draw_input<S: Source>(alloc: Global, drawing: &Drawing, input: &mut S) -> Result<Drawn, Answer>
    ensures { IsDrawing drawing.now (change_of (S.remaining input.old) (S.remaining input.new) (S.fault_count input.old) (S.fault_count input.new)) result }
{
    let certificate = read_certificate(alloc, input)?;
    let work = &certificate.work;
    let text = draw(
        alloc,
        work,
        &certificate.tasks,
        &certificate.journal,
        drawing,
    )?;
    let line = left_line(alloc, work, drawing)?;
    Ok(Drawn { text, line })
}

/// Reads a workload or a task set, and a journal, and writes the drawing of the run, all of which is handed on, where the journal is that of a
/// complete one. What is said of it is returned.
pub(crate) fn view_input<S: Source, K: Sink>(
    alloc: Global,
    drawing: &Drawing,
    input: &mut S,
    out: &mut K,
) -> Result<Vec<u8>, Answer>
    ensures caused { CausedByView drawing.now
        (change_of (S.remaining input.old) (S.remaining input.new) (S.fault_count input.old) (S.fault_count input.new))
        (change_of (K.contents out.old) (K.contents out.new) (K.fault_count out.old) (K.fault_count out.new))
        (viewed_answer result) (viewed_line result) }
    ensures leaves { LeavesHeldBy (viewed_answer result) (K.held_back out.old) (K.held_back out.new) }
{
    let drawn = draw_input(alloc, drawing, input)?;
    print_text(out, &drawn.text)?;
    Ok(drawn.line)
}
