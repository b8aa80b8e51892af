//! The search of a workload, and what is said of it.

ghost use Rattle.std.specs.Prelude.{◌≡◌, ◌<◌, ◌-◌, ℕ, length, IfOk, OnErr, OnOk};
ghost use Rattle.sd_search.specs.Graphs.{Gathers, IsDeep, packed, steps_of};
ghost use Rattle.sd_search_answers.specs.Answered.{IsAnswered, IsCounted, IsSearch, IsTimed, IsTimedByName, IsTold, IsWaited, IsWaitedByName, count_verdict, timing_verdict, verdict_of};
ghost use Rattle.sd_search_answers.specs.Watched.{IsWatched};

use crate::forms::Aim;
use crate::texts::{text_of_count, text_of_finding};
use crate::timing_texts::text_of_timing;
use crate::timings::{Timing, thread_named, timing_of};
use crate::verdicts::{Told, Verdict};
use crate::waiting::{longest_verdict, text_of_longest};
use crate::watching::Watch;
use sd_longest::{longest_run, longest_wait};
use sd_search::{Finding, Graph, Question, begin, explore_more};
use sd_types::{ThreadId, Work};
use std::alloc::{AllocError, Global};

/// How many states are expanded between two reports (this project's own).
const SLICE: usize = 50_000;

/// The most slices of a search (this project's own): memory is taken to run out there.
const MOST_SLICES: u64 = 1 << 40;

/// Tells whoever watches how many states were found, and how many turns lead to the last of them.
fn report<W: Watch>(
    alloc: Global,
    work: &Work,
    graph: &Graph,
    watch: &mut W,
) -> Result<(), AllocError>
    requires gathered { Gathers work.now graph.now }
    requires some { 0 < length (packed graph.now) }
    ensures told { OnOk result ((depth : ℕ) × IsDeep (steps_of graph.now) (length (packed graph.now) - 1) depth × W.noted watch.old watch.new (length (packed graph.now)) depth) }
    ensures untold { OnErr result (watch.new ≡ watch.old) }
{
    let last = graph.path(alloc, work, graph.len() - 1)?;
    watch.saw(graph.len() as u64, last.len() as u64);
    Ok(())
}

/// Searches the workload, and reports behind each slice that does not end the search.
fn search<W: Watch>(
    alloc: Global,
    work: &Work,
    most: u64,
    watch: &mut W,
) -> Result<Graph, AllocError>
    ensures found { IfOk result (IsSearch work.now most) }
    ensures watched { IsWatched W.noted work.now watch.old watch.new }
{
    let mut graph = begin(alloc, work)?;
    for _ in 0..MOST_SLICES {
        explore_more(alloc, work, &mut graph, most as usize, SLICE)?;
        if graph.is_over(most as usize) {
            return Ok(graph);
        }
        report(alloc, work, &graph, watch)?;
    }
    Err(AllocError)
}

fn verdict_of(finding: &Finding) -> Verdict
    ensures { result ≡ verdict_of finding.now }
{
    match finding {
        Finding::Found { .. } => Verdict::Found,
        Finding::Never => Verdict::Never,
        Finding::More => Verdict::More,
    }
}

fn count_verdict(all: bool) -> Verdict
    ensures { result ≡ count_verdict all }
{
    if all { Verdict::Done } else { Verdict::More }
}

/// The answer to a question, by the states that a search has found.
fn answer_from(
    alloc: Global,
    work: &Work,
    question: Question,
    graph: &Graph,
) -> Result<Told, AllocError>
    requires { Gathers work.now graph.now }
    ensures { IfOk result (λ told. (most : ℕ) → IsSearch work.now most graph.now → IsAnswered work.now question most told) }
{
    let finals = graph.finals(alloc, work)?;
    let finding = graph.finding(alloc, work, &finals, question)?;
    let many = graph.len();
    let text = text_of_finding(alloc, work, question, &finding, many as u64)?;
    let verdict = verdict_of(&finding);
    Ok(Told { verdict, text })
}

/// The answer to a question.
fn answer<W: Watch>(
    alloc: Global,
    work: &Work,
    question: Question,
    most: u64,
    watch: &mut W,
) -> Result<Told, AllocError>
    ensures said { IfOk result (IsAnswered work.now question most) }
    ensures watched { IsWatched W.noted work.now watch.old watch.new }
{
    let graph = search(alloc, work, most, watch)?;
    answer_from(alloc, work, question, &graph)
}

/// How many states a search has found, in how many of them runs end, and how many entries a run has at most.
fn count_from(alloc: Global, work: &Work, graph: &Graph) -> Result<Told, AllocError>
    requires { Gathers work.now graph.now }
    ensures { IfOk result (λ told. (most : ℕ) → IsSearch work.now most graph.now → IsCounted work.now most told) }
{
    let finals = graph.finals(alloc, work)?;
    let many = graph.len();
    let all = graph.is_closed();
    let entries = longest_run(alloc, work, graph)?;
    let text = text_of_count(alloc, all, many as u64, finals.len() as u64, entries)?;
    let verdict = count_verdict(all);
    Ok(Told { verdict, text })
}

/// How many states there are, in how many of them runs end, and how many entries a run has at most.
fn count<W: Watch>(alloc: Global, work: &Work, most: u64, watch: &mut W) -> Result<Told, AllocError>
    ensures said { IfOk result (IsCounted work.now most) }
    ensures watched { IsWatched W.noted work.now watch.old watch.new }
{
    let graph = search(alloc, work, most, watch)?;
    count_from(alloc, work, &graph)
}

fn timing_verdict(timing: &Timing) -> Verdict
    ensures { result ≡ timing_verdict timing.now }
{
    match timing {
        Timing::Between { .. } => Verdict::Found,
        Timing::Never => Verdict::Never,
        Timing::More => Verdict::More,
    }
}

/// When the thread ends, by the states that a search has found.
fn time_from(
    alloc: Global,
    work: &Work,
    thread: ThreadId,
    graph: &Graph,
) -> Result<Told, AllocError>
    requires { Gathers work.now graph.now }
    ensures { IfOk result (λ told. (most : ℕ) → IsSearch work.now most graph.now → IsTimed work.now thread most told) }
{
    let timing = timing_of(alloc, work, graph, thread)?;
    let many = graph.len();
    let text = text_of_timing(alloc, work, thread, &timing, many as u64)?;
    let verdict = timing_verdict(&timing);
    Ok(Told { verdict, text })
}

/// When the thread ends.
fn time<W: Watch>(
    alloc: Global,
    work: &Work,
    thread: ThreadId,
    most: u64,
    watch: &mut W,
) -> Result<Told, AllocError>
    ensures said { IfOk result (IsTimed work.now thread most) }
    ensures watched { IsWatched W.noted work.now watch.old watch.new }
{
    let graph = search(alloc, work, most, watch)?;
    time_from(alloc, work, thread, &graph)
}

/// When the thread of this name ends. Where there is none nothing is searched, and the text is empty.
fn time_named<W: Watch>(
    alloc: Global,
    work: &Work,
    name: &[u8],
    most: u64,
    watch: &mut W,
) -> Result<Told, AllocError>
    ensures said { IfOk result (IsTimedByName work.now name.now most) }
    ensures watched { IsWatched W.noted work.now watch.old watch.new }
{
    match thread_named(work, name) {
        Some(thread) => time(alloc, work, thread, most, watch),
        None => Ok(Told {
            verdict: Verdict::NoThread,
            text: Vec::new(alloc),
        }),
    }
}

/// How long the thread waits at most from a wakeup to its running, by the states that a search has found.
fn wait_from(
    alloc: Global,
    work: &Work,
    thread: ThreadId,
    graph: &Graph,
) -> Result<Told, AllocError>
    requires { Gathers work.now graph.now }
    ensures { IfOk result (λ told. (most : ℕ) → IsSearch work.now most graph.now → IsWaited work.now thread most told) }
{
    let longest = longest_wait(alloc, work, graph, thread)?;
    let many = graph.len();
    let text = text_of_longest(alloc, work, &longest, many as u64)?;
    let verdict = longest_verdict(&longest);
    Ok(Told { verdict, text })
}

/// How long the thread waits at most from a wakeup to its running.
fn wait<W: Watch>(
    alloc: Global,
    work: &Work,
    thread: ThreadId,
    most: u64,
    watch: &mut W,
) -> Result<Told, AllocError>
    ensures said { IfOk result (IsWaited work.now thread most) }
    ensures watched { IsWatched W.noted work.now watch.old watch.new }
{
    let graph = search(alloc, work, most, watch)?;
    wait_from(alloc, work, thread, &graph)
}

/// How long the thread of this name does. Where there is none nothing is searched, and the text is empty.
fn wait_named<W: Watch>(
    alloc: Global,
    work: &Work,
    name: &[u8],
    most: u64,
    watch: &mut W,
) -> Result<Told, AllocError>
    ensures said { IfOk result (IsWaitedByName work.now name.now most) }
    ensures watched { IsWatched W.noted work.now watch.old watch.new }
{
    match thread_named(work, name) {
        Some(thread) => wait(alloc, work, thread, most, watch),
        None => Ok(Told {
            verdict: Verdict::NoThread,
            text: Vec::new(alloc),
        }),
    }
}

/// Searches the workload for what is asked, up to so many states: what is said, with its text. Behind each 50,000 states that were
/// expanded without an end, `watch` is told how far the search has come.
pub fn tell<W: Watch>(
    alloc: Global,
    work: &Work,
    aim: &Aim,
    most: u64,
    watch: &mut W,
) -> Result<Told, AllocError>
    ensures said { IfOk result (IsTold work.now aim.now most) }
    ensures watched { IsWatched W.noted work.now watch.old watch.new }
{
    match aim {
        Aim::Find(question) => answer(alloc, work, *question, most, watch),
        Aim::Count => count(alloc, work, most, watch),
        Aim::Ends { name } => time_named(alloc, work, name, most, watch),
        Aim::Waits { name } => wait_named(alloc, work, name, most, watch),
    }
}
