//! The rows of processors: how often each of them does what.

ghost use Rattle.std.specs.Prelude.{◌≡◌, ◌++◌, ◌∷◌, [], ◌&&◌, ◌==◌, IfOk, OnOk, count_by};
ghost use Rattle.std.specs.List.{flat_map, range_with_len};
ghost use Rattle.sd_statistics.specs.Cpus.{cpu_entries, cpu_part, cpu_rows, deed_figures, deed_row, deeds, is_deed};

use crate::rows::{Figures, Measure, Row, Subject, count_figures, push_row, tick_figures};
use sd_stretches::{Happening, History};
use sd_types::{Event, Work};
use std::alloc::{AllocError, Global};

/// What a processor does by an entry: it takes a tick for a thread that runs, or that spins, or for none; it dispatches a thread of
/// its own queue or of its partition's real-time queue, or steals one; its thread is preempted.
#[derive(Clone, Copy)]
pub enum Deed {
    Runs,
    Spins,
    Idles,
    Dispatches,
    Steals,
    Preempts,
}

fn is_deed(deed: Deed, event: &Event) -> bool
    ensures { result ≡ is_deed deed event.now }
{
    match (deed, event) {
        (Deed::Runs, Event::Tick { .. }) => true,
        (Deed::Spins, Event::Spin { .. }) => true,
        (Deed::Idles, Event::Idle) => true,
        (Deed::Dispatches, Event::Dispatch { .. }) => true,
        (Deed::Steals, Event::Steal { .. }) => true,
        (Deed::Preempts, Event::Preempt { .. } | Event::Away { .. }) => true,
        _ => false,
    }
}

fn push_own(c: u16, x: &Happening, own: &mut Vec<Happening>) -> Result<(), AllocError>
    ensures { OnOk result (own.new.items ≡ own.old.items ++ cpu_entries c (x.now ∷ [])) }
{
    if x.cpu.0 == c {
        own.push(*x)?;
    }
    Ok(())
}

// The entries of one processor.
fn cpu_entries(
    alloc: Global,
    c: u16,
    happenings: &[Happening],
) -> Result<Vec<Happening>, AllocError>
    ensures { IfOk result (λ v. v.items ≡ cpu_entries c happenings.now) }
{
    let mut own = Vec::new(alloc);
    for x in happenings {
        push_own(c, x, &mut own)?;
    }
    Ok(own)
}

// How many entries of processor `c` are of the kind.
fn deeds(deed: Deed, c: u16, happenings: &[Happening]) -> usize
    ensures { result ≡ deeds deed c happenings.now }
{
    happenings
        .iter()
        .filter(|x| x.cpu.0 == c && is_deed(deed, &x.event))
        .count()
}

// Ticks, or how often.
fn deed_figures(deed: Deed, number: u64) -> Figures
    ensures { result ≡ deed_figures deed number }
{
    match deed {
        Deed::Runs | Deed::Spins | Deed::Idles => tick_figures(number),
        Deed::Dispatches | Deed::Steals | Deed::Preempts => count_figures(number),
    }
}

fn push_deed(
    deed: Deed,
    c: u16,
    happenings: &[Happening],
    out: &mut Vec<Row>,
) -> Result<(), AllocError>
    ensures { OnOk result (out.new.items ≡ out.old.items ++ deed_row c happenings.now deed) }
{
    push_row(
        Row {
            subject: Subject::Cpu(c),
            measure: Measure::Makes(deed),
            figures: deed_figures(deed, deeds(deed, c, happenings) as u64),
        },
        out,
    )
}

#[tactic(auto, unfolding(crate::specs::Cpus::cpu_part))]
fn push_deeds(c: u16, happenings: &[Happening], out: &mut Vec<Row>) -> Result<(), AllocError>
    ensures { OnOk result (out.new.items ≡ out.old.items ++ cpu_part happenings.now c) }
{
    push_deed(Deed::Runs, c, happenings, out)?;
    push_deed(Deed::Spins, c, happenings, out)?;
    push_deed(Deed::Idles, c, happenings, out)?;
    push_deed(Deed::Dispatches, c, happenings, out)?;
    push_deed(Deed::Steals, c, happenings, out)?;
    push_deed(Deed::Preempts, c, happenings, out)
}

// The rows of a processor. Its own entries are found once, since most are those of others.
fn push_cpu(
    alloc: Global,
    c: u16,
    happenings: &[Happening],
    out: &mut Vec<Row>,
) -> Result<(), AllocError>
    ensures { OnOk result (out.new.items ≡ out.old.items ++ cpu_part happenings.now c) }
{
    let own = cpu_entries(alloc, c, happenings)?;
    push_deeds(c, &own, out)
}

/// The rows of the processors of a run of the workload, of which this is the history: the ticks that each takes for a thread that
/// runs or spins, and with none, and how often it dispatches and steals a thread and its thread is preempted. A row that would
/// have nothing to count is left out.
#[tactic(auto, unfolding(crate::specs::Cpus::cpu_rows))]
pub fn cpu_rows(alloc: Global, work: &Work, history: &History) -> Result<Vec<Row>, AllocError>
    ensures { IfOk result (λ v. v.items ≡ cpu_rows work.now history.now) }
{
    let mut rows = Vec::new(alloc);
    for c in 0..work.cpus {
        push_cpu(alloc, c, &history.happenings, &mut rows)?;
    }
    Ok(rows)
}
