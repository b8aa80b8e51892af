//! The words of a table at its opening: no home is held, and each thread's word names the home in which it stands.

ghost use Rattle.std.specs.Prelude.{◌≡◌, ℕ, ◌+◌, ◌++◌, ◌<◌, List, length, map, replicate, IfOk, OnOk};
ghost use Rattle.std.specs.List.{range_with_len};
ghost use Rattle.sd_shared_rule.specs.Places.{place_home};
ghost use Rattle.sd_world.specs.Plain.{Stands, told};
ghost use Rattle.sd_shared_table.specs.Whole.{AreFirstWords, AreHints};

use crate::indices::{home_count, index_in};
use sd_homes::home_at;
use sd_types::{CpuId, ThreadId, Which, Work};
use sd_world::{PlainWorld, shown_hint};
use std::alloc::{AllocError, Global};

/// So many words more, which are 0.
fn push_zeros(words: &mut Vec<u64>, more: usize) -> Result<(), AllocError>
    ensures { OnOk result (words.new.items ≡ words.old.items ++ replicate more 0) }
{
    for _ in 0..more {
        words.push(0)?;
    }
    Ok(())
}

/// The index of the home in which a thread of the run stands.
fn place_of(work: &Work, world: &PlainWorld, t: ThreadId) -> u64
    requires stands { Stands work.now world.now }
    requires there { t.0 < length work.now.threads }
    ensures { result ≡ place_home work.now (told work.now world.now) t.0 }
{
    match world.acting.hand.where_is(t) {
        Ok(at) => index_in(work, home_at(at)) as u64,
        Err(_) => unreachable!(),
    }
}

/// The words of the threads.
fn push_places(words: &mut Vec<u64>, work: &Work, world: &PlainWorld) -> Result<(), AllocError>
    requires stands { Stands work.now world.now }
    ensures { OnOk result (words.new.items ≡ words.old.items ++ map (place_home work.now (told work.now world.now)) (range_with_len 0 (length work.now.threads))) }
{
    for t in 0..work.threads.items().len() {
        words.push(place_of(work, world, ThreadId(t as u16)))?;
    }
    Ok(())
}

/// The words of the hints of the processors, as the homes tell them.
fn push_hints(words: &mut Vec<u64>, work: &Work, world: &PlainWorld) -> Result<(), AllocError>
    requires stands { Stands work.now world.now }
    ensures { OnOk result ((hints : List ℕ) × AreHints work.now hints × (words.new.items ≡ words.old.items ++ hints)) }
{
    for c in 0..work.cpus {
        let running = shown_hint(&world.acting, Which::Running, CpuId(c));
        let queued = shown_hint(&world.acting, Which::Queued, CpuId(c));
        words.push(u64::from(running))?;
        words.push(u64::from(queued))?;
    }
    Ok(())
}

/// The words of a table whose homes are those of this run. `Err` only where memory runs out.
pub(crate) fn words_of(
    alloc: Global,
    work: &Work,
    world: &PlainWorld,
) -> Result<Vec<u64>, AllocError>
    requires stands { Stands work.now world.now }
    ensures { IfOk result (λ v. AreFirstWords work.now (told work.now world.now) v.items) }
{
    let mut words = Vec::new(alloc);
    push_zeros(&mut words, home_count(work) + 1)?;
    push_places(&mut words, work, world)?;
    push_hints(&mut words, work, world)?;
    push_zeros(&mut words, work.cpus as usize)?;
    Ok(words)
}
