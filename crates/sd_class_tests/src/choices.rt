//! Choices of a processor and of a victim, worked out by hand.

ghost use Rattle.std.specs.Prelude.{◌≡◌, ◌<◌, IfOk, length};

use sd_rules::{choose, victim};
use sd_types::CpuId;
use std::alloc::{AllocError, Global};
use std::test::Fail;

const ALL: [CpuId; 4] = [CpuId(0), CpuId(1), CpuId(2), CpuId(3)];

const SOME: [CpuId; 3] = [CpuId(2), CpuId(5), CpuId(9)];

const SEVEN: [CpuId; 1] = [CpuId(7)];

const FALLING: [CpuId; 2] = [CpuId(9), CpuId(5)];

/// Whether `want` is chosen for a thread that ran last on `last`.
fn is_chosen(cpus: &[CpuId], hints: &[u8], last: u16, warm: bool, want: u16) -> bool {
    !cpus.is_empty()
        && cpus.len() == hints.len()
        && choose(cpus, hints, CpuId(last), warm).0 == want
}

/// The first choice that is another.
fn wrong_choice() -> Option<usize> {
    // the processors, their hints, the last processor, warm, and the choice
    let cases: [(&[CpuId], &[u8], u16, bool, u16); 20] = [
        // the only one, whatever else
        (&SEVEN, &[0], 7, true, 7),
        (&SEVEN, &[160], 7, false, 7),
        (&SEVEN, &[30], 3, true, 7),
        (&SEVEN, &[30], 3, false, 7),
        // warm
        (&ALL, &[9, 9, 9, 160], 3, true, 3),
        (&ALL, &[0, 0, 0, 0], 2, true, 2),
        (&SOME, &[1, 200, 1], 5, true, 5),
        // warm on a processor that is not among them
        (&SOME, &[3, 2, 1], 1, true, 9),
        (&SOME, &[1, 1, 1], 3, true, 2),
        // the least hint
        (&ALL, &[9, 8, 7, 8], 0, false, 2),
        (&ALL, &[1, 8, 7, 8], 3, false, 0),
        (&ALL, &[30, 20, 10, 0], 0, false, 3),
        (&SOME, &[160, 159, 160], 2, false, 5),
        // ties go to the last processor
        (&ALL, &[0, 0, 0, 0], 2, false, 2),
        (&ALL, &[4, 3, 4, 3], 3, false, 3),
        (&SOME, &[7, 7, 7], 9, false, 9),
        // and then to the least number
        (&ALL, &[4, 3, 4, 3], 2, false, 1),
        (&ALL, &[0, 0, 0, 0], 9, false, 0),
        (&SOME, &[7, 6, 6], 2, false, 5),
        (&FALLING, &[6, 6], 2, false, 5),
    ];
    for (index, case) in cases.iter().enumerate() {
        let (cpus, hints, last, warm, want) = case;
        if !is_chosen(cpus, hints, *last, *warm, *want) {
            return Some(index);
        }
    }
    None
}

#[test]
fn choices(rt: HostRuntime) {
    let wrong = wrong_choice();
    assert!(rt; wrong.is_none(), "choice {wrong:?}");
}

/// Whether `want` is the victim.
fn is_victim(cpus: &[CpuId], hints: &[u8], want: Option<u16>) -> bool {
    cpus.len() == hints.len() && victim(cpus, hints).map(|cpu| cpu.0) == want
}

/// The first victim that is another.
fn wrong_victim() -> Option<usize> {
    // the processors, their hints, and the victim
    let cases: [(&[CpuId], &[u8], Option<u16>); 16] = [
        (&[], &[], None),
        (&SEVEN, &[0], None),
        (&SEVEN, &[1], Some(7)),
        (&SEVEN, &[255], Some(7)),
        (&ALL, &[0, 0, 0, 0], None),
        (&ALL, &[0, 0, 1, 0], Some(2)),
        (&ALL, &[5, 0, 0, 0], Some(0)),
        (&ALL, &[0, 0, 0, 5], Some(3)),
        (&ALL, &[1, 2, 3, 4], Some(3)),
        (&ALL, &[4, 3, 2, 1], Some(0)),
        // ties go to the least number
        (&ALL, &[3, 3, 3, 3], Some(0)),
        (&ALL, &[2, 3, 3, 1], Some(1)),
        (&ALL, &[0, 60, 7, 60], Some(1)),
        (&SOME, &[0, 9, 9], Some(5)),
        (&SOME, &[8, 9, 8], Some(5)),
        (&FALLING, &[6, 6], Some(5)),
    ];
    for (index, case) in cases.iter().enumerate() {
        let (cpus, hints, want) = case;
        if !is_victim(cpus, hints, *want) {
            return Some(index);
        }
    }
    None
}

#[test]
fn victims(rt: HostRuntime) {
    let wrong = wrong_victim();
    assert!(rt; wrong.is_none(), "victim {wrong:?}");
}

fn sixty_four_cpus(alloc: Global) -> Result<Vec<CpuId>, AllocError> {
    let mut cpus = Vec::new(alloc);
    for number in 0u16..64 {
        cpus.push(CpuId(number))?;
    }
    Ok(cpus)
}

/// The hints 65, 66, 67, 68, 65, ..
fn sixty_four_hints(alloc: Global) -> Result<Vec<u8>, AllocError> {
    let mut hints = Vec::new(alloc);
    for number in 0u8..64 {
        hints.push(65 + number % 4)?;
    }
    Ok(hints)
}

fn chooses_of_many(cpus: &[CpuId], hints: &[u8]) -> bool {
    is_chosen(cpus, hints, 60, false, 60)
        && is_chosen(cpus, hints, 63, false, 0)
        && is_chosen(cpus, hints, 63, true, 63)
        && is_chosen(cpus, hints, 64, true, 0)
        && is_victim(cpus, hints, Some(3))
}

#[test]
fn sixty_four_processors(rt: HostRuntime) -> Result<(), Fail> {
    let cpus = sixty_four_cpus(rt.alloc())?;
    let hints = sixty_four_hints(rt.alloc())?;
    let is_so = chooses_of_many(&cpus, &hints);
    assert!(rt; is_so);
    Ok(())
}
