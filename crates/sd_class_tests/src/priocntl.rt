//! The list of refusals, case by case, and the states that begin and that follow a change, worked out by hand.

ghost use Rattle.std.specs.Prelude.{◌≤◌, ℕ, IsTrue, pos, negsuc, ◌≤ℤ◌};
ghost use Rattle.sd_types.specs.ClassNumbers.{IsQuantum};
ghost use Rattle.sd_types.specs.Works.{class_fits};

use crate::given::idle;
use sd_class::{Target, Who, enter, first_state, judge};
use sd_types::{
    Class, ClassParms, ClassState, Denied, FxState, List, Quantum, Request, RtState, SysState,
    TsState, Work,
};
use std::alloc::{AllocError, Global};
use std::test::Fail;

const TS: ClassParms = ClassParms::Ts { limit: 10, upri: 0 };

const FX: ClassParms = ClassParms::Fx {
    limit: 20,
    pri: 5,
    quantum: Quantum::Inf,
};

const SYS: ClassParms = ClassParms::Sys { pri: 60 };

const RT: ClassParms = ClassParms::Rt {
    pri: 0,
    quantum: Quantum::Def,
};

/// What a caller of user 1 is told who asks for these parameters, with the quantum of the table.
fn refusal(
    privileged: bool,
    target: Option<Target>,
    class: Class,
    limit: i32,
    pri: i32,
) -> Option<Denied> {
    let caller = Who { uid: 1, privileged };
    let request = Request {
        class,
        limit,
        pri,
        quantum: Quantum::Def,
    };
    judge(caller, target, &request).err()
}

/// A target that has not ended.
fn target(uid: u16, parms: ClassParms) -> Option<Target> {
    Some(Target { uid, parms })
}

/// The first request that is answered otherwise.
fn wrong_refusal() -> Option<usize> {
    // the caller's privilege, the target, the class, the limit and the priority of the request, and the refusal
    let cases = [
        (false, target(1, TS), Class::Ts, 10, 10, None),
        (false, target(1, TS), Class::Ts, 11, 0, Some(Denied::EPERM)),
        (true, target(2, TS), Class::Ts, 60, 60, None),
        (true, target(2, TS), Class::Ts, 61, 0, Some(Denied::EINVAL)),
        (
            false,
            target(2, TS),
            Class::Ts,
            10,
            -61,
            Some(Denied::EINVAL),
        ),
        (false, target(2, TS), Class::Ts, 10, 0, Some(Denied::EPERM)),
        (false, target(1, TS), Class::Fx, 0, 0, None),
        (false, target(1, TS), Class::Fx, 1, 0, Some(Denied::EPERM)),
        (false, target(1, FX), Class::Fx, 20, 20, None),
        (true, target(1, FX), Class::Fx, 20, -1, Some(Denied::EINVAL)),
        (true, target(1, TS), Class::Rt, 0, 59, None),
        (true, target(1, TS), Class::Rt, 0, 60, Some(Denied::EINVAL)),
        (false, target(1, TS), Class::Rt, 0, 0, Some(Denied::EPERM)),
        (false, target(1, RT), Class::Ts, 0, 0, Some(Denied::EPERM)),
        (true, target(1, SYS), Class::Ts, 0, 0, Some(Denied::EINVAL)),
        (true, target(1, TS), Class::Sys, 0, 60, Some(Denied::EINVAL)),
        (true, None, Class::Sys, 0, 0, Some(Denied::ESRCH)),
    ];
    for (index, case) in cases.iter().enumerate() {
        let (privileged, target, class, limit, pri, want) = case;
        if refusal(*privileged, *target, *class, *limit, *pri) != *want {
            return Some(index);
        }
    }
    None
}

#[test]
fn refusals(rt: HostRuntime) {
    let wrong = wrong_refusal();
    assert!(rt; wrong.is_none(), "request {wrong:?}");
}

/// Whether it is a time-sharing state of this level, limit, user priority, ticks and seconds of waiting.
fn is_ts(class: &ClassState, cpupri: u8, limit: i8, upri: i8, left: u64, wait: u32) -> bool {
    match class {
        ClassState::Ts(s) => {
            s.cpupri == cpupri
                && s.limit == limit
                && s.upri == upri
                && s.left == left
                && s.wait == wait
        }
        _ => false,
    }
}

/// Whether it is a fixed-priority state of this limit, priority and ticks.
fn is_fx(class: &ClassState, limit: u8, pri: u8, left: u64) -> bool {
    match class {
        ClassState::Fx(s) => s.limit == limit && s.pri == pri && s.left == left,
        _ => false,
    }
}

/// Whether it is a system state of this priority.
fn is_sys(class: &ClassState, pri: u8) -> bool {
    match class {
        ClassState::Sys(s) => s.pri == pri,
        _ => false,
    }
}

/// Whether it is a real-time state of this priority and ticks.
fn is_rt(class: &ClassState, pri: u8, left: u64) -> bool {
    match class {
        ClassState::Rt(s) => s.pri == pri && s.left == left,
        _ => false,
    }
}

fn ts(limit: i8, upri: i8) -> ClassParms
    requires limit_low { negsuc 59 ≤ℤ limit }
    requires limit_high { limit ≤ℤ pos 60 }
    requires low { negsuc 59 ≤ℤ upri }
    requires under { upri ≤ℤ limit }
    ensures { (level : ℕ) → level ≤ 59 → IsTrue (class_fits result level) }
{
    ClassParms::Ts { limit, upri }
}

fn fx(limit: u8, pri: u8, quantum: Quantum) -> ClassParms
    requires limit { limit ≤ 60 }
    requires under { pri ≤ limit }
    requires quantum { IsQuantum quantum }
    ensures { IsTrue (class_fits result 0) }
{
    ClassParms::Fx {
        limit,
        pri,
        quantum,
    }
}

fn real_time(pri: u8, quantum: Quantum) -> ClassParms
    requires pri { pri ≤ 59 }
    requires quantum { IsQuantum quantum }
    ensures { IsTrue (class_fits result 0) }
{
    ClassParms::Rt { pri, quantum }
}

fn old_ts() -> ClassState {
    ClassState::Ts(TsState {
        cpupri: 40,
        limit: 60,
        upri: 7,
        left: 3,
        wait: 9,
    })
}

fn old_fx() -> ClassState {
    ClassState::Fx(FxState {
        limit: 20,
        pri: 5,
        quantum: Quantum::Def,
        left: 1,
    })
}

fn old_sys() -> ClassState {
    ClassState::Sys(SysState { pri: 99 })
}

fn old_rt() -> ClassState {
    ClassState::Rt(RtState {
        pri: 59,
        quantum: Quantum::Ticks(8),
        left: 1,
    })
}

/// What is judged over the workload, by one test.
#[derive(Clone, Copy)]
enum Judged {
    FirstTimeSharing,
    FirstOthers,
    TimeSharing,
    FixedPriority,
    RealTime,
}

/// The threads begin in the time-sharing class with the ticks of the level's row, and no seconds of waiting.
fn begins_time_sharing(work: &Work) -> bool {
    is_ts(&first_state(&ts(0, 0), 0, work), 0, 0, 0, 20, 0)
        && is_ts(&first_state(&ts(10, 5), 29, work), 29, 10, 5, 12, 0)
        && is_ts(&first_state(&ts(60, -60), 59, work), 59, 60, -60, 4, 0)
}

fn begins_in_others(work: &Work) -> bool {
    is_fx(&first_state(&fx(60, 60, Quantum::Def), 0, work), 60, 60, 2)
        && is_fx(&first_state(&fx(60, 45, Quantum::Inf), 0, work), 60, 45, 0)
        && is_sys(&first_state(&SYS, 0, work), 60)
        && is_rt(
            &first_state(&real_time(7, Quantum::Ticks(3)), 0, work),
            7,
            3,
        )
}

fn enters_time_sharing(work: &Work) -> bool {
    // level, ticks and seconds of waiting stay in the class
    let stays = is_ts(&enter(&ts(-5, -5), &old_ts(), work), 40, -5, -5, 3, 9);
    // and begin at level 29 for a thread that comes from another
    stays
        && is_ts(&enter(&ts(10, 5), &old_fx(), work), 29, 10, 5, 12, 0)
        && is_ts(&enter(&ts(0, -60), &old_sys(), work), 29, 0, -60, 12, 0)
        && is_ts(&enter(&ts(60, 60), &old_rt(), work), 29, 60, 60, 12, 0)
}

/// A full quantum, also where the class stays.
fn enters_fixed_priority(work: &Work) -> bool {
    is_fx(&enter(&fx(20, 5, Quantum::Def), &old_ts(), work), 20, 5, 20)
        && is_fx(&enter(&fx(20, 5, Quantum::Def), &old_fx(), work), 20, 5, 20)
        && is_fx(
            &enter(&fx(60, 60, Quantum::Def), &old_fx(), work),
            60,
            60,
            2,
        )
        && is_fx(
            &enter(&fx(60, 50, Quantum::Ticks(9)), &old_rt(), work),
            60,
            50,
            9,
        )
        && is_fx(&enter(&fx(0, 0, Quantum::Inf), &old_sys(), work), 0, 0, 0)
}

fn enters_real_time(work: &Work) -> bool {
    is_rt(&enter(&real_time(0, Quantum::Def), &old_ts(), work), 0, 20)
        && is_rt(
            &enter(&real_time(29, Quantum::Def), &old_fx(), work),
            29,
            12,
        )
        && is_rt(&enter(&real_time(59, Quantum::Def), &old_rt(), work), 59, 4)
        && is_rt(&enter(&real_time(59, Quantum::Inf), &old_rt(), work), 59, 0)
        && is_sys(&enter(&SYS, &old_ts(), work), 60)
}

/// Whether all of it is as it should be, over the workload of one processor. It owns the workload for all tests, since a function that
/// drops one takes long to prove.
fn is_so(alloc: Global, judged: Judged) -> Result<bool, AllocError> {
    let work = idle(alloc, 1, List::from_vec(Vec::new(alloc)))?;
    Ok(match judged {
        Judged::FirstTimeSharing => begins_time_sharing(&work),
        Judged::FirstOthers => begins_in_others(&work),
        Judged::TimeSharing => enters_time_sharing(&work),
        Judged::FixedPriority => enters_fixed_priority(&work),
        Judged::RealTime => enters_real_time(&work),
    })
}

#[test]
fn first_time_sharing_states(rt: HostRuntime) -> Result<(), Fail> {
    assert!(rt; is_so(rt.alloc(), Judged::FirstTimeSharing)?);
    Ok(())
}

#[test]
fn first_states_of_other_classes(rt: HostRuntime) -> Result<(), Fail> {
    assert!(rt; is_so(rt.alloc(), Judged::FirstOthers)?);
    Ok(())
}

#[test]
fn entering_time_sharing(rt: HostRuntime) -> Result<(), Fail> {
    assert!(rt; is_so(rt.alloc(), Judged::TimeSharing)?);
    Ok(())
}

#[test]
fn entering_fixed_priority(rt: HostRuntime) -> Result<(), Fail> {
    assert!(rt; is_so(rt.alloc(), Judged::FixedPriority)?);
    Ok(())
}

#[test]
fn entering_real_time(rt: HostRuntime) -> Result<(), Fail> {
    assert!(rt; is_so(rt.alloc(), Judged::RealTime)?);
    Ok(())
}
