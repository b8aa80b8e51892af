//! Refused task sets.

use crate::judging::is_refused;
use sd_script::ScriptFault;
use sd_workload::WorkCause;
use std::test::Fail;

#[test]
fn no_limit_above(rt: HostRuntime) -> Result<(), Fail> {
    let set = b"task a rt 5 inf period 5\nlimit 20\n";
    assert!(rt; is_refused(rt.alloc(), set, 1, WorkCause::Syntax));
    Ok(())
}

#[test]
fn no_period(rt: HostRuntime) -> Result<(), Fail> {
    let set = b"limit 20\ntask a rt 5 inf offset 5\n";
    assert!(rt; is_refused(rt.alloc(), set, 2, WorkCause::Syntax));
    Ok(())
}

#[test]
fn options_in_another_order(rt: HostRuntime) -> Result<(), Fail> {
    let set = b"limit 20\ntask a rt 5 inf period 5 deadline 3 offset 1\n";
    assert!(rt; is_refused(rt.alloc(), set, 2, WorkCause::Syntax));
    Ok(())
}

#[test]
fn a_set_below(rt: HostRuntime) -> Result<(), Fail> {
    let set = b"cpus 2\nlimit 20\ntask a rt 5 inf period 5\nset s 1\n";
    assert!(rt; is_refused(rt.alloc(), set, 4, WorkCause::Syntax));
    Ok(())
}

#[test]
fn a_job_of_a_thread(rt: HostRuntime) -> Result<(), Fail> {
    let set = b"limit 20\nthread a rt 5 inf\njob a\n";
    assert!(rt; is_refused(rt.alloc(), set, 3, WorkCause::Unknown));
    Ok(())
}

#[test]
fn a_script_of_a_task(rt: HostRuntime) -> Result<(), Fail> {
    let set = b"limit 20\ntask a rt 5 inf period 5\nscript a\n";
    assert!(rt; is_refused(rt.alloc(), set, 3, WorkCause::Unknown));
    Ok(())
}

#[test]
fn a_second_job(rt: HostRuntime) -> Result<(), Fail> {
    let set = b"limit 20\ntask a rt 5 inf period 5\njob a\nend\njob a\n";
    assert!(rt; is_refused(rt.alloc(), set, 5, WorkCause::Twice));
    Ok(())
}

#[test]
fn the_name_of_a_channel(rt: HostRuntime) -> Result<(), Fail> {
    let set = b"limit 20\nchan a\ntask a rt 5 inf period 5\n";
    assert!(rt; is_refused(rt.alloc(), set, 3, WorkCause::Twice));
    Ok(())
}

#[test]
fn a_reserved_name_below(rt: HostRuntime) -> Result<(), Fail> {
    let set = b"limit 20\ntask a rt 5 inf period 5\nthread clock-0 rt 5 inf\n";
    assert!(rt; is_refused(rt.alloc(), set, 3, WorkCause::Twice));
    Ok(())
}

#[test]
fn a_task_at_level_59(rt: HostRuntime) -> Result<(), Fail> {
    let set = b"limit 20\ntask a rt 59 inf period 5\n";
    assert!(rt; is_refused(rt.alloc(), set, 2, WorkCause::Range));
    Ok(())
}

#[test]
fn level_59_above(rt: HostRuntime) -> Result<(), Fail> {
    let set = b"limit 20\nthread z rt 59 inf\n\ntask a rt 5 inf period 5\n";
    assert!(rt; is_refused(rt.alloc(), set, 4, WorkCause::Range));
    Ok(())
}

#[test]
fn a_request_for_level_59(rt: HostRuntime) -> Result<(), Fail> {
    let set = b"limit 20\ntask a rt 5 inf period 5\njob a\npriocntl a rt 59 inf\nend\n";
    assert!(rt; is_refused(rt.alloc(), set, 4, WorkCause::Range));
    Ok(())
}

#[test]
fn on_no_processor(rt: HostRuntime) -> Result<(), Fail> {
    let set = b"limit 20\ntask a rt 5 inf period 5 on 1\n";
    assert!(rt; is_refused(rt.alloc(), set, 2, WorkCause::Range));
    Ok(())
}

#[test]
fn on_a_processor_of_another_set(rt: HostRuntime) -> Result<(), Fail> {
    let set = b"cpus 2\nlimit 20\nset s 1\ntask a rt 5 inf in s period 5 on 0\n";
    assert!(rt; is_refused(rt.alloc(), set, 4, WorkCause::Sets));
    Ok(())
}

#[test]
fn too_many_rounds(rt: HostRuntime) -> Result<(), Fail> {
    let set = b"limit 20\ntask a rt 5 inf period 5\njob a\nrepeat 257\nend\nend\n";
    assert!(rt; is_refused(rt.alloc(), set, 4, WorkCause::Range));
    Ok(())
}

#[test]
fn an_unbalanced_round(rt: HostRuntime) -> Result<(), Fail> {
    let set =
        b"limit 20\nmutex m\ntask a rt 5 inf period 5\njob a\nenter m\nrepeat 2\nexit m\nrun 1\nend\nend\n";
    assert!(rt;
        is_refused(
            rt.alloc(),
            set,
            7,
            WorkCause::Script(ScriptFault::Unbalanced { op: 0 })
        )
    );
    Ok(())
}

#[test]
fn held_at_the_end_of_a_job(rt: HostRuntime) -> Result<(), Fail> {
    let set = b"limit 20\nmutex m\ntask a rt 5 inf period 5\njob a\nenter m\nend\n";
    assert!(rt;
        is_refused(
            rt.alloc(),
            set,
            6,
            WorkCause::Script(ScriptFault::HeldAtExit)
        )
    );
    Ok(())
}

#[test]
fn a_job_too_long(rt: HostRuntime) -> Result<(), Fail> {
    let set =
        b"limit 20\ntask a rt 5 inf period 2\njob a\nrun 1\nrun 1\nrun 1\nrun 1\nrun 1\nrun 1\nrun 1\nrun 1\nrun 1\nrun 1\nrun 1\nrun 1\nrun 1\nrun 1\nrun 1\nrun 1\nrun 1\nrun 1\nrun 1\nrun 1\nrun 1\nrun 1\nrun 1\nrun 1\nrun 1\nrun 1\nrun 1\nrun 1\nrun 1\nrun 1\nend\n";
    assert!(rt; is_refused(rt.alloc(), set, 28, WorkCause::Script(ScriptFault::TooLong)));
    Ok(())
}

#[test]
fn nine_repeats(rt: HostRuntime) -> Result<(), Fail> {
    let set =
        b"limit 20\ntask a rt 5 inf period 5\njob a\nrepeat 1\nrepeat 1\nrepeat 1\nrepeat 1\nrepeat 1\nrepeat 1\nrepeat 1\nrepeat 1\nrepeat 1\n";
    assert!(rt; is_refused(rt.alloc(), set, 12, WorkCause::Limits));
    Ok(())
}

#[test]
fn a_generated_semaphore(rt: HostRuntime) -> Result<(), Fail> {
    let set = b"limit 20\ntask a rt 5 inf period 5\njob a\nsemav a\nend\n";
    assert!(rt; is_refused(rt.alloc(), set, 4, WorkCause::Unknown));
    Ok(())
}
