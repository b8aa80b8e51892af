//! Who may give a thread new class parameters.

ghost use Rattle.std.specs.Prelude.{◌≡◌, true, false, IsTrue, IfOk, option_map};
ghost use Rattle.sd_types.specs.Works.{quantum_fits, class_fits};
ghost use Rattle.sd_rules.specs.Priocntl.{is_sys, numbers_fit, is_invalid, is_forbidden, greatest_limit, new_parms, judged, class_of_parms, limit_of_parms};

use sd_types::{Class, ClassParms, Denied, Quantum, Request};

/// A caller: its user, and whether it is privileged.
#[derive(Clone, Copy)]
pub struct Who {
    pub uid: u16,
    pub privileged: bool,
}

/// A thread that has not ended: its user, and its class parameters.
#[derive(Clone, Copy)]
pub struct Target {
    pub uid: u16,
    pub parms: ClassParms,
}

fn class_of(parms: &ClassParms) -> Class
    ensures { result ≡ class_of_parms parms.now }
{
    match parms {
        ClassParms::Ts { .. } => Class::Ts,
        ClassParms::Fx { .. } => Class::Fx,
        ClassParms::Sys { .. } => Class::Sys,
        ClassParms::Rt { .. } => Class::Rt,
    }
}

/// The limit of the user priority, 0 for the classes that have none.
fn limit_of(parms: &ClassParms) -> i32
    ensures { result ≡ limit_of_parms parms.now }
{
    match parms {
        ClassParms::Ts { limit, .. } => i32::from(*limit),
        ClassParms::Fx { limit, .. } => i32::from(*limit),
        ClassParms::Sys { .. } => 0,
        ClassParms::Rt { .. } => 0,
    }
}

/// The limit and the priority are in the ranges of the class.
fn numbers_fit(class: Class, limit: i32, pri: i32) -> bool
    ensures { result ≡ numbers_fit class limit pri }
{
    match class {
        Class::Ts => -60 <= limit && limit <= 60 && -60 <= pri && pri <= 60,
        Class::Fx => 0 <= limit && limit <= 60 && 0 <= pri && pri <= 60,
        Class::Sys => true,
        Class::Rt => 0 <= pri && pri <= 59,
    }
}

#[tactic(auto, unfolding(sd_rules::specs::Priocntl::is_invalid))]
fn is_invalid(target: &ClassParms, request: &Request) -> bool
    ensures value { result ≡ is_invalid target.now request.now }
    ensures numbers { result ≡ false → numbers_fit request.now.class request.now.limit request.now.pri ≡ true }
    ensures class { result ≡ false → is_sys request.now.class ≡ false }
{
    request.class == Class::Sys
        || class_of(target) == Class::Sys
        || !numbers_fit(request.class, request.limit, request.pri)
}

/// The greatest limit that a caller without privilege may ask for.
fn greatest_limit(target: &ClassParms, class: Class) -> i32
    ensures { result ≡ greatest_limit target.now class }
{
    if class_of(target) == class {
        limit_of(target)
    } else {
        0
    }
}

#[tactic(auto, unfolding(sd_rules::specs::Priocntl::is_forbidden))]
fn is_forbidden(uid: u16, target: &Target, request: &Request) -> bool
    ensures { result ≡ is_forbidden uid target.now.uid target.now.parms request.now }
{
    uid != target.uid
        || request.class == Class::Rt
        || class_of(&target.parms) == Class::Rt
        || request.limit > greatest_limit(&target.parms, request.class)
}

/// The parameters that a request asks for, a user priority above the limit lowered to it.
#[tactic(auto, unfolding(sd_rules::specs::Priocntl::new_parms))]
fn new_parms(request: &Request) -> ClassParms
    requires numbers { numbers_fit request.now.class request.now.limit request.now.pri ≡ true }
    requires class { is_sys request.now.class ≡ false }
    requires quantum { IsTrue (quantum_fits request.now.quantum) }
    ensures value { result ≡ new_parms request.now.class request.now }
    ensures fits { IsTrue (class_fits result 0) }
{
    let pri = request.pri.min(request.limit);
    match request.class {
        Class::Ts => ClassParms::Ts {
            limit: request.limit as i8,
            upri: pri as i8,
        },
        Class::Fx => ClassParms::Fx {
            limit: request.limit as u8,
            pri: pri as u8,
            quantum: request.quantum,
        },
        Class::Sys => unreachable!(),
        Class::Rt => ClassParms::Rt {
            pri: request.pri as u8,
            quantum: request.quantum,
        },
    }
}

/// What a caller is told who asks for new class parameters of a thread, which is none where it has ended: the first
/// of ESRCH, EINVAL and EPERM that holds, or the parameters that are asked for, with a user priority above the new
/// limit lowered to it. A quantum in ticks is 1 to 1,000,000.
#[tactic(auto, unfolding(sd_rules::specs::Priocntl::judged))]
pub fn judge(caller: Who, target: Option<Target>, request: &Request) -> Result<ClassParms, Denied>
    requires { IsTrue (quantum_fits request.now.quantum) }
    ensures value { result ≡ judged caller.uid caller.privileged (option_map (λ t. (t.uid, t.parms)) target) request.now }
    ensures fits { IfOk result (λ p. IsTrue (class_fits p 0)) }
{
    let Some(target) = target else {
        return Err(Denied::ESRCH);
    };
    if is_invalid(&target.parms, request) {
        return Err(Denied::EINVAL);
    }
    if !caller.privileged && is_forbidden(caller.uid, &target, request) {
        return Err(Denied::EPERM);
    }
    Ok(new_parms(request))
}
