//! Classes and quanta as lines give them, in their ranges.

ghost use Rattle.std.specs.Prelude.{◌≡◌, true};
ghost use Rattle.std.specs.Int.{int_min};
ghost use Rattle.sd_types.specs.Works.{upri_fits};
ghost use Rattle.sd_declare.specs.Statements.{is_quantum, is_class, quantum_of, parms_of, cpupri_of};

use sd_lines::{QuantumWord, ThreadClass};
use sd_types::{ClassParms, MOST_QUANTUM_TICKS, Quantum};

/// Whether a quantum in ticks is one that a thread may have: 1 to 1,000,000.
pub fn is_quantum(quantum: QuantumWord) -> bool
    ensures { result ≡ is_quantum quantum }
{
    match quantum {
        QuantumWord::Ticks(n) => 1 <= n && n <= u64::from(MOST_QUANTUM_TICKS),
        QuantumWord::Def | QuantumWord::Inf => true,
    }
}

/// A quantum in its range.
pub fn quantum_of(quantum: QuantumWord) -> Quantum
    requires { is_quantum quantum ≡ true }
    ensures { result ≡ quantum_of quantum }
{
    match quantum {
        QuantumWord::Def => Quantum::Def,
        QuantumWord::Inf => Quantum::Inf,
        QuantumWord::Ticks(n) => Quantum::Ticks(n as u32),
    }
}

// Whether a user priority of a time-sharing thread, or its limit, is in its range: -60 to 60.
fn is_upri(z: i64) -> bool
    ensures { result ≡ upri_fits z }
{
    -60 <= z && z <= 60
}

/// Whether the numbers of a class are in their ranges: `ts_cpupri` 0 to 59; limit and user priority of TS -60 to 60,
/// limit and priority of FX 0 to 60, priorities of SYS 60 to 99 and of RT 0 to 59.
pub fn is_class(class: ThreadClass) -> bool
    ensures { result ≡ is_class class }
{
    match class {
        ThreadClass::Ts {
            cpupri,
            limit,
            upri,
        } => cpupri <= 59 && is_upri(limit) && is_upri(upri),
        ThreadClass::Fx {
            limit,
            pri,
            quantum,
        } => limit <= 60 && pri <= 60 && is_quantum(quantum),
        ThreadClass::Sys { pri } => 60 <= pri && pri <= 99,
        ThreadClass::Rt { pri, quantum } => pri <= 59 && is_quantum(quantum),
    }
}

// A user priority above the limit is lowered to it.
fn ts_parms(limit: i64, upri: i64) -> ClassParms
    requires limit { upri_fits limit ≡ true }
    requires upri { upri_fits upri ≡ true }
    ensures { result ≡ ClassParms.Ts limit (int_min upri limit) }
{
    if limit < upri {
        ClassParms::Ts {
            limit: limit as i8,
            upri: limit as i8,
        }
    } else {
        ClassParms::Ts {
            limit: limit as i8,
            upri: upri as i8,
        }
    }
}

/// The parameters of a class whose numbers are in their ranges. A user priority above the limit is lowered to it.
pub fn parms_of(class: ThreadClass) -> ClassParms
    requires { is_class class ≡ true }
    ensures { result ≡ parms_of class }
{
    match class {
        ThreadClass::Ts { limit, upri, .. } => ts_parms(limit, upri),
        ThreadClass::Fx {
            limit,
            pri,
            quantum,
        } => ClassParms::Fx {
            limit: limit as u8,
            pri: pri.min(limit) as u8,
            quantum: quantum_of(quantum),
        },
        ThreadClass::Sys { pri } => ClassParms::Sys { pri: pri as u8 },
        ThreadClass::Rt { pri, quantum } => ClassParms::Rt {
            pri: pri as u8,
            quantum: quantum_of(quantum),
        },
    }
}

/// The first `ts_cpupri`, 0 for the other classes.
pub fn cpupri_of(class: ThreadClass) -> u8
    requires { is_class class ≡ true }
    ensures { result ≡ cpupri_of class }
{
    match class {
        ThreadClass::Ts { cpupri, .. } => cpupri as u8,
        ThreadClass::Fx { .. } | ThreadClass::Sys { .. } | ThreadClass::Rt { .. } => 0,
    }
}
