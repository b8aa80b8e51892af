//! Looks through the examples: the picture of each is the one that the program makes of its workload, its trace is JSON, and the
//! answers of searches, the expansions of task sets, the reports and the jobs that are stored are those that the programs write.
#![tactic(auto)]

mod answers;
mod calls;
mod files;
mod traces;
mod verdicts;

use answers::Compared;
use anyhow::{Result, ensure};
use files::{
    folder_of, judge_answer, judge_example, judge_set, judge_stored_jobs, judge_stored_report,
    names_of,
};
use std::rt::Files;
use verdicts::Verdict;

/// Prints what is said of an example, and returns whether all is as stored.
fn report<R: Files + Print + AllocGlobal>(rt: &R, folder: &str, name: &str) -> Result<bool> {
    match judge_example(rt, folder, name) {
        Ok(verdict) => {
            println!(rt; "{name}: {verdict}")?;
            Ok(matches!(verdict, Verdict::Same { .. }))
        }
        Err(error) => {
            println!(rt; "{name}: {error:#}")?;
            Ok(false)
        }
    }
}

/// Prints what is said of a stored text of an example, where there is one, and returns whether it is as stored.
fn report_stored<R: Print>(
    rt: &R,
    name: &str,
    what: &str,
    judged: Result<Option<Compared>>,
) -> Result<bool> {
    match judged {
        Ok(None) => Ok(true),
        Ok(Some(compared)) => {
            println!(rt; "{name}: {what} {compared}")?;
            Ok(matches!(compared, Compared::Same { .. }))
        }
        Err(error) => {
            println!(rt; "{name}: {error:#}")?;
            Ok(false)
        }
    }
}

fn main(rt: HostRuntime) -> Result<()> {
    let folder = folder_of(&rt)?;
    let names = names_of(&rt, &folder)?;
    let mut agree = !names.is_empty();
    for name in &names {
        agree &= report(&rt, &folder, name)?;
        agree &= report_stored(&rt, name, "answer", judge_answer(&rt, &folder, name))?;
        agree &= report_stored(&rt, name, "expansion", judge_set(&rt, &folder, name))?;
        agree &= report_stored(&rt, name, "report", judge_stored_report(&rt, &folder, name))?;
        agree &= report_stored(&rt, name, "jobs", judge_stored_jobs(&rt, &folder, name))?;
    }
    let count = names.len();
    println!(rt; "{count} examples")?;
    ensure!(agree, "not all examples are as stored");
    Ok(())
}
