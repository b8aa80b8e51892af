//! The files of the examples: NAME.workload, its picture NAME.svg, NAME.json where the trace is stored too, NAME.journal where
//! the run is not that of `dispsim run`, NAME.find where an answer of `dispfind` is stored: its first line has the arguments;
//! NAME.set where NAME.workload is the expansion of this task set, NAME.report where a report is stored, and NAME.jobs where the jobs are.

use crate::answers::{Compared, judge_expansion, judge_jobs, judge_report, judge_search};
use crate::calls::{Outcome, run};
use crate::verdicts::{Verdict, judge};
use anyhow::{Context, Result};
use std::alloc::Global;
use std::rt::{Env, Files};
use std::{env, fs, io};

/// Where the examples lie: in the folder that the argument names, else in `data`, else where the program was started.
pub fn folder_of<R: Files + Env + AllocGlobal>(rt: &R) -> io::Result<String> {
    let alloc = rt.alloc();
    if let Some(folder) = env::args(rt)?.nth(1) {
        return Ok(folder);
    }
    let folder = if fs::exists(rt, "data")? { "data" } else { "." };
    Ok(String::from_str(alloc, folder)?)
}

/// The names of the examples, each once and in order: those of all files of the folder, without their endings.
pub fn names_of<R: Files + AllocGlobal + Clone + Drop>(
    rt: &R,
    folder: &str,
) -> io::Result<Vec<String>> {
    let mut names = Vec::new(rt.alloc());
    for entry in fs::read_dir(rt, folder)? {
        let entry = entry?;
        let file = entry.file_name();
        let name = file.rsplit_once('.').map_or(file, |(name, _)| name);
        names.push(String::from_str(rt.alloc(), name)?)?;
    }
    names.sort()?;
    names.dedup();
    Ok(names)
}

fn read_file<R: Files + AllocGlobal>(rt: &R, path: &str) -> Result<Vec<u8>> {
    fs::read(rt, path).context(path)
}

/// The bytes of a file, None where there is none.
fn read_if_there<R: Files + AllocGlobal>(rt: &R, path: &str) -> Result<Option<Vec<u8>>> {
    if fs::exists(rt, path)? {
        Ok(Some(read_file(rt, path)?))
    } else {
        Ok(None)
    }
}

/// Reads the files of an example and judges them.
pub fn judge_example<R: Files + AllocGlobal>(rt: &R, folder: &str, name: &str) -> Result<Verdict> {
    let alloc = rt.alloc();
    let workload = read_file(rt, format!(in alloc; "{folder}/{name}.workload")?.as_str())?;
    let journal = read_if_there(rt, format!(in alloc; "{folder}/{name}.journal")?.as_str())?;
    let picture = read_file(rt, format!(in alloc; "{folder}/{name}.svg")?.as_str())?;
    let trace = read_if_there(rt, format!(in alloc; "{folder}/{name}.json")?.as_str())?;
    Ok(judge(
        alloc,
        &workload,
        journal.as_ref().map(Vec::as_slice),
        &picture,
        trace.as_ref().map(Vec::as_slice),
    )?)
}

fn words_of(alloc: Global, line: &str) -> io::Result<Vec<String>> {
    let mut words = Vec::new(alloc);
    for word in line.split(' ') {
        words.push(String::from_str(alloc, word)?)?;
    }
    Ok(words)
}

/// Reads the stored answer of an example and judges it; None where none is stored.
pub fn judge_answer<R: Files + AllocGlobal>(
    rt: &R,
    folder: &str,
    name: &str,
) -> Result<Option<Compared>> {
    let alloc = rt.alloc();
    let Some(stored) = read_if_there(rt, format!(in alloc; "{folder}/{name}.find")?.as_str())?
    else {
        return Ok(None);
    };
    let text = std::str::from_utf8(stored.as_slice())?;
    let (line, answer) = text.split_once('\n').context("no arguments")?;
    let arguments = words_of(alloc, line)?;
    let workload = read_file(rt, format!(in alloc; "{folder}/{name}.workload")?.as_str())?;
    let compared = judge_search(alloc, &arguments, &workload, answer.as_bytes())?;
    Ok(Some(compared))
}

/// Reads a task set and its stored expansion and judges this; None where the example is no task set.
pub fn judge_set<R: Files + AllocGlobal>(
    rt: &R,
    folder: &str,
    name: &str,
) -> Result<Option<Compared>> {
    let alloc = rt.alloc();
    let Some(set) = read_if_there(rt, format!(in alloc; "{folder}/{name}.set")?.as_str())? else {
        return Ok(None);
    };
    let workload = read_file(rt, format!(in alloc; "{folder}/{name}.workload")?.as_str())?;
    let compared = judge_expansion(alloc, &set, &workload)?;
    Ok(Some(compared))
}

/// The stored journal of an example, or that of its run; None where it does not run.
fn journal_of<R: Files + AllocGlobal>(
    rt: &R,
    folder: &str,
    name: &str,
    workload: &[u8],
) -> Result<Option<Vec<u8>>> {
    let alloc = rt.alloc();
    let stored = read_if_there(rt, format!(in alloc; "{folder}/{name}.journal")?.as_str())?;
    if stored.is_some() {
        return Ok(stored);
    }
    match run(alloc, workload)? {
        Outcome::Wrote(journal) => Ok(Some(Vec::from_slice(alloc, journal.bytes())?)),
        Outcome::Refused { .. } => Ok(None),
    }
}

/// The text of which the run of an example is reported, and its journal; None where it does not run. The report of a task set is that
/// of the set, and not of its expansion.
fn reported<R: Files + AllocGlobal>(
    rt: &R,
    folder: &str,
    name: &str,
) -> Result<Option<(Vec<u8>, Vec<u8>)>> {
    let alloc = rt.alloc();
    let workload = read_file(rt, format!(in alloc; "{folder}/{name}.workload")?.as_str())?;
    let Some(journal) = journal_of(rt, folder, name, &workload)? else {
        return Ok(None);
    };
    let set = read_if_there(rt, format!(in alloc; "{folder}/{name}.set")?.as_str())?;
    Ok(Some((set.unwrap_or(workload), journal)))
}

/// Reads the stored report of an example and judges it; None where none is stored, or where the example does not run.
pub fn judge_stored_report<R: Files + AllocGlobal>(
    rt: &R,
    folder: &str,
    name: &str,
) -> Result<Option<Compared>> {
    let alloc = rt.alloc();
    let Some(stored) = read_if_there(rt, format!(in alloc; "{folder}/{name}.report")?.as_str())?
    else {
        return Ok(None);
    };
    let Some((source, journal)) = reported(rt, folder, name)? else {
        return Ok(None);
    };
    let compared = judge_report(alloc, &source, &journal, &stored)?;
    Ok(Some(compared))
}

/// The same of the jobs.
pub fn judge_stored_jobs<R: Files + AllocGlobal>(
    rt: &R,
    folder: &str,
    name: &str,
) -> Result<Option<Compared>> {
    let alloc = rt.alloc();
    let Some(stored) = read_if_there(rt, format!(in alloc; "{folder}/{name}.jobs")?.as_str())?
    else {
        return Ok(None);
    };
    let Some((source, journal)) = reported(rt, folder, name)? else {
        return Ok(None);
    };
    let compared = judge_jobs(alloc, &source, &journal, &stored)?;
    Ok(Some(compared))
}
