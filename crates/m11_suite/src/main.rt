//! Runs the suite: reads an index of cases, runs the commands of each case with files in memory, and reports, for each case that fails, the
//! fault in its text or the first difference in its results. The number of cases that pass is printed last.
#![tactic(auto)]

// A case, read from its text.
mod case;
mod escapes;
mod fault;

// Runs the commands of a case, and compares their results with those that the case states.
mod compare;
mod run;

use crate::case::read_case;
use crate::run::run_case;
use anyhow::{Context, Result};
use std::alloc::{AllocError, Global};
use std::process::ExitCode;
use std::rt::Files;
use std::{env, fs};

fn main(rt: HostRuntime) -> Result<ExitCode> {
    let mut words = env::args(&rt)?;
    let _program = words.next();
    let index = words
        .next()
        .context("the index of the cases is to be named")?;
    let holds = run_index(&rt, index.as_str())?;
    Ok(if holds {
        ExitCode::SUCCESS
    } else {
        ExitCode::FAILURE
    })
}

// Runs the cases of an index, which are in the folder of the index, and returns whether all pass. Error: the index or a case can't be read,
// the report can't be printed, or memory was refused.
fn run_index(rt: &(impl Files + AllocGlobal + Print), index: &str) -> Result<bool> {
    let names = fs::read_to_string(rt, index).context(format_args!("reading {index}"))?;
    let holds = run_cases(rt, folder_of(index), names.as_str());
    drop(names);
    holds
}

// Runs the cases of these lines. Each line is the name of a case, empty, or a comment that begins with `#`. Reports how many cases pass,
// and returns whether all do. Error: a case can't be read, the report can't be printed, or memory was refused.
fn run_cases(rt: &(impl Files + AllocGlobal + Print), folder: &str, names: &str) -> Result<bool> {
    let mut all: u64 = 0;
    let mut holding: u64 = 0;
    for line in names.lines() {
        let name = line.trim();
        if name.is_empty() || name.starts_with('#') {
            continue;
        }
        all = all.saturating_add(1);
        if holds(rt, folder, name)? {
            holding = holding.saturating_add(1);
        }
    }
    rt.println(format_args!("{holding} of {all} cases hold"))?;
    Ok(holding == all)
}

// Runs a case, reports the fault in its text or the first difference in its results, and returns whether there is neither. Error: the case
// can't be read, the report can't be printed, or memory was refused.
fn holds(rt: &(impl Files + AllocGlobal + Print), folder: &str, name: &str) -> Result<bool> {
    let text = text_of(rt, folder, name)?;
    let what = reported(rt.alloc(), text.as_str());
    drop(text);
    match what? {
        None => Ok(true),
        Some(what) => {
            rt.println(format_args!("{name}: {what}"))?;
            Ok(false)
        }
    }
}

// Reads the text of a case: the file NAME.case in this folder. Error: the file can't be read, or memory was refused.
fn text_of(rt: &(impl Files + AllocGlobal), folder: &str, name: &str) -> Result<String> {
    let path = format!(in rt.alloc(); "{folder}{name}.case")?;
    let text = fs::read_to_string(rt, path.as_str()).context(format_args!("reading {path}"));
    drop(path);
    text
}

// The folder of an index's path, up to its last `/`, which is included; empty if there is no `/`.
fn folder_of(index: &str) -> &str {
    match index.rfind('/') {
        Some(end) => &index[..=end],
        None => "",
    }
}

// The report on a case: the fault in its text, or the first difference in its results; None if the case passes. Error: memory was refused.
fn reported(alloc: Global, text: &str) -> Result<Option<String>, AllocError> {
    match read_case(alloc, text) {
        Ok(commands) => run_case(alloc, commands),
        Err(fault) => Ok(Some(format!(in alloc; "{fault}")?)),
    }
}
