//! `m11-trace`: runs a tape with a line for each step. `m11_tracer` does all of its work.
#![tactic(auto)]

use m11_base::{ReaderFeed, WriterSink};
use m11_base_files::SystemFiles;
use m11_cli_reports::command_without_words;
use m11_cli_tasks::words;
use m11_tracer::command;
use std::process::ExitCode;

fn main(rt: HostRuntime) -> ExitCode {
    // Created before anything else: it opens a stand-in for each standard stream that is closed, so that no other file takes its place.
    let mut files = SystemFiles::new(&rt);
    let mut input = ReaderFeed::new(rt.stdin());
    let mut out = WriterSink::new(rt.stdout());
    let mut err = WriterSink::new(rt.stderr());
    let status = match words(&rt) {
        Ok(words) => command(
            rt.alloc(),
            &mut files,
            &mut input,
            &mut out,
            &mut err,
            words.as_slice(),
        ),
        Err(fault) => command_without_words(rt.alloc(), fault, &mut err),
    };
    ExitCode::from(status)
}
