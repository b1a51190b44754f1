//! `m11`: the command line of the tool chain. `m11_cli` does all of its work.
#![tactic(auto)]

use m11_base::{ReaderFeed, WriterSink};
use m11_cli::{SystemFiles, command, command_without_words, words};
use std::process::ExitCode;

fn main(rt: HostRuntime) -> ExitCode {
    // Created before anything else is opened, so that no file takes the place of a standard stream that is already closed.
    let mut files = SystemFiles::new(&rt);
    let mut input = ReaderFeed::new(rt.stdin());
    let mut out = WriterSink::new(rt.stdout());
    let mut err = WriterSink::new(rt.stderr());
    let status = match words(&rt) {
        Ok(words) => command(
            rt.alloc(),
            &mut files,
            &mut input,
            &mut out,
            &mut err,
            words.as_slice(),
        ),
        Err(fault) => command_without_words(rt.alloc(), fault, &mut err),
    };
    ExitCode::from(status)
}
