//! `m11-dump`: shows the contents of objects, libraries and tapes, or the load map of objects. `m11_dumper` does all of its work.
#![tactic(auto)]

use m11_base::WriterSink;
use m11_base_files::SystemFiles;
use m11_cli_tasks::words;
use m11_dumper::{PipeSink, command, command_without_words};
use std::process::ExitCode;

fn main(rt: HostRuntime) -> ExitCode {
    // Created before anything else is opened, so that no file takes the place of a standard stream that is already closed.
    let mut files = SystemFiles::new(&rt);
    let mut out = PipeSink::new(rt.stdout());
    let mut err = WriterSink::new(rt.stderr());
    let status = match words(&rt) {
        Ok(words) => command(rt.alloc(), &mut files, &mut out, &mut err, words.as_slice()),
        Err(fault) => command_without_words(rt.alloc(), fault, &mut err),
    };
    ExitCode::from(status)
}
