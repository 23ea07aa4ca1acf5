//! The second program: `joravelsu_run::run` over standard input and standard output.
//!
//! `main` hands on the arguments after the program's name, and ends with the status of the run. `ReadSource` and
//! `WriteSink` of `stream_io` are the trusted edge: that std's reader and writer move the bytes that they say.
#![tactic(auto)]

use graph_run::Status;
use joravelsu_run::run;
use std::alloc::AllocError;
use std::env;
use std::io::{self, ErrorKind};
use std::process::ExitCode;
use stream_io::{ReadSource, WriteSink};

fn main(rt: HostRuntime) -> ExitCode {
    let words: Result<Vec<String>, AllocError> = match env::args(&rt) {
        Ok(words) => words.skip(1).collect(rt.alloc()),
        Err(error) if error.kind() == ErrorKind::OutOfMemory => Err(AllocError),
        // Arguments that aren't UTF-8 are no form, as no arguments are none.
        Err(_) => Ok(Vec::new(rt.alloc())),
    };
    let Ok(words) = words else {
        return ExitCode::from(Status::NoMemory.code());
    };
    let mut source = ReadSource::new(rt.reader());
    let mut sink = WriteSink::new(io::writer(&rt));
    let status = run(&rt, rt.alloc(), words.as_slice(), &mut source, &mut sink);
    ExitCode::from(status.code())
}
