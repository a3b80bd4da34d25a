//! The program: its words, and the standard streams.
#![tactic(auto)]

use beanpax::{
    ProgramFault, Reading, Writing, no_sockets, program, tell_fault, warn, warn_of_host, write_all,
};
use std::process::ExitCode;
use std::rt::Env;
use std::{env, io};

fn main(rt: HostRuntime) -> ExitCode {
    let _sockets = no_sockets();
    let mut input = Reading::new(rt.stdin());
    let mut output = Writing::new(rt.stdout());
    let mut errors = Writing::new(rt.stderr());
    let status = match words(&rt) {
        Ok(words) => {
            warn(rt.alloc(), words.as_slice(), &mut errors);
            warn_of_host(rt.alloc(), words.as_slice(), &mut errors);
            program(&rt, words.as_slice(), &mut input, &mut output, &mut errors)
        }
        Err(e) if e.kind() == io::ErrorKind::OutOfMemory => {
            tell_fault(ProgramFault::OutOfMemory, &mut errors);
            1
        }
        Err(_) => {
            let _ = write_all(&mut errors, b"error: a word is no text\n");
            2
        }
    };
    ExitCode::from(status)
}

// The words of the command line, the program's name first.
fn words<R: Env + AllocGlobal>(rt: &R) -> io::Result<Vec<String>> {
    Ok(env::args(rt)?.collect(rt.alloc())?)
}
