//! numarun, the CPU-pinning part of a container runtime, as a program.
//!
//! To call its parts from a program of your own use `cli` for all that it does, or `node` for its containers and
//! plans.
#![tactic(auto)]

use cli::{CommandLine, Console, Disk, HostTrees, start};
use std::env;
use std::process::ExitCode;

fn main(rt: HostRuntime) -> ExitCode {
    let arguments = env::args(&rt).and_then(|words| Ok(words.collect(rt.alloc())?));
    let mut console = Console::new(rt.stdout(), rt.stderr());
    ExitCode::from(start(
        rt.alloc(),
        &CommandLine,
        arguments,
        &Disk::new(&rt),
        &mut HostTrees::new(&rt),
        rt.stdin(),
        &mut console,
    ))
}
