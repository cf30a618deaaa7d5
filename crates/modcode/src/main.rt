//! The program `modcode`: its arguments, and the real files and output, handed to `workbench`.
#![tactic(auto)]

ghost use Rattle.std.specs.Prelude.{◌≡◌, ◌⊎◌, IfErr};
ghost use Rattle.command_steps.specs.declared.status.Status.TheVariants as statuses;

use command_steps::Status;
use shelf_io::{HostShelf, HostSink};
use std::env;
use std::io::ErrorKind;
use std::process::ExitCode;
use std::rt::{Env, Files};
use workbench::{end_with, run_arguments};

/// The arguments of the process, its name first. One that is no UTF-8 makes words of no form.
fn arguments(rt: &(impl Env + AllocGlobal)) -> Result<Vec<String>, Status>
    ensures { IfErr result (λ status. (status ≡ statuses.Usage) ⊎ (status ≡ statuses.NoMemory)) }
{
    match env::args(rt) {
        Ok(arguments) => Ok(arguments.collect(rt.alloc())?),
        Err(error) if error.kind() == ErrorKind::OutOfMemory => Err(Status::NoMemory),
        Err(_) => Err(Status::Usage),
    }
}

fn exit_status<R: Env + Files + Print + AllocGlobal>(rt: &R) -> u8 {
    let mut out = HostSink::new(rt);
    match arguments(rt) {
        Ok(arguments) => {
            let mut shelf = HostShelf::new(rt);
            run_arguments(rt.alloc(), arguments.as_slice(), &mut shelf, &mut out)
        }
        Err(status) => end_with(rt.alloc(), &status, &mut out),
    }
}

fn main(rt: HostRuntime) -> ExitCode {
    ExitCode::from(exit_status(&rt))
}
