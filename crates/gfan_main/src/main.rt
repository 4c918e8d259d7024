//! gfan: the program. It makes the real objects for `gfan::run::run`, which does what the words ask for, and ends with the code of its status.
#![tactic(auto)]

ghost use Rattle.std.specs.Prelude.{◌≡◌};
ghost use Rattle.std.specs.Process.{exit_status};
ghost use Rattle.gf_front.specs.Lines.{code_of};

use gf_front::{Status, WordsError};
use gf_outside::{RealFiles, StdSink, StdSource};
use gf_waves::FreeGate;
use gfan::run::run;
use gfan_common::refused::Refused;
use std::env;
use std::io::ErrorKind;
use std::process::ExitCode;

/// The arguments after the program's name. Arguments that are not text are a refusal of usage.
fn given(rt: &HostRuntime) -> Result<Vec<String>, WordsError> {
    let args = match env::args(rt) {
        Ok(args) => args,
        Err(error) => {
            return Err(match error.kind() {
                ErrorKind::OutOfMemory => WordsError::Memory,
                _ => WordsError::Usage,
            });
        }
    };
    Ok(args.skip(1).collect::<Vec<String>>(rt.alloc())?)
}

/// The exit code of a status.
fn exit_code(status: &Status) -> ExitCode
    ensures { exit_status result ≡ code_of status.now }
{
    ExitCode::from(status.code())
}

fn main(rt: HostRuntime) -> ExitCode {
    let mut faults = StdSink::new(rt.stderr());
    let status = match given(&rt) {
        Ok(words) => {
            let mut input = StdSource::new(rt.stdin());
            let mut output = StdSink::new(rt.stdout());
            let mut files = RealFiles::new(&rt);
            run(
                &rt,
                rt.alloc(),
                &words,
                &mut input,
                &mut output,
                &mut faults,
                &mut files,
                &FreeGate,
            )
        }
        Err(error) => {
            let refused = Refused::from(error);
            refused.tell(&mut faults);
            Status::Refused(refused.refusal)
        }
    };
    exit_code(&status)
}
