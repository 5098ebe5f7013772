//! What both programs do where a command line is not taken, and where a device fails: which one, and how, is said before the program ends.
//!
//! A script tells these two from any answer by the exit status alone, so they are the same in both programs.
#![tactic(auto)]

ghost use Rattle.std.specs.Prelude.{◌≡◌, IfOk, IsErr, MatchResult};
ghost use Rattle.std.specs.Process.{exit_status};
ghost use Rattle.clap.specs.Values.{kind_of};
ghost use Rattle.command_line.specs.Statuses.{IsMistake, IsStatusFor};

use clap::Error;
use clap::error::ErrorKind;
use std::process::ExitCode;
use std::rt::Env;
use std::{env, io};

/// The version that both programs print, that of the manual pages and of CHANGELOG.md.
pub const VERSION: &str = "0.2.0";

/// The status of a command line that is refused.
pub const BAD_COMMAND: u8 = 64;
/// The status of a device that failed.
pub const DEVICE_FAILED: u8 = 3;

/// What messages call the command line and its answer.
const COMMAND_LINE: &str = "command line";
/// What messages call standard output.
pub const STANDARD_OUTPUT: &str = "standard output";

/// Prints why a command line is not taken, help and the version on standard output, a mistake on standard error. The result
/// is the exit status: 0 for help and the version, 64 for a mistake, also where standard error cannot be written. Help that
/// cannot be written, and running out of memory, are answered as a device's failure.
pub fn refused<R: Print + Eprint>(rt: &R, error: &Error) -> Result<u8, DeviceFailed>
    ensures status { IfOk result (IsStatusFor (kind_of error.now)) }
    ensures mistake { IsMistake (kind_of error.now) → result ≡ Ok 64 }
    ensures memory { kind_of error.now ≡ ErrorKind.OutOfMemory → IsErr result }
{
    match error.kind() {
        ErrorKind::OutOfMemory => {
            let failed = io::Error::from(io::ErrorKind::OutOfMemory);
            Err(device_failed(rt, COMMAND_LINE, &failed))
        }
        ErrorKind::DisplayHelp | ErrorKind::DisplayVersion => {
            given_by(rt, STANDARD_OUTPUT, error.print(rt))?;
            Ok(0)
        }
        _ => {
            let _ = error.print(rt);
            Ok(BAD_COMMAND)
        }
    }
}

/// That a device failed, after it was told which one and how.
#[derive(Clone, Copy, Debug, PartialEq, Eq)]
pub struct DeviceFailed;

/// Says on standard error which device failed, and how: `DEVICE: what failed`.
pub fn device_failed<R: Eprint>(rt: &R, device: &str, error: &io::Error) -> DeviceFailed {
    let _ = eprintln!(rt; "{device}: {error}");
    DeviceFailed
}

/// What a device gave; where it failed, which one it was and how is said on standard error.
pub fn given_by<R: Eprint, T>(rt: &R, device: &str, given: io::Result<T>) -> Result<T, DeviceFailed>
    ensures given { MatchResult given (λ value. result ≡ Ok value) (λ error. IsErr result) }
{
    match given {
        Ok(value) => Ok(value),
        Err(error) => Err(device_failed(rt, device, &error)),
    }
}

/// The words of the command line; none where one of them is not UTF-8, which is a mistake (64), and is said on standard error.
pub fn words<R: Env + Eprint + AllocGlobal>(rt: &R) -> Result<Option<Vec<String>>, DeviceFailed> {
    match collected(rt) {
        Ok(words) => Ok(Some(words)),
        Err(error) if error.kind() == io::ErrorKind::InvalidData => {
            let _ = eprintln!(rt; "{COMMAND_LINE}: a word is not UTF-8");
            Ok(None)
        }
        Err(error) => Err(device_failed(rt, COMMAND_LINE, &error)),
    }
}

/// The words of the command line, or why there are none.
fn collected<R: Env + AllocGlobal>(rt: &R) -> io::Result<Vec<String>> {
    Ok(env::args(rt)?.collect(rt.alloc())?)
}

/// How a program ends: with the status of its answer, or, where a device failed, with 3 and the line `device failed` on standard
/// error, behind the one that says which.
pub fn ended<R: Eprint>(rt: &R, answer: Result<u8, DeviceFailed>) -> ExitCode
    ensures answered { IfOk answer (λ status. exit_status result ≡ status) }
    ensures failed { IsErr answer → exit_status result ≡ 3 }
{
    match answer {
        Ok(status) => ExitCode::from(status),
        Err(_) => {
            let _ = eprintln!(rt; "device failed");
            ExitCode::from(DEVICE_FAILED)
        }
    }
}
