//! `pbopt FILE [--proof FILE] [--conflicts N] [--progress]`: prints the answer about a problem, and ends with the status that stands for it.
#![tactic(auto)]

mod reporting;

ghost use Rattle.std.specs.Prelude.{◌≡◌, IfOk, IfSome};

use clap::{Arg, ArgAction, Command, Error};
use command_line::{
    BAD_COMMAND, DeviceFailed, STANDARD_OUTPUT, VERSION, device_failed, ended, given_by, refused,
    words,
};
use devices::WriterSink;
use pb_main::{Outcome, RunFault, run, status};
use reporting::Reporting;
use search::{Activity, Brancher};
use std::alloc::{AllocError, Global};
use std::io::{ErrorKind, Write};
use std::process::ExitCode;
use std::rt::{Env, Files};
use std::{fs, io};

/// How many conflicts a search may meet, where the command line does not say.
const CONFLICTS: &str = "1000000";

/// A file that gives nothing, and is there on every machine.
const NOTHING: &str = "/dev/null";

const EXPLANATION: &str = "Standard output has the answer, in the competition's words:
  s OPTIMUM FOUND   exit status 30: the `v` line has a best solution, worth the last `o` line
  s SATISFIABLE     10: the `v` line has a solution; with an objective, perhaps not the best
  s UNSATISFIABLE   20: there is no solution
  s UNKNOWN         0: a `c` line says why: limit (of conflicts or of ids) or memory
  s UNSUPPORTED     0: a `c` line says what FILE has that is not supported
  c refused ..      2, and no `s` line: FILE is no problem in the format
Before an optimum or that there is no solution is said, the proof of it is checked.
A command line that is refused ends with 64. A read or write that fails ends with 3; on standard
error a line says which and how, and the next one is `device failed`.

Example: pbopt examples/cover.opb --proof cover.pbp ; pbcheck examples/cover.opb cover.pbp";

/// The file of the problem.
fn file<'a>(alloc: Global) -> Arg<'a> {
    Arg::new(alloc, "FILE")
        .required(true)
        .action(ArgAction::Set)
        .help("The problem: linear constraints over 0-1 variables, perhaps with an objective (OPB)")
}

/// Where the proof goes.
fn proof<'a>(alloc: Global) -> Arg<'a> {
    Arg::new(alloc, "proof")
        .long("proof")
        .value_name("FILE")
        .action(ArgAction::Set)
        .help("Where the proof goes (VeriPB, version 2.0)")
}

/// How many conflicts a search may meet.
fn conflicts<'a>(alloc: Global) -> Arg<'a> {
    Arg::new(alloc, "conflicts")
        .long("conflicts")
        .value_name("N")
        .action(ArgAction::Set)
        .value_parser(clap::value_parser!(u64).range(1..))
        .default_value(CONFLICTS)
        .help("Stop at the conflict of this number, from 1")
}

/// Whether to say how far the search has come.
fn progress<'a>(alloc: Global) -> Arg<'a> {
    Arg::new(alloc, "progress")
        .long("progress")
        .action(ArgAction::SetTrue)
        .help("Say on standard error how far the search has come")
}

/// What the command line may be.
fn command<'a>(alloc: Global) -> Result<Command<'a>, Error> {
    Ok(
        Command::new(alloc, "pbopt")
            .version(VERSION)
            .about("Solves a pseudo-Boolean problem and prints the answer, with a proof beside it.")
            .after_help(EXPLANATION)
            .arg(file(alloc))?
            .arg(proof(alloc))?
            .arg(conflicts(alloc))?
            .arg(progress(alloc))?,
    )
}

/// Says how a write failed.
fn write_failed<R: Eprint, W: Write + Drop>(
    rt: &R,
    device: &str,
    sink: WriterSink<W>,
) -> DeviceFailed {
    match sink.into_error() {
        Some(error) => device_failed(rt, device, &error),
        None => device_failed(rt, device, &io::Error::from(ErrorKind::Other)),
    }
}

/// Makes a file whose number is none of those of standard input, output and error.
// Where a caller has closed one of these, the next file gets its number, and what is printed would go into the proof. So files that give nothing
// take the numbers that are free meanwhile; one that cannot be opened takes none.
fn create_above<R: Files>(rt: &R, path: &str) -> io::Result<R::File> {
    let _first = fs::open(rt, NOTHING);
    let _second = fs::open(rt, NOTHING);
    let _third = fs::open(rt, NOTHING);
    fs::create(rt, path)
}

/// Makes the file of the proof, where one is asked for.
fn proof_file<R: Files + Eprint>(
    rt: &R,
    path: Option<&str>,
) -> Result<Option<WriterSink<R::File>>, DeviceFailed>
    ensures { IfOk result (λ file. IfSome file (λ sink. sink.failures ≡ 0)) }
{
    match path {
        Some(path) => {
            let file = given_by(rt, path, create_above(rt, path))?;
            Ok(Some(WriterSink::new(file)))
        }
        None => Ok(None),
    }
}

/// What is said where there is no memory to begin.
fn without_memory<R: Print + Eprint>(rt: &R) -> Result<u8, DeviceFailed> {
    let written = io::writer(rt).write_all(b"c memory\ns UNKNOWN\n");
    given_by(rt, STANDARD_OUTPUT, written)?;
    Ok(0)
}

/// What the command line asks for.
#[derive(Clone, Copy, Debug)]
struct Wanted<'a> {
    /// The file of the problem.
    problem: &'a str,
    /// Where the proof goes, if anywhere.
    proof: Option<&'a str>,
    /// At the conflict of this number the search stops.
    limit: u64,
    /// Whether to say how far the search has come.
    shows_progress: bool,
}

/// The branching rules, which tell about the progress where that is wanted.
fn brancher(rt: &HostRuntime, wanted: &Wanted<'_>) -> Result<Box<Reporting>, AllocError> {
    let lines = if wanted.shows_progress {
        Some(rt.clone()?)
    } else {
        None
    };
    let rules = Reporting::new(Activity::new(rt.alloc()), lines);
    Ok(Box::new(rt.alloc(), rules)?)
}

/// What could not be written.
#[derive(Clone, Copy, Debug)]
enum Unwritten {
    Answer,
    Proof,
}

/// The exit status of an outcome.
fn finished(outcome: Outcome) -> u8 {
    status(&outcome)
}

/// What a run did not write.
fn failed_write(fault: RunFault) -> Unwritten {
    match fault {
        RunFault::AnswerWrite(_) => Unwritten::Answer,
        RunFault::ProofWrite => Unwritten::Proof,
    }
}

/// Solves a problem, and writes the proof and then the answer. The result is the exit status.
// What a run answers is dropped elsewhere, since each place where it may be dropped is to be proved, and here with all that is known of a run.
fn status_of<W: Write + Drop, F: Write + Drop>(
    alloc: Global,
    wanted: &Wanted<'_>,
    opb: &[u8],
    brancher: Box<dyn Brancher>,
    out: &mut WriterSink<W>,
    proof_out: &mut Option<WriterSink<F>>,
) -> Result<u8, Unwritten>
    requires out { out.old.failures ≡ 0 }
    requires proof_out { IfSome proof_out.old (λ sink. sink.failures ≡ 0) }
{
    let limit = wanted.limit.max(1);
    match run(alloc, opb, limit, brancher, out, proof_out) {
        Ok(outcome) => Ok(finished(outcome)),
        Err(fault) => Err(failed_write(fault)),
    }
}

/// Solves a problem, writes the proof and then the answer, and says which device failed, if one did. The result is the exit status.
fn answer<F: Write + Drop>(
    rt: &HostRuntime,
    wanted: &Wanted<'_>,
    opb: &[u8],
    brancher: Box<dyn Brancher>,
    proof_out: Option<WriterSink<F>>,
) -> Result<u8, DeviceFailed>
    requires { IfSome proof_out (λ sink. sink.failures ≡ 0) }
{
    let mut proof_out = proof_out;
    let mut out = WriterSink::new(io::writer(rt));
    match status_of(rt.alloc(), wanted, opb, brancher, &mut out, &mut proof_out) {
        Ok(status) => Ok(status),
        Err(Unwritten::Answer) => Err(write_failed(rt, STANDARD_OUTPUT, out)),
        Err(Unwritten::Proof) => match (wanted.proof, proof_out) {
            (Some(path), Some(sink)) => Err(write_failed(rt, path, sink)),
            _ => Err(DeviceFailed),
        },
    }
}

/// Reads the problem, makes the proof's file, and solves. The result is the exit status.
fn solve(rt: &HostRuntime, wanted: &Wanted<'_>) -> Result<u8, DeviceFailed> {
    let opb = given_by(rt, wanted.problem, fs::read(rt, wanted.problem))?;
    let proof_out = proof_file(rt, wanted.proof)?;
    match brancher(rt, wanted) {
        Ok(brancher) => answer(rt, wanted, opb.as_slice(), brancher, proof_out),
        Err(_) => without_memory(rt),
    }
}

/// Takes the command line, and does what it asks for. The result is the exit status.
fn take_command(rt: &HostRuntime) -> Result<u8, DeviceFailed> {
    let Some(words) = words(rt)? else {
        return Ok(BAD_COMMAND);
    };
    let command = match command(rt.alloc()) {
        Ok(command) => command,
        Err(error) => return refused(rt, &error),
    };
    match command.try_get_matches_from(words.as_slice()) {
        Ok(matches) => {
            let wanted = Wanted {
                problem: matches.get_str("FILE").unwrap_or(""),
                proof: matches.get_str("proof"),
                limit: matches.get_one::<u64>("conflicts").unwrap_or(1),
                shows_progress: matches.get_flag("progress"),
            };
            solve(rt, &wanted)
        }
        Err(error) => refused(rt, &error),
    }
}

fn main(rt: HostRuntime) -> ExitCode {
    ended(&rt, take_command(&rt))
}
