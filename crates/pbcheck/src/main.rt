//! `pbcheck FILE PROOF`: prints the verdict about a proof of a problem, and ends with the status that stands for it. The proof is
//! read piece by piece, from a file or from standard input, and no more of it is held than a line.
#![tactic(auto)]

use checker::{
    Afterwards, StreamVerdict, Verdict, check_stream_then, verdict_status, verdict_text,
};
use clap::{Arg, ArgAction, Command, Error};
use command_line::{
    BAD_COMMAND, DeviceFailed, STANDARD_OUTPUT, VERSION, ended, given_by, refused, words,
};
use devices::ReaderSource;
use std::alloc::Global;
use std::io::{ErrorKind, Read, Write};
use std::process::ExitCode;
use std::rt::{Env, Files};
use std::{fs, io};

/// The status where memory runs out.
const NO_MEMORY: u8 = 4;

const EXPLANATION: &str = "Standard output has one verdict:
  accepted NONE               exit status 0: the steps are legal, nothing is concluded
  accepted SAT                0: there is a solution; a `v` line has one
  accepted UNSAT              0: there is no solution
  accepted BOUNDS L U         0: no solution is worth less than L, and the one of the `v` line at most U
  refused line L code C NAME  1: line L of the proof is the first that cannot be read or is not legal
  bad problem line L ..       2: FILE is no problem in the format
  no memory                   4: nothing is said
A command line that is refused ends with 64. A read or write that fails ends with 3; on standard
error a line says which and how, and the next one is `device failed`.

The proof is read piece by piece, and `-` reads it from standard input.

Example: pbcheck examples/pigeons.opb examples/pigeons.pbp
         zstdcat proof.pbp.zst | pbcheck problem.opb -";

/// The word for standard input in the place of a file.
const STANDARD_INPUT: &str = "-";

/// The file of the problem.
fn file<'a>(alloc: Global) -> Arg<'a> {
    Arg::new(alloc, "FILE")
        .required(true)
        .action(ArgAction::Set)
        .help("The problem: linear constraints over 0-1 variables (OPB)")
}

/// The file of the proof.
fn proof<'a>(alloc: Global) -> Arg<'a> {
    Arg::new(alloc, "PROOF")
        .required(true)
        .action(ArgAction::Set)
        .help("The proof, whoever wrote it (VeriPB, version 2.0); - is standard input")
}

/// What the command line may be.
fn command<'a>(alloc: Global) -> Result<Command<'a>, Error> {
    Ok(
        Command::new(alloc, "pbcheck")
            .version(VERSION)
            .about("Judges a proof about a pseudo-Boolean problem and prints the verdict.")
            .after_help(EXPLANATION)
            .arg(file(alloc))?
            .arg(proof(alloc))?,
    )
}

/// The verdict about a proof that a reader gives, or how reading it failed.
fn judged<P: Read + Drop>(alloc: Global, opb: &[u8], proof: P) -> io::Result<Verdict> {
    let mut source = ReaderSource::new(proof);
    match check_stream_then(alloc, opb, &mut source, Afterwards::Leave) {
        StreamVerdict::Judged(verdict) => Ok(verdict),
        StreamVerdict::ReadFailed => match source.into_error() {
            Some(error) => Err(error),
            None => Err(io::Error::from(ErrorKind::Other)),
        },
    }
}

/// Reads the proof from its file, or from standard input, and judges it.
fn judge_proof<R: Files + Input + AllocGlobal>(
    rt: &R,
    opb: &[u8],
    proof: &str,
) -> io::Result<Verdict> {
    if proof == STANDARD_INPUT {
        judged(rt.alloc(), opb, rt.reader())
    } else {
        judged(rt.alloc(), opb, fs::open(rt, proof)?)
    }
}

/// Prints the verdict; where there is no memory for its text, that. The result is the exit status.
fn print<R: Print + AllocGlobal>(rt: &R, opb: &[u8], verdict: &Verdict) -> io::Result<u8> {
    let Ok(text) = verdict_text(rt.alloc(), opb, verdict) else {
        io::writer(rt).write_all(b"no memory\n")?;
        return Ok(NO_MEMORY);
    };
    io::writer(rt).write_all(text.as_slice())?;
    Ok(verdict_status(verdict))
}

/// Reads the problem, judges the proof and prints the verdict. The result is the exit status.
fn judge<R: Files + Input + Print + Eprint + AllocGlobal>(
    rt: &R,
    problem: &str,
    proof: &str,
) -> Result<u8, DeviceFailed> {
    let opb = given_by(rt, problem, fs::read(rt, problem))?;
    let verdict = given_by(rt, proof, judge_proof(rt, opb.as_slice(), proof))?;
    given_by(rt, STANDARD_OUTPUT, print(rt, opb.as_slice(), &verdict))
}

/// Takes the command line, and does what it asks for. The result is the exit status.
fn run<R: Env + Files + Input + Print + Eprint + AllocGlobal>(rt: &R) -> Result<u8, DeviceFailed> {
    let Some(words) = words(rt)? else {
        return Ok(BAD_COMMAND);
    };
    let command = match command(rt.alloc()) {
        Ok(command) => command,
        Err(error) => return refused(rt, &error),
    };
    match command.try_get_matches_from(words.as_slice()) {
        Ok(matches) => {
            let problem = matches.get_str("FILE").unwrap_or("");
            let proof = matches.get_str("PROOF").unwrap_or("");
            judge(rt, problem, proof)
        }
        Err(error) => refused(rt, &error),
    }
}

fn main(rt: HostRuntime) -> ExitCode {
    ended(&rt, run(&rt))
}
