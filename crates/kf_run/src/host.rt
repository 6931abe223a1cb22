//! The program on a real system: its arguments, the script's file, and its streams.

ghost use Rattle.std.specs.Prelude.{◌≤◌};

use crate::arguments::read_words;
use crate::opened::run_opened;
use crate::program::{answer_error, tell};
use either::{Either, Left, Right};
use kf_script::{RunFault, write_whole};
use std::alloc::AllocError;
use std::fs::File;
use std::io::{ErrorKind, Stdin};
use std::sync::Wait;
use std::thread::Threads;
use std::{env, io};

/// The arguments of the command line.
fn words(rt: &HostRuntime) -> io::Result<Vec<String>> {
    Ok(env::args(rt)?.collect(rt.alloc())?)
}

/// Opens the script: standard input, or the named file, which must not be a directory.
fn open(rt: &HostRuntime, script: Option<&str>) -> io::Result<Either<Stdin, File>> {
    let name = match script {
        None | Some("-") => return Ok(Left(rt.stdin())),
        Some(name) => name,
    };
    let file = File::open(rt, name)?;
    if file.metadata()?.is_dir() {
        return Err(io::Error::from(ErrorKind::IsADirectory));
    }
    Ok(Right(file))
}

/// Runs the program, and returns its exit status. The replies go to standard output; without workers they go
/// there as the script is read. What the program says about a fault goes to standard error.
///
/// If clap accepts the arguments, the status is that of `run_opened`. If an argument is not UTF-8, or if clap
/// refuses the arguments, it is 2. If they ask for help or the version, it is 0, or 1 if that could not be
/// printed. If memory was refused before the script is opened, it is 1.
///
/// `threads` starts the threads of workers and waits for them; in `main` it is the runtime itself.
pub fn run_host<H: Threads + Wait + Sync>(rt: &HostRuntime, threads: &H) -> u8
    ensures { result ≤ 2 }
{
    let mut out = rt.stdout();
    let mut fault = rt.stderr();
    match words(rt) {
        Ok(words) => match read_words(rt.alloc(), words.as_slice()) {
            Ok(asked) => {
                let mut opened = open(rt, asked.script);
                run_opened(
                    threads,
                    rt.alloc(),
                    &asked,
                    &mut opened,
                    &mut out,
                    &mut fault,
                )
            }
            Err(error) => answer_error(rt.alloc(), &error, &mut out, &mut fault),
        },
        Err(error) if error.kind() == ErrorKind::InvalidData => {
            let _ = write_whole(&mut fault, b"error: an argument is not UTF-8\n");
            2
        }
        Err(_) => tell(RunFault::Memory, &mut fault),
    }
}
