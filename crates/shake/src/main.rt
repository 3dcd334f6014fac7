//! The program `shake`: its work is that of `shake_run`, or of `shake_whole` on whole modules, on the standard streams.
#![tactic(auto)]

use shake_options::Notice;
use shake_run::{Fault, inform, run, tell};
use shake_whole::{run_whole, verbatim_at};
use std::alloc::Global;
use std::env;
use std::io::{ErrorKind, Read, Write};
use std::process::ExitCode;

fn main(rt: HostRuntime) -> ExitCode {
    let (mut reader, mut writer, mut errors) = (rt.stdin(), rt.stdout(), rt.stderr());
    // The words behind the program's name. A word that isn't UTF-8 isn't understood.
    let args: Result<Vec<String>, Fault> = match env::args(&rt) {
        Ok(words) => words
            .skip(1)
            .collect(rt.alloc())
            .map_err(|_| Fault::OutOfMemory),
        Err(error) if error.kind() == ErrorKind::OutOfMemory => Err(Fault::OutOfMemory),
        Err(_) => Err(Fault::Arguments),
    };
    let status = match args {
        Ok(args) => match Notice::asked(args.as_slice()) {
            Some(notice) => inform(notice, &mut writer, &mut errors),
            None => work(rt.alloc(), args, &mut reader, &mut writer, &mut errors),
        },
        Err(fault) => tell(fault, &mut errors),
    };
    ExitCode::from(status)
}

/// The work on whole modules where the words ask for it, else on modules in the core.
fn work<R: Read, W: Write, E: Write>(
    alloc: Global,
    mut args: Vec<String>,
    reader: &mut R,
    writer: &mut W,
    errors: &mut E,
) -> u8 {
    match verbatim_at(args.as_slice()) {
        Some(at) => {
            args.remove(at);
            run_whole(alloc, args.as_slice(), reader, writer, errors)
        }
        None => run(alloc, args.as_slice(), reader, writer, errors),
    }
}
