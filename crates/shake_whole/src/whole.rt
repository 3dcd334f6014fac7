//! From the words of a command line and a reader to a writer, by way of a text in which calls stand for what isn't in the core.
ghost use Rattle.std.specs.Prelude.{◌≡◌, ◌≤◌, ◌↔◌, None, IsNone, IfOk, OnOk, IfErr, map, string_bytes};
ghost use Rattle.std.specs.Io.KnownBytes.{Appends};
ghost use Rattle.shake_options.specs.CommandLine.{command_line};
ghost use Rattle.shake_run.specs.declared.fault.Fault.TheVariants.{Output};
ghost use Rattle.shake_whole.specs.DoneWhole.{DoneOfCore, DoneWhole};
ghost use Rattle.shake_whole.specs.declared.stop.Stop.TheVariants.{Arguments, OutOfMemory, Stream};

use crate::stop::Stop;
use crate::words::name_given;
use shake_options::{Options, PassName, flags_of};
use shake_run::{Fault, read_text, run};
use std::alloc::Global;
use std::io::{Read, Write};
use text_whole::{Whole, WholeError, enclose};

/// The program's work on a module of which parts may be kept: as `run`, but for what isn't in the core. Each smallest expression,
/// statement or item that holds such a construct is kept word for word. The pass sees it as a call of a function that the host has,
/// with functions that read the names that it mentions, and that write those that it writes. A module with a kept part that mentions
/// `eval` or `arguments` is left as it is where no flag is given.
///
/// Gives the exit status: 0; 1 on a failure, with a line on `errors`; 2 with the line `shake: arguments` where the words aren't
/// understood, and then nothing is read. A flag that gives something for a name that kept text mentions is a failure.
pub fn run_whole<R: Read, W: Write, E: Write>(
    alloc: Global,
    args: &[String],
    reader: &mut R,
    writer: &mut W,
    errors: &mut E,
) -> u8
    ensures status { result ≤ 2 }
    ensures arguments { (result ≡ 2) ↔ IsNone (command_line (map string_bytes args.now)) }
    ensures unread { result ≡ 2 → reader.new ≡ reader.old }
    ensures unwritten { result ≡ 2 → writer.new ≡ writer.old }
    ensures done { result ≡ 0 → DoneWhole (map string_bytes args.now) (R.remaining reader.old) (W.contents writer.old) (W.contents writer.new) }
{
    match work(alloc, args, reader, writer, errors) {
        Ok(()) => 0,
        Err(stop) => stop.tell(errors),
    }
}

fn work<R: Read, W: Write, E: Write>(
    alloc: Global,
    args: &[String],
    reader: &mut R,
    writer: &mut W,
    errors: &mut E,
) -> Result<(), Stop>
    ensures done { IfOk result (λ _. DoneWhole (map string_bytes args.now) (R.remaining reader.old) (W.contents writer.old) (W.contents writer.new)) }
    ensures arguments { IfErr result (λ stop. (stop ≡ Arguments) ↔ IsNone (command_line (map string_bytes args.now))) }
    ensures asked { IfOk result (λ _. command_line (map string_bytes args.now) ≡ None → ⊥) }
    ensures unread { IfErr result (λ stop. stop ≡ Arguments → reader.new ≡ reader.old) }
    ensures unwritten { IfErr result (λ stop. stop ≡ Arguments → writer.new ≡ writer.old) }
{
    let options = Options::parse(args).ok_or(Stop::Arguments)?;
    let text = read_text(alloc, reader).map_err(Stop::Stream)?;
    let text = text.as_str();
    match enclose(alloc, text, carries(options.pass)) {
        Ok(whole) => {
            let restored = restored(alloc, args, &whole, errors)?;
            put(writer, restored.as_str())
        }
        Err(WholeError::NoStandIn { .. }) if has_no_flags(alloc, args)? => put(writer, text),
        Err(error) => Err(Stop::Whole(error)),
    }
}

/// Whether a pass substitutes values for names, so that kept text could lose what it mentions.
fn carries(pass: PassName) -> bool {
    matches!(
        pass,
        PassName::Const | PassName::Inline | PassName::Optimize
    )
}

/// Whether the words give nothing for names, members or imports.
fn has_no_flags(alloc: Global, args: &[String]) -> Result<bool, Stop>
    ensures { IfErr result (λ stop. stop ≡ OutOfMemory) }
{
    match flags_of(alloc, args) {
        Ok(flags) => Ok(flags.is_empty()),
        Err(_) => Err(Stop::OutOfMemory),
    }
}

/// Refuses a flag for a name that kept text mentions, since nothing is replaced in it.
fn flags_are_seen(alloc: Global, args: &[String], whole: &Whole<'_>) -> Result<(), Stop>
    ensures { IfErr result (λ stop. stop ≡ Arguments → ⊥) }
{
    let flags = flags_of(alloc, args).map_err(|_| Stop::OutOfMemory)?;
    for flag in &flags {
        let Some(name) = name_given(flag) else {
            continue;
        };
        if let Some(at) = whole.mention_of(name) {
            let name = format!(in alloc; "{name}").map_err(|_| Stop::OutOfMemory)?;
            return Err(Stop::Mentioned { name, at });
        }
    }
    Ok(())
}

/// The work on the core text, and what is kept in its places in what was printed.
fn restored<E: Write>(
    alloc: Global,
    args: &[String],
    whole: &Whole<'_>,
    errors: &mut E,
) -> Result<String, Stop>
    ensures done { IfOk result (λ _. DoneOfCore (map string_bytes args.now)) }
    ensures refused { IfErr result (λ stop. stop ≡ Arguments → command_line (map string_bytes args.now) ≡ None) }
{
    flags_are_seen(alloc, args, whole)?;
    let mut core = whole.text().as_bytes();
    let mut printed: Vec<u8> = Vec::new(alloc);
    if run(alloc, args, &mut core, &mut printed, errors) != 0 {
        return Err(Stop::Said);
    }
    let printed = String::from_utf8(printed).map_err(|_| Stop::Stream(Fault::Output))?;
    whole.restore(alloc, printed.as_str()).map_err(Stop::Whole)
}

/// Writes a text.
fn put<W: Write>(writer: &mut W, text: &str) -> Result<(), Stop>
    ensures written { OnOk result (Appends (W.contents writer.old) (W.contents writer.new) text.now) }
    ensures fault { IfErr result (λ stop. stop ≡ Stream Output) }
{
    writer
        .write_all(text.as_bytes())
        .map_err(|_| Stop::Stream(Fault::Output))?;
    writer.flush().map_err(|_| Stop::Stream(Fault::Output))
}
