//! From the words of a command line and a reader to a writer.
ghost use Rattle.std.specs.Prelude.{◌≡◌, ◌≢◌, ◌≤◌, ◌↔◌, [], true, IsNone, IfOk, IfErr, map, string_bytes};
ghost use Rattle.shake_options.specs.CommandLine.{command_line};
ghost use Rattle.shake_run.specs.Done.{Done};
ghost use Rattle.shake_run.specs.Status.{status_of};
ghost use Rattle.shake_run.specs.declared.fault.Fault.TheVariants.{Arguments, Print, Output};
ghost use Rattle.swc_ast.specs.Modules.{module_tree};
ghost use Rattle.swc_ast.specs.Valid.{valid};
ghost use Rattle.swc_text.specs.Refused.{Refuses};
ghost use Rattle.swc_text.specs.Texts.{IsPrinted};
ghost use Rattle.swc_text.specs.declared.error.PrintError.TheVariants.{Invalid};
ghost use Rattle.tree_captures.specs.Captured.{no_scope, captured};

use crate::answer::answer;
use crate::fault::Fault;
use crate::input::read_text;
use shake_options::{Options, flags_of, retained};
use std::alloc::Global;
use std::io::{Read, Write};
use std::mem::ManuallyDrop;
use swc_ast::{Mark, Module};
use swc_text::{PrintError, print, print_compact};

/// The program's work: `args` are the words behind its name. Reads a module from `reader`, with the unresolved mark 1,
/// runs the pass that the first word names and writes the answer. Gives the exit status: 0; 1 on a failure, with one
/// line on `errors` and nothing written unless a write itself failed; 2 with the line `shake: arguments` where the
/// words aren't understood, and then nothing is read. Faults are found in the order arguments, input, reader, flags, pass,
/// printer, output. A failed write to `errors` changes no status. The memory of the answer's tree is left to the end of the process.
pub fn run<R: Read, W: Write, E: Write>(
    alloc: Global,
    args: &[String],
    reader: &mut R,
    writer: &mut W,
    errors: &mut E,
) -> u8
    ensures status { result ≤ 2 }
    ensures arguments { (result ≡ 2) ↔ IsNone (command_line (map string_bytes args.now)) }
    ensures unread { result ≡ 2 → reader.new ≡ reader.old }
    ensures unwritten { result ≡ 2 → writer.new ≡ writer.old }
    ensures silent { result ≡ 0 → errors.new ≡ errors.old }
    // What was left to read is `IsReadModule` of a module, and what was written is `IsPrinted` of what the pass makes of it. That these
    // are texts of the two isn't said.
    ensures done { result ≡ 0 → Done (map string_bytes args.now) (R.remaining reader.old) (W.contents writer.old) (W.contents writer.new) }
{
    match work(alloc, args, reader, writer) {
        Ok(()) => 0,
        Err(fault) => tell(fault, errors),
    }
}

/// Tells a fault, in one line on `errors`. Gives the exit status. A failed write to `errors` changes no status.
pub fn tell<E: Write>(fault: Fault, errors: &mut E) -> u8
    ensures { result ≡ status_of fault }
{
    let _ = writeln!(errors, "shake: {fault}");
    fault.status()
}

/// The text of an answer.
fn printed(alloc: Global, m: &Module, compact: bool) -> Result<String, PrintError>
    ensures printed { IfOk result (λ text. IsPrinted (module_tree m.now) (string_bytes text)) }
    ensures uncaptured { IfOk result (λ _. captured no_scope (module_tree m.now) ≡ []) }
    ensures valid { IfOk result (λ _. valid (module_tree m.now) ≡ true) }
    ensures refused { IfErr result (Refuses (module_tree m.now)) }
{
    if compact {
        print_compact(alloc, m)
    } else {
        print(alloc, m)
    }
}

#[tactic(auto, using(crate::proofs::Refusals::no_arguments, crate::proofs::Refusals::no_output, crate::proofs::Refusals::no_print))]
fn work<R: Read, W: Write>(
    alloc: Global,
    args: &[String],
    reader: &mut R,
    writer: &mut W,
) -> Result<(), Fault>
    ensures ok { IfOk result (λ u. command_line (map string_bytes args.now) ≢ None) }
    ensures done { IfOk result (λ _. Done (map string_bytes args.now) (R.remaining reader.old) (W.contents writer.old) (W.contents writer.new)) }
    ensures arguments { IfErr result (λ fault. (fault ≡ Arguments) ↔ IsNone (command_line (map string_bytes args.now))) }
    ensures unread { IfErr result (λ fault. fault ≡ Arguments → reader.new ≡ reader.old) }
    ensures unwritten { IfErr result (λ fault. fault ≢ Output → writer.new ≡ writer.old) }
    ensures printable { IfErr result (λ fault. fault ≢ Print Invalid) }
{
    let options = Options::parse(args).ok_or(Fault::Arguments)?;
    let retained = retained(alloc, args).map_err(|_| Fault::OutOfMemory)?;
    let flags = flags_of(alloc, args).map_err(|_| Fault::OutOfMemory)?;
    let text = read_text(alloc, reader)?;
    let mark = Mark::new(1).unwrap();
    let simpler = answer(
        alloc,
        options,
        retained,
        flags.as_slice(),
        mark,
        text.as_str(),
    )?;
    // The process ends behind this, so nothing is won by dropping the tree.
    let simpler = ManuallyDrop::new(simpler);
    // The text is whole before the first write.
    let printed = printed(alloc, &simpler, options.compact).map_err(Fault::Print)?;
    writer
        .write_all(printed.as_bytes())
        .map_err(|_| Fault::Output)?;
    writer.flush().map_err(|_| Fault::Output)
}
