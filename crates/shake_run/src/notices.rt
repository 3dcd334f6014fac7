//! What is said about the program itself.
ghost use Rattle.std.specs.Prelude.{◌≡◌, ◌≤◌, IfErr};
ghost use Rattle.shake_run.specs.declared.fault.Fault.TheVariants.{Output};

use crate::fault::Fault;
use crate::work::tell;
use shake_options::Notice;
use std::io::Write;

/// Writes a notice. Gives the exit status: 0; 1 where a write fails, with one line on `errors`.
pub fn inform<W: Write, E: Write>(notice: Notice, writer: &mut W, errors: &mut E) -> u8
    ensures status { result ≤ 1 }
    ensures silent { result ≡ 0 → errors.new ≡ errors.old }
{
    match written(notice, writer) {
        Ok(()) => 0,
        Err(fault) => tell(fault, errors),
    }
}

fn written<W: Write>(notice: Notice, writer: &mut W) -> Result<(), Fault>
    ensures { IfErr result (λ fault. fault ≡ Output) }
{
    writer
        .write_all(notice.text().as_bytes())
        .map_err(|_| Fault::Output)?;
    writer.flush().map_err(|_| Fault::Output)
}
