//! Reading the whole input.
ghost use Rattle.std.specs.Prelude.{◌≡◌, ◌⊎◌, IfOk, IfErr, IfSome, string_bytes};
ghost use Rattle.shake_run.specs.declared.fault.Fault.TheVariants.{Input, OutOfMemory};

use crate::fault::Fault;
use std::alloc::Global;
use std::io::{ErrorKind, Read};

const CHUNK: usize = 64 * 1024;

/// All that is left to read, as text. `Input` where a read fails or the bytes aren't UTF-8, `OutOfMemory` where memory
/// is refused.
pub fn read_text<R: Read>(alloc: Global, reader: &mut R) -> Result<String, Fault>
    ensures text { IfOk result (λ text. IfSome (R.remaining reader.old) (λ bytes. string_bytes text ≡ bytes)) }
    ensures faults { IfErr result (λ fault. (fault ≡ Input) ⊎ (fault ≡ OutOfMemory)) }
{
    let mut chunk = vec![in alloc; 0u8; CHUNK].map_err(|_| Fault::OutOfMemory)?;
    let mut bytes = Vec::new(alloc);
    for _ in 0..u64::MAX {
        match reader.read(&mut chunk[..]) {
            Ok(0) => return String::from_utf8(bytes).map_err(|_| Fault::Input),
            Ok(count) => bytes
                .extend_from_slice(&chunk[..count])
                .map_err(|_| Fault::OutOfMemory)?,
            Err(error) if error.kind() == ErrorKind::Interrupted => {}
            Err(_) => return Err(Fault::Input),
        }
    }
    Err(Fault::Input)
}
