//! A program that prints the core text of a module, with stand-ins for what isn't core.
#![tactic(auto)]

use std::io::{self, BufWriter, Write};
use text_whole::enclose;

fn main(rt: HostRuntime) -> io::Result<()> {
    let alloc = rt.alloc();
    let text = io::read_to_string(alloc, rt.stdin())?;
    let mut out = BufWriter::new(alloc, rt.stdout())?;
    match enclose(alloc, text.as_str(), false) {
        Ok(whole) => out.write_all(whole.text().as_bytes())?,
        Err(error) => writeln!(out, "{error}")?,
    }
    out.flush()
}
