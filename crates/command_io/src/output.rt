//! What is put to the output.
ghost use Rattle.command_io.specs.Parts.{Puts};

use crate::refusal::Refusal;
use outside_ports::{Sink, put_lines};

/// Puts a text line by line. Nothing is put after a put that failed.
pub fn put_text<O: Sink>(text: &[u8], out: &mut O) -> Result<(), Refusal>
    ensures { Puts text.now (O.written out.old) (O.written out.new) (O.faults out.old) (O.faults out.new) result }
{
    put_lines(text, out).map_err(|_| Refusal::WriteFault)
}

/// Puts a text at once, which is one line.
pub fn put_line<O: Sink>(line: &[u8], out: &mut O) -> Result<(), Refusal>
    ensures { Puts line.now (O.written out.old) (O.written out.new) (O.faults out.old) (O.faults out.new) result }
{
    out.put(line).map_err(|_| Refusal::WriteFault)
}
