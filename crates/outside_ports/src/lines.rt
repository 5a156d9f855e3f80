//! A text that is put line by line.
ghost use Rattle.std.specs.Prelude.{◌≡◌, ◌==◌, ◌<◌, ◌≤◌, [], length, position, IfSome, IsOk};
ghost use Rattle.outside_ports.specs.Puts.{AppendsPiece, CountsPut};
ghost use Rattle.outside_ports.specs.Lines.{first_line_len};

use crate::fault::Failed;
use crate::sink::Sink;

/// Puts a text line by line: one put for each line, its line feed included. The last line may lack its
/// line feed. The empty text puts nothing.
///
/// `Failed` comes where a put fails, and nothing is put after that.
///
/// The contract says what was written in all, where the sink tells it. That the puts are those of the
/// lines, and that none follows a failed one, is shown by tests alone.
pub fn put_lines<O: Sink>(text: &[u8], out: &mut O) -> Result<(), Failed>
    ensures written { AppendsPiece result (O.written out.old) text.now (O.written out.new) }
    ensures faults { CountsPut result (O.faults out.old) (O.faults out.new) }
    ensures never_falls { O.faults out.old ≤ O.faults out.new }
    ensures empty { text.now ≡ [] → IsOk result }
{
    let mut rest = text;
    while !rest.is_empty() {
        let (line, others) = rest.split_at(first_line_len(rest));
        out.put(line)?;
        rest = others;
    }
    Ok(())
}

/// The length of the first line, its line feed included.
fn first_line_len(text: &[u8]) -> usize
    requires { 0 < length text.now }
    ensures length { result ≡ first_line_len text.now }
    ensures some { 0 < result }
    ensures within { result ≤ length text.now }
{
    match line_feed(text) {
        Some(place) => place + 1,
        None => text.len(),
    }
}

/// The place of the first line feed.
fn line_feed(text: &[u8]) -> Option<usize>
    ensures place { result ≡ position (λ byte. byte == 10) text.now }
    ensures within { IfSome result (λ place. place < length text.now) }
{
    text.iter().position(|byte| *byte == b'\n')
}
