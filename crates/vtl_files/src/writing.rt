//! Writes texts: whole, or up to where the writer fails.
ghost use Rattle.std.specs.Prelude.{◌≡◌, OnOk, OnErr, IfErr};
ghost use Rattle.std.specs.Io.KnownBytes.{Appends};
ghost use Rattle.vtl_script.specs.Text.{AppendsPart};

use std::io::Write;
use vtl_faults::faults::VtlFault;
use vtl_script::write_text;

/// Writes `text` to `writer`, and flushes it. Returns `Device` where the write or the flush fails; perhaps only a first
/// part of the text is then written.
pub fn print_text<W: Write>(writer: &mut W, text: &[u8]) -> Result<(), VtlFault>
    ensures ok { OnOk result (Appends (W.contents writer.old) (W.contents writer.new) text.now) }
    ensures err { OnErr result
        (AppendsPart (W.contents writer.old) (W.contents writer.new) text.now) }
    ensures fault { IfErr result (λ fault. fault ≡ VtlFault.Device) }
{
    write_text(writer, text)?;
    if writer.flush().is_err() {
        return Err(VtlFault::Device);
    }
    Ok(())
}
