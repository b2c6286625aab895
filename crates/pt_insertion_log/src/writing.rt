ghost use Rattle.std.specs.Prelude.{◌≡◌, OnOk, IfErr};
ghost use Rattle.std.specs.Io.KnownBytes.{Appends};
ghost use Rattle.pt_base_values.specs.Fault.{fault};
ghost use Rattle.pt_base_values.specs.declared.fault.Cause.TheVariants as cause;
ghost use Rattle.pt_audit.specs.Text.{line_text, IsInForm};

use pt_audit::{Line, line_text};
use pt_base_values::{Cause, Fault};
use std::io::Write;

/// Writes a line; the fault is that of a failed write.
pub(crate) fn write_line<W: Write>(line: Line, out: &mut W) -> Result<(), Fault>
    ensures line { OnOk result (Appends (W.contents out.old) (W.contents out.new) (line_text line)) }
    ensures in_form { IsInForm line }
    ensures fault { IfErr result (λ error. error ≡ fault cause.WriteFailed) }
{
    write_bytes(line_text(line).as_slice(), out)
}

/// Writes bytes; the fault is that of a failed write.
pub(crate) fn write_bytes<W: Write>(bytes: &[u8], out: &mut W) -> Result<(), Fault>
    ensures bytes { OnOk result (Appends (W.contents out.old) (W.contents out.new) bytes.now) }
    ensures fault { IfErr result (λ error. error ≡ fault cause.WriteFailed) }
{
    if out.write_all(bytes).is_err() {
        return Err(Fault::of(Cause::WriteFailed));
    }
    Ok(())
}
