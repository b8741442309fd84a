//! Writing an output in pieces.
ghost use Rattle.std.specs.Prelude.{◌≡◌, IfErr, OnOk, OnErr};
ghost use Rattle.std.specs.Io.KnownBytes.{Appends};
ghost use Rattle.std.specs.String.{string_bytes};
ghost use Rattle.tatp_streams.specs.declared.fault.StreamFault.TheVariants.{WriteFault};
ghost use Rattle.tatp_streams.specs.Writing.{AppendsFront, KeepsOrAppends};

use crate::StreamFault;
use std::io::Write;

/// How many bytes of an output are gathered before they are written.
const FULL: usize = 65_536;

/// Writes all of the bytes. `Err` means that the writer failed or took nothing; then it has taken
/// only a front of them.
#[tactic(auto, using(crate::proofs::StreamLaws::appends_none, crate::proofs::StreamLaws::appends_keeps, crate::proofs::StreamLaws::appends_both))]
pub(crate) fn write_out<W: Write>(writer: &mut W, bytes: &[u8]) -> Result<(), StreamFault>
    ensures ok { OnOk result (Appends (W.contents writer.old) (W.contents writer.new) bytes.now) }
    ensures front { OnErr result
        (AppendsFront bytes.now (W.contents writer.old) (W.contents writer.new)) }
    ensures faults { IfErr result (λ fault. fault ≡ WriteFault) }
{
    let mut at = 0;
    'pieces: while at < bytes.len() {
        match writer.write(&bytes[at..]) {
            Ok(0) => return Err(StreamFault::WriteFault),
            Ok(count) => at += count,
            Err(_) => return Err(StreamFault::WriteFault),
        }
    }
    Ok(())
}

/// Writes the last bytes of an output, and flushes. `Err` means that either failed; then the writer
/// has taken only a front of the bytes, or all of them.
#[tactic(auto, using(crate::proofs::StreamLaws::appends_then_keeps))]
pub fn write_last<W: Write>(writer: &mut W, bytes: &[u8]) -> Result<(), StreamFault>
    ensures ok { OnOk result (Appends (W.contents writer.old) (W.contents writer.new) bytes.now) }
    ensures front { OnErr result
        (AppendsFront bytes.now (W.contents writer.old) (W.contents writer.new)) }
    ensures faults { IfErr result (λ fault. fault ≡ WriteFault) }
{
    write_out(writer, bytes)?;
    match writer.flush() {
        Ok(()) => Ok(()),
        Err(_) => Err(StreamFault::WriteFault),
    }
}

/// Writes the pending text and empties it, if it has [`FULL`] bytes or more. `Err` is as that of
/// [`write_out`].
pub fn write_if_full<W: Write>(writer: &mut W, pending: &mut String) -> Result<(), StreamFault>
    ensures ok { OnOk result (KeepsOrAppends (string_bytes pending.old) (string_bytes pending.new)
        (W.contents writer.old) (W.contents writer.new)) }
    ensures front { OnErr result (AppendsFront (string_bytes pending.old)
        (W.contents writer.old) (W.contents writer.new)) }
    ensures faults { IfErr result (λ fault. fault ≡ WriteFault) }
{
    if pending.len() >= FULL {
        write_out(writer, pending.as_bytes())?;
        pending.clear();
    }
    Ok(())
}
