//! Reading a whole input.
ghost use Rattle.std.specs.Prelude.{◌≡◌, ℕ, ◌≤◌, ◌<◌, ◌++◌, ◌+◌, ◌⊎◌, List, length, vec_len, true, false, IfOk, IfErr, OnOk, OnErr, IfSome};
ghost use Rattle.std.specs.Io.KnownBytes.{Consumes, IsAtEnd};
ghost use Rattle.tatp_streams.specs.declared.fault.StreamFault.TheVariants.{ReadFault, NoMemory};

use crate::StreamFault;
use std::alloc::Global;
use std::io::Read;
use tatp_limits::{MAX_INPUT_BYTES, MAX_INPUT_LIMIT};

/// The most bytes that one read asks for.
pub(crate) const PIECE: usize = 65_536;

/// Appends to `bytes` what one read gives. Of the input `before` bytes were read already, and no
/// more than `limit` bytes may be read in all. `Ok(true)` means that at least one byte came, and
/// `Ok(false)` that the input has ended. `Err` means that the read failed, that the input is longer
/// than `limit`, or that memory was refused.
pub(crate) fn read_piece<R: Read>(
    reader: &mut R,
    before: usize,
    limit: usize,
    piece: &mut [u8],
    bytes: &mut Vec<u8>,
) -> Result<bool, StreamFault>
    requires room { 0 < length piece.old }
    requires within { before ≤ limit }
    requires possible { limit ≤ MAX_INPUT_LIMIT }
    ensures within { OnOk result (before + vec_len bytes.new ≤ limit + vec_len bytes.old) }
    ensures more { IfOk result (λ more. more ≡ true → vec_len bytes.old < vec_len bytes.new) }
    ensures end { IfOk result (λ more. more ≡ false → IsAtEnd (R.remaining reader.new)) }
    ensures taken { OnOk result ((read : List ℕ)
        × Consumes (R.remaining reader.old) (R.remaining reader.new) read
        × (bytes.new.items ≡ bytes.old.items ++ read)) }
    ensures kept { OnErr result (bytes.new.items ≡ bytes.old.items) }
    ensures faults { IfErr result (λ fault. (fault ≡ ReadFault) ⊎ (fault ≡ NoMemory)) }
{
    // One byte past the limit shows that there is too much.
    let most = piece.len().min(limit - before + 1);
    let space = &mut piece[..most];
    match reader.read(space) {
        Ok(0) => Ok(false),
        Ok(count) => {
            if count > limit - before {
                return Err(StreamFault::ReadFault);
            }
            bytes.extend_from_slice(&space[..count])?;
            Ok(true)
        }
        Err(_) => Err(StreamFault::ReadFault),
    }
}

/// All bytes that a reader gives, at most [`MAX_INPUT_BYTES`]. `Err` means that a read failed, also
/// by an interruption, that the input is longer, or that memory was refused.
#[tactic(auto, using(crate::proofs::StreamLaws::consumes_none, crate::proofs::StreamLaws::consumes_both, crate::proofs::StreamLaws::consumed_all, crate::proofs::StreamLaws::input_within))]
pub fn read_all<R: Read>(alloc: Global, reader: &mut R) -> Result<Vec<u8>, StreamFault>
    ensures all { IfOk result (λ all.
        IfSome (R.remaining reader.old) (λ input. all.items ≡ input)) }
    ensures within { IfOk result (λ all. vec_len all ≤ MAX_INPUT_BYTES) }
    ensures limit { OnOk result
        (IfSome (R.remaining reader.old) (λ input. length input ≤ MAX_INPUT_BYTES)) }
    ensures faults { IfErr result (λ fault. (fault ≡ ReadFault) ⊎ (fault ≡ NoMemory)) }
{
    let mut piece = [0u8; PIECE];
    let mut all = Vec::new(alloc);
    'pieces: loop {
        if !read_piece(reader, all.len(), MAX_INPUT_BYTES, &mut piece, &mut all)? {
            return Ok(all);
        }
    }
}
