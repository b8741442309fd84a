//! The parts of all clients, merged by the numbers of what they did.
ghost use Rattle.std.specs.Prelude.{◌≡◌, ◌⊎◌, OnOk, OnErr, IfOk, IfErr, IfSome, IfNone};
ghost use Rattle.std.specs.String.{string_bytes};
ghost use Rattle.tatp_logs.specs.Receipts.{receipts_of};
ghost use Rattle.tatp_streams.specs.declared.fault.StreamFault.TheVariants.{NoMemory, WriteFault};
ghost use Rattle.tatp_streams.specs.Writing.{WritesText, WritesFrontOfText};
ghost use Rattle.tatp_logs.specs.Lists.{lists_of};
ghost use Rattle.tatp_run_history.specs.ClientLines.{all_lines};
ghost use Rattle.tatp_run_history.specs.Interleaving.{HasFirst, AllAreEmpty};
ghost use Rattle.tatp_run_history.specs.Telling.{TellsClients};
ghost use Rattle.tatp_run_history.specs.Parts.{rests_of};

use crate::Numbers;
use crate::part::Part;
use std::alloc::{AllocError, Global};
use std::io::Write;
use tatp_calls::Ask;
use tatp_logs::Receipts;
use tatp_streams::{StreamFault, write_if_full, write_last};

/// The parts of all clients, before any line is written.
fn parts_of<'a>(
    alloc: Global,
    lists: &'a [Vec<Ask>],
    receipts: &'a [Receipts],
) -> Result<Vec<Part<'a>>, AllocError>
    ensures { IfOk result (λ parts. rests_of parts.items
        ≡ all_lines 0 (lists_of lists.now) (receipts_of receipts.now)) }
{
    let mut parts = Vec::with_capacity(alloc, lists.len())?;
    for (client, list) in lists.iter().enumerate() {
        match receipts.get(client) {
            None => return Ok(parts),
            Some(receipts) => parts.push(Part {
                client: client as u64,
                asks: list.as_slice(),
                receipts,
                call: 0,
                is_asked: false,
            })?,
        }
    }
    Ok(parts)
}

/// The part whose first line has the least number, where a line is left.
fn earliest(parts: &[Part<'_>], numbers: &Numbers) -> Option<usize>
    ensures some { IfSome result (HasFirst (rests_of parts.now)) }
    ensures none { IfNone result (AllAreEmpty (rests_of parts.now)) }
{
    let mut found = None;
    let mut least = u64::MAX;
    for (place, part) in parts.iter().enumerate() {
        if !part.is_done() {
            let number = numbers.number(part.client, part.call, part.is_asked);
            if found.is_none() || number < least {
                found = Some(place);
                least = number;
            }
        }
    }
    found
}

/// Writes a text, and after it what clients asked and were answered: each client's lines in their
/// order, and those of all clients in the order of their numbers. A line is made when those before
/// it are in the text that is gathered to be written, so no more of them is held than one piece.
pub fn write_history<W: Write>(
    alloc: Global,
    writer: &mut W,
    head: String,
    lists: &[Vec<Ask>],
    receipts: &[Receipts],
    numbers: &Numbers,
) -> Result<(), StreamFault>
    ensures written { OnOk result (WritesText
        (TellsClients (string_bytes head) lists.now receipts.now) (W.contents writer.old)
        (W.contents writer.new)) }
    ensures front { OnErr result (WritesFrontOfText
        (TellsClients (string_bytes head) lists.now receipts.now) (W.contents writer.old)
        (W.contents writer.new)) }
    ensures faults { IfErr result (λ fault. (fault ≡ NoMemory) ⊎ (fault ≡ WriteFault)) }
{
    let mut pending = head;
    let mut parts = parts_of(alloc, lists, receipts)?;
    'lines: loop {
        match earliest(parts.as_slice(), numbers) {
            None => {
                write_last(writer, pending.as_bytes())?;
                return Ok(());
            }
            Some(place) => {
                let mut part = parts[place];
                part.push_first(&mut pending)?;
                parts[place] = part;
                write_if_full(writer, &mut pending)?;
            }
        }
    }
}
