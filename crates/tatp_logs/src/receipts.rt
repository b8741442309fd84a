//! The receipts of a client, kept with as many outputs as each has.
ghost use Rattle.std.specs.Prelude.{◌≡◌, ◌+◌, ◌≤◌, [], ◌∷◌, ◌++◌, IfOk, length, slice_get};
ghost use Rattle.std.specs.Option.{option_map};
ghost use Rattle.tatp_logs.specs.KeptReceipts.{receipt_in, StandsWith};
ghost use Rattle.tatp_logs.specs.Receipts.{receipt_seen};

use crate::kept_reply::KeptReply;
use crate::memory::{OUTPUTS_A_CALL, touch};
use crate::receipt::{Receipt, ReceiptRef};
use std::alloc::{AllocError, Global};
use std::marker::Model;
use tatp_limits::MAX_OUTPUTS;

/// A receipt whose outputs are in the list of all outputs. In this order it takes 48 bytes.
#[derive(Clone, Copy, Debug)]
pub(crate) enum KeptReceipt {
    Done {
        extent: u32,
        client: u64,
        number: u64,
        reply: KeptReply,
        stamp: u64,
    },
    Refused {
        client: u64,
        number: u64,
    },
}

/// Receipts, in the order in which a client got them. One takes as much memory as its outputs need,
/// where a [`Receipt`] of its own has places for the most. Contracts see the receipts, and for how
/// many more memory is reserved.
#[derive(Debug, Drop)]
pub struct Receipts {
    kept: Vec<KeptReceipt>,
    outputs: Vec<u64>,
}

impl Model for Receipts {
    ghost use Rattle.tatp_logs.specs.Receipts.{ReceiptsState, receipts_state_code};
    ghost use Rattle.tatp_logs.specs.KeptReceipts.{receipts_of_kept, AllStand};

    ghost Value = { ReceiptsState };

    ghost coded = { receipts_state_code };

    ghost view = { λ a. receipts_of_kept a.kept a.outputs };

    ghost invariant = { λ a. AllStand a.outputs.items a.kept.items };
}

/// A receipt that was kept, where it is.
fn see<'o>(outputs: &'o [u64], kept: &KeptReceipt) -> ReceiptRef<'o>
    requires { StandsWith outputs.now kept.now }
    ensures { receipt_seen result ≡ receipt_in outputs.now kept.now }
{
    match kept {
        KeptReceipt::Done {
            client,
            number,
            reply,
            extent,
            stamp,
        } => ReceiptRef::Done {
            client: *client,
            number: *number,
            reply: reply.reply_ref(outputs),
            extent: *extent,
            stamp: *stamp,
        },
        KeptReceipt::Refused { client, number } => ReceiptRef::Refused {
            client: *client,
            number: *number,
        },
    }
}

impl Receipts {
    /// No receipts, and no memory for any.
    pub fn new(alloc: Global) -> Receipts
        ensures { result.receipts ≡ [] }
    {
        Receipts {
            kept: Vec::new(alloc),
            outputs: Vec::new(alloc),
        }
    }

    /// No receipts yet, and memory for `room` of them, whatever their outputs.
    pub fn with_room(alloc: Global, room: usize) -> Result<Receipts, AllocError>
        ensures receipts { IfOk result (λ receipts. receipts.receipts ≡ []) }
        ensures room { IfOk result (λ receipts. room ≤ receipts.room) }
    {
        let outputs = room.checked_mul(MAX_OUTPUTS).ok_or(AllocError)?;
        Ok(Receipts {
            kept: Vec::with_capacity(alloc, room)?,
            outputs: Vec::with_capacity(alloc, outputs)?,
        })
    }

    /// How many there are.
    pub fn len(&self) -> usize
        ensures { result ≡ length self.now.receipts }
    {
        self.kept.len()
    }

    /// For how many more memory is reserved.
    pub fn room(&self) -> usize
        ensures { result ≡ self.now.room }
    {
        let kept = self.kept.capacity() - self.kept.len();
        let outputs = self.outputs.capacity() - self.outputs.len();
        kept.min(outputs / MAX_OUTPUTS)
    }

    /// The receipt in a place, counted from 0, where there is one.
    pub fn get(&self, index: usize) -> Option<ReceiptRef<'_>>
        ensures { option_map receipt_seen result ≡ slice_get self.now.receipts index }
    {
        let kept = self.kept.get(index)?;
        Some(see(&self.outputs, kept))
    }

    /// Puts a receipt behind the others, where memory for it is reserved.
    pub fn push(&mut self, receipt: &Receipt)
        requires { 1 ≤ self.old.room }
        ensures receipts { self.new.receipts ≡ self.old.receipts ++ receipt.now ∷ [] }
        ensures room { self.old.room ≤ self.new.room + 1 }
    {
        match receipt {
            Receipt::Done {
                client,
                number,
                reply,
                extent,
                stamp,
            } => {
                let reply = KeptReply::keep(&mut self.outputs, reply);
                self.kept.push_reserved(KeptReceipt::Done {
                    client: *client,
                    number: *number,
                    reply,
                    extent: *extent,
                    stamp: *stamp,
                });
            }
            Receipt::Refused { client, number } => {
                self.kept.push_reserved(KeptReceipt::Refused {
                    client: *client,
                    number: *number,
                });
            }
        }
    }

    /// Writes to the memory that is reserved, to as much as receipts of the benchmark's mix take.
    pub fn touch(&mut self)
        ensures { self.new ≡ self.old }
    {
        let room = self.room();
        let refused = KeptReceipt::Refused {
            client: 0,
            number: 0,
        };
        touch(&mut self.kept, refused, room);
        touch(&mut self.outputs, 0, room.saturating_mul(OUTPUTS_A_CALL));
    }
}
