//! The outcome of a call that a client asked.
ghost use Rattle.std.specs.Prelude.{◌≡◌};
ghost use Rattle.tatp_workers.specs.Effects.{receipt_of};

use std::slice;
use tatp_logs::Receipt;
use tatp_partition::Completion;

/// What a client waits for.
#[derive(Clone, Copy, Debug)]
pub enum Delivery {
    /// Its receipt.
    Got(Receipt),
    /// Its call was dropped.
    Dropped,
}

impl Delivery {
    /// Writes the receipt of a completed call in place of this delivery, directly where it stays.
    pub fn write_receipt(&mut self, completion: &Completion)
        ensures { self.new ≡ Delivery.Got (receipt_of completion.now) }
    {
        match self {
            Delivery::Got(receipt) => fill(receipt, completion),
            Delivery::Dropped => self.become_receipt(completion),
        }
    }

    #[inline(never)]
    fn become_receipt(&mut self, completion: &Completion)
        ensures { self.new ≡ Delivery.Got (receipt_of completion.now) }
    {
        *self = Delivery::Got(receipt_of(completion));
    }
}

/// The receipt of a completed call.
fn receipt_of(completion: &Completion) -> Receipt
    ensures { result ≡ receipt_of completion.now }
{
    Receipt::Done {
        client: completion.entry.client,
        number: completion.entry.number,
        reply: completion.entry.reply,
        extent: completion.extent,
        stamp: completion.entry.stamp,
    }
}

/// Writes what `receipt_of` gives in place of another receipt.
fn fill(receipt: &mut Receipt, completion: &Completion)
    ensures { receipt.new ≡ receipt_of completion.now }
{
    match receipt {
        Receipt::Done {
            client,
            number,
            reply,
            extent,
            stamp,
        } => {
            *client = completion.entry.client;
            *number = completion.entry.number;
            // This copies the reply once, where an assignment would copy it twice.
            slice::from_mut(reply).copy_from_slice(slice::from_ref(&completion.entry.reply));
            *extent = completion.extent;
            *stamp = completion.entry.stamp;
        }
        Receipt::Refused { .. } => become_done(receipt, completion),
    }
}

#[inline(never)]
fn become_done(receipt: &mut Receipt, completion: &Completion)
    ensures { receipt.new ≡ receipt_of completion.now }
{
    *receipt = receipt_of(completion);
}
