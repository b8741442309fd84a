//! What executors and the debugger do, one thing after another.
ghost use Rattle.std.specs.Prelude.{◌≡◌, List, Option, None, Ok, [], ◌∷◌};
ghost use Rattle.std.specs.Result.{result_and};
ghost use Rattle.tatp_partition.specs.Running.{stepped_of};
ghost use Rattle.tatp_workers.specs.Growing.{Grows, Does};
ghost use Rattle.tatp_workers.specs.Effects.{Follows, receipt_of, concluding, effects_of_step};
ghost use Rattle.tatp_workers.specs.Slices.{logged_by};
ghost use Rattle.tatp_workers.specs.declared.delivery.Delivery.TheVariants.{Got};
ghost use Rattle.tatp_workers.specs.declared.effects.Effect.{Effect};
ghost use Rattle.tatp_workers.specs.declared.effects.Effect.TheVariants.{Sends, Answers, Tells, Receives, Offers, Slices, Checkpoints};

use crate::{Checkpointed, Delivery, Message, Offered};
use tatp_debug::Snapshot;
use tatp_logs::Receipt;
use tatp_partition::{Completion, CompletionBuffer, Item, SiteRefusal, Stepped};

/// What an executor or the debugger did.
#[derive(Clone, Copy)]
pub enum Effect {
    /// A call was sent on, and whether it was put into an inbox.
    Sends(Item, bool),
    /// A client was answered.
    Answers(u64, Delivery),
    /// The gate was notified that a client's call has ended in a partition.
    Tells(u8, u64),
    /// A message was taken out of the inbox, or none will come.
    Receives(Option<Message>),
    /// A call was offered to the site.
    Offers(Item, Offered),
    /// Steps of the running call were made; what the last of them answered, and how many entries
    /// the log of the call's extent has if that step ended the call.
    Slices(Result<Stepped, SiteRefusal>, u64),
    /// The log of this extent was to be handed out if it has this many entries or more, and what
    /// became of it.
    Checkpoints(u32, u64, Checkpointed),
    /// The site of a partition was to be stopped, and whether it was.
    Stops(u8, bool),
    /// A stopped site was looked at, and what was seen of its running call.
    Looks(u8, Result<Snapshot, SiteRefusal>),
    /// A stopped site made one step.
    Steps(u8, Result<Stepped, SiteRefusal>),
    /// A stopped site was resumed.
    Resumes(u8),
}

/// Answers clients, and notifies the gate.
pub trait Answering {
    /// What was done, where that is known.
    ghost effects: { Self → Option (List Effect) } = { λ _. None };

    /// Hands a client the delivery for which it waits.
    fn answer(&mut self, client: u64, delivery: &Delivery)
        ensures { Grows (effects self.old) (effects self.new) (Answers client delivery.now ∷ []) };

    /// Hands its receipt to the client of a completed call.
    fn deliver_receipt(&mut self, completion: &Completion)
        ensures { Grows (effects self.old) (effects self.new)
            (Answers completion.now.entry.client (Got (receipt_of completion.now)) ∷ []) };

    /// Notifies the gate that a client's call has ended in a partition.
    fn tell(&mut self, partition: u8, client: u64)
        ensures { Grows (effects self.old) (effects self.new) (Tells partition client ∷ []) };
}

/// Takes calls out of an inbox, has a site run them and hand out full logs, and sends them on.
pub trait Executing: Answering {
    /// Takes the next message out of the inbox. `None` where no end that puts is left.
    fn receive(&mut self) -> Option<Message>
        ensures { Grows (Self.effects self.old) (Self.effects self.new) (Receives result ∷ []) };

    /// Offers a call to the site.
    fn offer(&mut self, item: &Item) -> Offered
        ensures { Grows (Self.effects self.old) (Self.effects self.new)
            (Offers item.now result ∷ []) };

    /// Makes steps of the running call at the site. Where the call ends, its completion is written
    /// to the buffer, and the answer is how many entries the log of its extent has then.
    fn slice(&mut self, buffer: &mut CompletionBuffer) -> Result<u64, SiteRefusal>
        requires { buffer.old ≡ None }
        ensures { Grows (Self.effects self.old) (Self.effects self.new)
            (Slices (result_and result (Ok (stepped_of buffer.new))) (logged_by result) ∷ []) };

    /// Hands out the log of an extent at the site if it has `chapter` entries or more, and keeps it
    /// as a chapter.
    fn checkpoint(&mut self, extent: u32, chapter: u64) -> Checkpointed
        ensures { Grows (Self.effects self.old) (Self.effects self.new)
            (Checkpoints extent chapter result ∷ []) };

    /// Puts a call into the inbox that its route names. Whether it was put there.
    fn send(&mut self, item: Item) -> bool
        ensures { Grows (Self.effects self.old) (Self.effects self.new) (Sends item result ∷ []) };
}

/// Gives a completed call's receipt to its client, and then notifies the gate.
#[tactic(auto, using(crate::proofs::GrowthLaws::grown_by_two))]
pub(crate) fn conclude<A: Answering>(answering: &mut A, partition: u8, completion: &Completion)
    ensures { Grows (A.effects answering.old) (A.effects answering.new)
        (concluding partition completion.now) }
{
    answering.deliver_receipt(completion);
    answering.tell(partition, completion.entry.client);
}

/// Concludes the call where a step has ended it.
pub(crate) fn follow_step<A: Answering>(
    answering: &mut A,
    partition: u8,
    stepped: &Result<Stepped, SiteRefusal>,
)
    ensures { Grows (A.effects answering.old) (A.effects answering.new)
        (effects_of_step partition stepped.now) }
{
    if let Ok(Stepped::Ended(completion)) = stepped {
        conclude(answering, partition, completion);
    }
}

/// Acts on the outcome of an offer: a call that is away is sent on, and the client of one that
/// can't begin gets its answer.
pub(crate) fn follow<E: Executing>(executing: &mut E, item: &Item, offered: Offered)
    ensures { Does (Follows item.now offered) (E.effects executing.old) (E.effects executing.new) }
{
    match offered {
        Offered::Began | Offered::Again => {}
        Offered::Away => {
            if !executing.send(*item) {
                executing.answer(item.client, &Delivery::Dropped);
            }
        }
        Offered::Denied => {
            let receipt = Receipt::Refused {
                client: item.client,
                number: item.number,
            };
            executing.answer(item.client, &Delivery::Got(receipt));
        }
        Offered::Dropped => executing.answer(item.client, &Delivery::Dropped),
    }
}
