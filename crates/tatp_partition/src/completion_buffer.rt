//! The buffer to which a site writes the completion of a call that ends.
ghost use Rattle.std.specs.Prelude.{◌≡◌, ◌≤◌, Some, None, is_some, true, length};
ghost use Rattle.std.specs.Option.{option_copied};
ghost use Rattle.tatp_partition.specs.declared.item.Completion.{Completion};
ghost use Rattle.tatp_partition.specs.Runners.{entry_by};

use crate::{Completion, Item};
use std::marker::Model;
use tatp_calls::{Ask, Call, Entry, Reply};
use tatp_instr::End;
use tatp_limits::MAX_OUTPUTS;

/// A buffer for the completion of a call that ends, which is written field by field. Contracts see
/// the completion, if one is there.
///
/// A function clears the memory of all its locals when it begins, and a large answer is cleared and
/// copied wherever it is handed on. A completion has some 480 bytes, and nearly no step makes one.
/// So it is written to a buffer that the caller keeps, and what ends a call is in functions that
/// are not inlined: a step that doesn't end the call pays for neither.
#[derive(Debug, Drop)]
pub struct CompletionBuffer {
    is_filled: bool,
    completion: Completion,
}

impl Model for CompletionBuffer {
    ghost use Rattle.std.specs.Prelude.{if◌then◌else◌, Option, Some, None};
    ghost use Rattle.tatp_partition.specs.declared.item.Completion.{Completion};

    ghost Value = { Option Completion };

    ghost view = { λ a. if a.is_filled then Some a.completion else None };
}

impl CompletionBuffer {
    /// An empty one.
    pub fn empty() -> CompletionBuffer
        ensures { result ≡ None }
    {
        CompletionBuffer {
            is_filled: false,
            completion: Completion {
                extent: 0,
                entry: Entry {
                    client: 0,
                    number: 0,
                    ask: Ask::Txn(Call::GetSubscriberData { s_id: 0 }),
                    reply: Reply::Refused,
                    stamp: 0,
                },
            },
        }
    }

    /// Whether a completion is there.
    pub fn is_some(&self) -> bool
        ensures { result ≡ is_some self.now }
    {
        self.is_filled
    }

    /// The completion, if one is there.
    pub fn get(&self) -> Option<&Completion>
        ensures { option_copied result ≡ self.now }
    {
        self.is_filled.then_some(&self.completion)
    }

    /// Empties it.
    pub fn clear(&mut self)
        ensures { self.new ≡ None }
    {
        self.is_filled = false;
    }

    /// The entry of the completion there.
    pub(crate) fn entry(&self) -> &Entry
        requires { is_some self.now ≡ true }
        ensures { (completion : Completion) → self.now ≡ Some completion
            → result.now ≡ completion.entry }
    {
        &self.completion.entry
    }

    /// Fills it with the completion of a call on a home of this extent that ended so, with these
    /// outputs and this stamp.
    pub(crate) fn fill(&mut self, extent: u32, item: &Item, stamp: u64, end: End, outputs: &[u64])
        requires { length outputs.now ≤ MAX_OUTPUTS }
        ensures { self.new ≡ Some (record {
          extent = extent;
          entry = entry_by item.now end outputs.now stamp;
        }) }
    {
        self.completion.extent = extent;
        let entry = &mut self.completion.entry;
        entry.client = item.client;
        entry.number = item.number;
        entry.ask = item.ask;
        entry.reply.set(end, outputs);
        entry.stamp = stamp;
        self.is_filled = true;
    }
}
