//! One client's part of a history.
ghost use Rattle.std.specs.Prelude.{◌≡◌, ◌++◌, false, OnOk};
ghost use Rattle.std.specs.String.{string_bytes};
ghost use Rattle.tatp_logs.specs.Receipts.{receipt_seen};
ghost use Rattle.tatp_run_history.specs.ClientLines.{asked_text, asked_line, answered_line};
ghost use Rattle.tatp_run_history.specs.Parts.{is_done, rest_of, PushesFirst};

use std::alloc::AllocError;
use tatp_calls::{Ask, push_reply};
use tatp_lines::push_decimal;
use tatp_load::push_call_line;
use tatp_logs::{ReceiptRef, Receipts};

/// What is left of a client's part: its calls and their receipts from one call on.
#[derive(Clone, Copy)]
pub(crate) struct Part<'a> {
    pub(crate) client: u64,
    pub(crate) asks: &'a [Ask],
    pub(crate) receipts: &'a Receipts,
    /// The first call of which a line is left.
    pub(crate) call: usize,
    /// Whether the line that it is asked is written.
    pub(crate) is_asked: bool,
}

/// Appends the line of a call that a client asks.
fn push_asked(text: &mut String, client: u64, ask: &Ask) -> Result<(), AllocError>
    ensures { OnOk result
        (string_bytes text.new ≡ string_bytes text.old ++ asked_line client ask.now) }
{
    text.push_str("ask ")?;
    push_decimal(text, client)?;
    text.push(' ')?;
    match ask {
        Ask::Txn(call) => push_call_line(text, call),
        Ask::Raw(_) => text.push('\n'),
    }
}

/// Appends the line of the outcome of a client's call.
fn push_answered(
    text: &mut String,
    client: u64,
    ask: &Ask,
    receipt: ReceiptRef<'_>,
) -> Result<(), AllocError>
    ensures { OnOk result (string_bytes text.new
        ≡ string_bytes text.old ++ answered_line client ask.now (receipt_seen receipt.entry)) }
{
    match receipt {
        ReceiptRef::Done { reply, .. } => {
            text.push_str("end ")?;
            push_decimal(text, client)?;
            text.push(' ')?;
            push_reply(text, ask, reply)?;
        }
        ReceiptRef::Refused { .. } => {
            text.push_str("abort ")?;
            push_decimal(text, client)?;
        }
    }
    text.push('\n')
}

impl<'a> Part<'a> {
    /// Whether no line is left.
    pub(crate) fn is_done(&self) -> bool
        ensures { result ≡ is_done self.now }
    {
        self.call >= self.asks.len() || self.call >= self.receipts.len()
    }

    /// Appends the first line that is left.
    pub(crate) fn push_first(&mut self, text: &mut String) -> Result<(), AllocError>
        requires { is_done self.old ≡ false }
        ensures { OnOk result
            (PushesFirst self.old (string_bytes text.old) self.new (string_bytes text.new)) }
    {
        let ask = &self.asks[self.call];
        if !self.is_asked {
            push_asked(text, self.client, ask)?;
            self.is_asked = true;
            return Ok(());
        }
        match self.receipts.get(self.call) {
            None => unreachable!(),
            Some(receipt) => push_answered(text, self.client, ask, receipt)?,
        }
        self.call += 1;
        self.is_asked = false;
        Ok(())
    }
}
