//! Open calls, which say how a line is read.
ghost use Rattle.std.specs.Prelude.{◌≡◌, ℕ, None, IfSome, OnOk, OnErr};
ghost use Rattle.tatp_history_lines.specs.Lines.{line_of, end_of, ended_of, said_by};
ghost use Rattle.tatp_history_lines.specs.Open.{open_call, opened_by};

use crate::LineFault;
use crate::parsing::{is_passed_over, read_ask};
use crate::recordings::read_recorded;
use crate::words::{read_short_number, split_word};
use indexmap::IndexMap;
use std::alloc::{AllocError, Global};
use tatp_calls::{Call, args_ok};
use tatp_history::Line;

/// The call that each client has open, if it has one.
#[derive(Drop)]
pub struct OpenCalls {
    calls: IndexMap<u64, Call>,
}

impl OpenCalls {
    /// No client has an open call.
    pub fn new(alloc: Global) -> OpenCalls
        ensures { (client : ℕ) → open_call result client ≡ None }
    {
        OpenCalls {
            calls: IndexMap::new(alloc),
        }
    }

    /// The line that a text is, if it isn't passed over.
    pub fn read(&self, text: &str) -> Result<Option<Line>, LineFault>
        ensures { result ≡ said_by (open_call self.now) text.now }
    {
        if is_passed_over(text) {
            return Ok(None);
        }
        let Some(line) = self.read_line(text) else {
            return Err(LineFault::BadLine);
        };
        if let Line::Ask { call, .. } = &line {
            if let Err(bad) = args_ok(call) {
                return Err(LineFault::BadArgument(bad));
            }
        }
        Ok(Some(line))
    }

    #[tactic(auto, unfolding(crate::specs::Lines::line_of))]
    fn read_line(&self, text: &str) -> Option<Line>
        ensures { result ≡ line_of (open_call self.now) text.now }
    {
        let (word, rest) = split_word(text)?;
        match word {
            "ask" => read_ask(rest),
            "end" => self.read_end(rest),
            "abort" => {
                let client = self.read_client(rest)?;
                Some(Line::Abort { client })
            }
            "lost" => {
                let client = self.read_client(rest)?;
                Some(Line::Lost { client })
            }
            _ => None,
        }
    }

    /// A client that has a call open, and what it recorded of the reply.
    fn read_end(&self, text: &str) -> Option<Line>
        ensures { result ≡ end_of (open_call self.now) text.now }
    {
        let (client, reply) = split_word(text)?;
        let client = u64::from(read_short_number(client)?);
        let call = self.calls.get(&client)?;
        let recorded = read_recorded(call, reply)?;
        Some(Line::End { client, recorded })
    }

    /// A client that has a call open.
    fn read_client(&self, text: &str) -> Option<u64>
        ensures { result ≡ ended_of (open_call self.now) text.now }
    {
        let client = u64::from(read_short_number(text)?);
        match self.calls.get(&client) {
            Some(_) => Some(client),
            None => None,
        }
    }

    /// Follows a line: a call is asked, or ends.
    pub fn follow(&mut self, line: &Line) -> Result<(), AllocError>
        ensures ok { OnOk result ((client : ℕ)
            → open_call self.new client ≡ opened_by (open_call self.old) line.now client) }
        ensures err { OnErr result ((client : ℕ)
            → open_call self.new client ≡ open_call self.old client) }
    {
        match line {
            Line::Ask { client, call } => {
                self.calls.insert(*client, *call)?;
            }
            Line::End { client, .. } => {
                self.calls.swap_remove(client);
            }
            Line::Abort { client } => {
                self.calls.swap_remove(client);
            }
            Line::Lost { client } => {
                self.calls.swap_remove(client);
            }
        }
        Ok(())
    }
}
