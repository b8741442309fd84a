//! What executors, clients, the mover and the debugger do, whatever surrounds them. Each works over
//! a trait, by which it takes and hands on, and its contract says what it does there, in order. And
//! what an executor does at a site under one hold of its lock: a call is offered, steps of it are
//! made, which an observer sees, and a full log is handed out.
#![tactic(auto)]

mod asking;
mod checkpoints;
mod client;
mod debugger;
mod delivery;
mod effects;
mod executor;
mod gate;
mod message;
mod mover;
mod observer;
mod offers;
mod requester;
mod slices;

pub use asking::{ask_all, call_of};
pub use checkpoints::{Checkpointed, checkpoint_full};
pub use client::{Client, ClientState};
pub use debugger::{Debugging, debug_all};
pub use delivery::Delivery;
pub use effects::{Answering, Effect, Executing};
pub use executor::take_calls;
pub use gate::{Gate, NoGate};
pub use message::Message;
pub use mover::{Carrying, MoveEffect, move_all, plan};
pub use observer::{Gated, Observer, StepAhead};
pub use offers::{Offered, offer};
pub use requester::{AskEffect, Looked, Requester};
pub use slices::{is_wanted, slice};
