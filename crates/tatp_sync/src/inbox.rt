//! Inboxes: bounded channels, each of whose messages meets a rule.
ghost use Rattle.std.specs.Prelude.{◌≡◌, ◌<◌, ◌++◌, List, [], ◌∷◌, All, IfOk, IfSome, map, vec_len};
ghost use Rattle.tatp_sync.specs.Inboxes.{IsRuled, IsNew, Puts, Takes, end_beside};

use crate::LOOKS;
use crossbeam_channel::protocol::{Lesson, Outcome, Protocol, Split};
use crossbeam_channel::{Pass, RuledReceiver, RuledSender, bounded_with};
use std::alloc::{AllocError, Global};
use std::collections::LinkedList;
use std::marker::{Model, PhantomData};
use std::sync::Wait;
use std::thread;

/// What each message of an inbox meets. Whoever takes one knows it, whatever other threads do.
pub trait MessageRule<M> {
    ghost allows: { M → Type 0 };
}

/// The messages that an end has put, or taken, as its pass knows them. No value of it is made.
type History<M> = LinkedList<M>;

/// The rule of the channel: each message in it is allowed.
struct Allowed<L> {
    of: PhantomData<L>,
}

impl<M, L: MessageRule<M>> Protocol<M, History<M>> for Allowed<L> {
    ghost holds = { IsRuled L.allows };

    ghost first = { [] };
}

/// A put: one more message in the history of the end.
struct Put;

impl<M> Outcome<M, History<M>> for Put {
    ghost then = { λ history message after. after ≡ history ++ message ∷ [] };
}

impl<M> Lesson<M, History<M>> for Put {
    ghost fact = { λ history messages. Unit {0} };
}

/// A take: one more message in the history of the end, and it is allowed.
struct Take<L> {
    of: PhantomData<L>,
}

impl<M, L: MessageRule<M>> Outcome<M, History<M>> for Take<L> {
    ghost then = { λ history message after.
        (after ≡ history ++ message ∷ []) × L.allows message };
}

impl<M, L: MessageRule<M>> Lesson<M, History<M>> for Take<L> {
    ghost fact = { λ history messages. Unit {0} };
}

/// One more end, whose history is empty.
struct Beside;

impl<M> Split<History<M>> for Beside {
    ghost left = { λ history. history };

    ghost right = { λ history. [] };
}

type Sender<M, L> = RuledSender<M, History<M>, Allowed<L>>;

type Receiver<M, L> = RuledReceiver<M, History<M>, Allowed<L>>;

/// An end that puts, with a pass of its own.
#[derive(Drop)]
pub struct Port<M: Drop, L: MessageRule<M>> {
    sender: Sender<M, L>,
    pass: Pass<M, History<M>>,
}

impl<M: Drop, L: MessageRule<M>> Model for Port<M, L> {
    ghost use Rattle.crossbeam_channel.specs.Claims.{IsSeatAt};
    ghost use Rattle.crossbeam_channel.specs.Ends.{sends_on, ruled_capacity};
    ghost use Rattle.tatp_sync.specs.Inboxes.{End, end_by};

    ghost Value = { End M };

    ghost view = { λ p. end_by p.pass (ruled_capacity (sends_on p.sender)) };

    ghost invariant = { λ p. IsSeatAt (sends_on p.sender) p.pass };
}

impl<M: Drop, L: MessageRule<M>> Port<M, L> {
    /// Puts a message at the back. It comes back where the inbox is full, and where no end that
    /// takes is left: no contract of a channel distinguishes the two.
    pub fn put<R: Wait>(&mut self, rt: &R, message: M) -> Result<(), M>
        requires { L.allows message }
        ensures { Puts self.old message result self.new }
    {
        self.sender
            .try_send_as::<Put, R>(rt, &mut self.pass, message)
            .map_err(|error| error.into_inner())
    }

    /// Makes another end of the same inbox.
    fn again(&mut self) -> Result<Port<M, L>, AllocError>
        ensures beside { IfOk result (λ port. port ≡ end_beside self.old) }
        ensures same { self.new ≡ self.old }
    {
        let sender = self.sender.try_clone()?;
        let pass = self.sender.another::<Beside>(&mut self.pass);
        Ok(Port { sender, pass })
    }
}

/// The end that takes, with a pass of its own.
#[derive(Drop)]
pub struct Reader<M: Drop, L: MessageRule<M>> {
    receiver: Receiver<M, L>,
    pass: Pass<M, History<M>>,
}

impl<M: Drop, L: MessageRule<M>> Model for Reader<M, L> {
    ghost use Rattle.crossbeam_channel.specs.Claims.{IsSeatAt};
    ghost use Rattle.crossbeam_channel.specs.Ends.{receives_on, ruled_capacity};
    ghost use Rattle.tatp_sync.specs.Inboxes.{End, end_by};

    ghost Value = { End M };

    ghost view = { λ r. end_by r.pass (ruled_capacity (receives_on r.receiver)) };

    ghost invariant = { λ r. IsSeatAt (receives_on r.receiver) r.pass };
}

impl<M: Drop, L: MessageRule<M>> Reader<M, L> {
    /// Takes the message at the front: looks for it many times, and then sleeps until one comes.
    /// `None` where no end that puts is left. No contract of a channel says when none is left.
    pub fn take<R: Wait>(&mut self, rt: &R) -> Option<M>
        ensures allowed { IfSome result L.allows }
        ensures taken { Takes self.old result self.new }
    {
        for _ in 0..LOOKS {
            if let Some(message) = self.try_take(rt) {
                return Some(message);
            }
            thread::yield_now();
        }
        self.wait(rt)
    }

    fn try_take<R: Wait>(&mut self, rt: &R) -> Option<M>
        ensures allowed { IfSome result L.allows }
        ensures taken { Takes self.old result self.new }
    {
        self.receiver
            .try_recv_as::<Take<L>, R>(rt, &mut self.pass)
            .ok()
    }

    fn wait<R: Wait>(&mut self, rt: &R) -> Option<M>
        ensures allowed { IfSome result L.allows }
        ensures taken { Takes self.old result self.new }
    {
        self.receiver.recv_as::<Take<L>, R>(rt, &mut self.pass).ok()
    }
}

/// Opens an inbox for at most `room` messages, and gives its first two ends.
fn open_inbox<M: Drop, L: MessageRule<M>>(
    alloc: Global,
    room: usize,
) -> Result<(Port<M, L>, Reader<M, L>), AllocError>
    requires { 0 < room }
    ensures one { IfOk result (λ ends. ends.1 ≡ ends.0) }
    ensures new { IfOk result (λ ends. IsNew room ends.0) }
{
    let (sender, receiver, mut pass) = bounded_with::<M, History<M>, Allowed<L>, Global>(
        alloc, room,
    )?;
    let second = sender.another::<Beside>(&mut pass);
    Ok((
        Port { sender, pass },
        Reader {
            receiver,
            pass: second,
        },
    ))
}

/// Opens inboxes for at most `room` messages each: the ends that put, and those that take.
/// The two at one place are of one inbox: new ends, whose histories are empty, are then equal.
pub fn open_inboxes<M: Drop, L: MessageRule<M>>(
    alloc: Global,
    count: usize,
    room: usize,
) -> Result<(Vec<Port<M, L>>, Vec<Reader<M, L>>), AllocError>
    requires { 0 < room }
    ensures count { IfOk result (λ ends. vec_len ends.0 ≡ count) }
    ensures pairs { IfOk result (λ ends. ends.1.items ≡ ends.0.items) }
    ensures new { IfOk result (λ ends. All (IsNew room) ends.0.items) }
{
    let mut ports = Vec::with_capacity(alloc, count)?;
    let mut readers = Vec::with_capacity(alloc, count)?;
    for _ in 0..count {
        let (port, reader) = open_inbox::<M, L>(alloc, room)?;
        ports.push(port)?;
        readers.push(reader)?;
    }
    Ok((ports, readers))
}

/// Makes an end at each inbox for one more thread.
pub fn ends_of<M: Drop, L: MessageRule<M>>(
    alloc: Global,
    ports: &mut [Port<M, L>],
) -> Result<Vec<Port<M, L>>, AllocError>
    ensures beside { IfOk result (λ ends. ends.items ≡ map end_beside ports.old) }
    ensures same { ports.new ≡ ports.old }
{
    let mut ends = Vec::with_capacity(alloc, ports.len())?;
    for port in ports.iter_mut() {
        ends.push(port.again()?)?;
    }
    Ok(ends)
}
