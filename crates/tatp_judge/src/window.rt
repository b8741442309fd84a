//! The calls on one subscriber, from the last line on after which none of them was open.
ghost use Rattle.std.specs.Prelude.{◌≡◌, ◌<◌, ◌+◌, ◌-◌, ◌^◌, [], ◌∷◌, ◌++◌, IfOk, OnOk, false};
ghost use Rattle.tatp_history.specs.declared.event.Event.TheVariants.{Asks};
ghost use Rattle.tatp_history.specs.Events.{TimesRise, time_of};
ghost use Rattle.tatp_linearization.specs.Reached.{AreOfSubscriber, AreReached};
ghost use Rattle.tatp_judge.specs.NextLine.{ends_of, number_of_last, with_outcome};
ghost use Rattle.tatp_history.specs.HistoryLines.{end_at};

use crate::legal::OnlyReply;
use crate::outcome::{end_at, is_answer, is_ask};
use std::alloc::{AllocError, Global};
use tatp_history::{Event, Line, Observed};
use tatp_homes::Home;
use tatp_linearization::Explanations;

/// A subscriber's window: what happened to its calls since none of them was open.
#[derive(Drop)]
pub(crate) struct Window {
    /// What explains the calls before.
    pub(crate) explanations: Explanations,
    /// The number of the last line before it, or of a later one that says nothing of its calls.
    pub(crate) from: u64,
    pub(crate) events: Vec<Event>,
    /// The numbers of the lines that asked its calls, and of those that ended one.
    pub(crate) numbers: Vec<u64>,
    /// How many of its calls are open.
    pub(crate) waiting: u64,
    /// Where no order explains its last call, and no events are kept: that call, and its reply.
    pub(crate) only: Vec<OnlyReply>,
    /// Whether the subscriber is set aside. Then nothing is kept but how many calls are open.
    pub(crate) aside: bool,
}

/// The event, where the call asked at the time `asked` ends by the line of this number.
fn ended(event: &Event, asked: u64, number: u64, line: &Line) -> Event
    ensures { result ∷ [] ≡ with_outcome asked (end_at number line.now) (event.now ∷ []) }
{
    match event {
        Event::Asks(x) => Event::Asks(Observed {
            asked: x.asked,
            call: x.call,
            outcome: if x.asked == asked {
                end_at(number, line)
            } else {
                x.outcome
            },
        }),
        Event::Ends { asked: other, at } => Event::Ends {
            asked: *other,
            at: *at,
        },
    }
}

/// When it happened.
fn time_of(event: &Event) -> u64
    ensures { result ≡ time_of event.now }
{
    match event {
        Event::Asks(x) => x.asked,
        Event::Ends { at, .. } => *at,
    }
}

/// Writes down how the call asked at the time `asked` ends by the line of this number. Events are
/// in the order of time: a binary search finds the one that asked it.
fn write_outcome(events: &mut Vec<Event>, asked: u64, number: u64, line: &Line)
    requires { TimesRise events.old.items }
    ensures { events.new.items ≡ with_outcome asked (end_at number line.now) events.old.items }
{
    let place = events.partition_point(|event| time_of(event) < asked);
    if place < events.len() {
        events[place] = ended(&events[place], asked, number, line);
    }
}

/// Appends an event.
fn push(events: &mut Vec<Event>, event: &Event) -> Result<(), AllocError>
    ensures { OnOk result (events.new.items ≡ events.old.items ++ event.now ∷ []) }
{
    events.extend_from_slice(&[*event])?;
    Ok(())
}

impl Window {
    /// The window of a subscriber with this home, before any line.
    pub(crate) fn new(
        alloc: Global,
        home: &Home,
        most: usize,
        exact: bool,
    ) -> Result<Window, AllocError>
        ensures reached { IfOk result (λ w. AreReached home.now.tables [] w.explanations) }
        ensures own { IfOk result (λ w. AreOfSubscriber home.now.s_id w.explanations) }
        ensures most { IfOk result (λ w. w.explanations.most ≡ most) }
        ensures exact { IfOk result (λ w. w.explanations.exact ≡ exact) }
        ensures from { IfOk result (λ w. w.from ≡ 0) }
        ensures events { IfOk result (λ w. w.events.items ≡ []) }
        ensures numbers { IfOk result (λ w. w.numbers.items ≡ []) }
        ensures waiting { IfOk result (λ w. w.waiting ≡ 0) }
        ensures aside { IfOk result (λ w. w.aside ≡ false) }
    {
        Ok(Window {
            explanations: Explanations::new(alloc, home, most, exact)?,
            from: 0,
            events: Vec::new(alloc),
            numbers: Vec::new(alloc),
            waiting: 0,
            only: Vec::new(alloc),
            aside: false,
        })
    }

    /// A call is asked. If the subscriber is set aside, it is only counted.
    pub(crate) fn ask(&mut self, x: &Observed) -> Result<(), AllocError>
        requires { self.old.waiting + 1 < 2 ^ 64 }
        ensures events { OnOk result (self.old.aside ≡ false
            → self.new.events.items ≡ self.old.events.items ++ Asks x.now ∷ []) }
        ensures numbers { OnOk result (self.old.aside ≡ false
            → self.new.numbers.items ≡ self.old.numbers.items ++ x.now.asked ∷ []) }
        ensures waiting { OnOk result (self.new.waiting ≡ self.old.waiting + 1) }
        ensures from { OnOk result (self.new.from ≡ self.old.from) }
        ensures explanations { OnOk result (self.new.explanations ≡ self.old.explanations) }
        ensures aside { OnOk result (self.new.aside ≡ self.old.aside) }
    {
        self.waiting += 1;
        if self.aside {
            return Ok(());
        }
        push(&mut self.events, &Event::Asks(*x))?;
        self.numbers.push(x.asked)?;
        Ok(())
    }

    /// The open call asked at the time `asked` ends by the line of this number. If the subscriber
    /// is set aside, it is only counted.
    pub(crate) fn end(&mut self, asked: u64, number: u64, line: &Line) -> Result<(), AllocError>
        requires some { 0 < self.old.waiting }
        requires rise { self.old.aside ≡ false → TimesRise self.old.events.items }
        ensures events { OnOk result (self.old.aside ≡ false → self.new.events.items
            ≡ with_outcome asked (end_at number line.now) self.old.events.items
            ++ ends_of asked number line.now) }
        ensures numbers { OnOk result (self.old.aside ≡ false → self.new.numbers.items
            ≡ self.old.numbers.items ++ number_of_last number line.now) }
        ensures waiting { OnOk result (self.new.waiting ≡ self.old.waiting - 1) }
        ensures from { OnOk result (self.new.from ≡ self.old.from) }
        ensures explanations { OnOk result (self.new.explanations ≡ self.old.explanations) }
        ensures aside { OnOk result (self.new.aside ≡ self.old.aside) }
    {
        self.waiting -= 1;
        if self.aside {
            return Ok(());
        }
        write_outcome(&mut self.events, asked, number, line);
        if is_answer(line) {
            let event = Event::Ends { asked, at: number };
            push(&mut self.events, &event)?;
        }
        if !is_ask(line) {
            self.numbers.push(number)?;
        }
        Ok(())
    }
}
