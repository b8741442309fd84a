//! The calls of one client, one after another.
ghost use Rattle.std.specs.Prelude.{◌≡◌, ◌≤◌, Ok};
ghost use Rattle.tatp_calls.specs.Arguments.{arguments_accepted};
ghost use Rattle.tatp_calls.specs.Calls.{key_of_call};
ghost use Rattle.tatp_driver.specs.DrawnCall.{drawn_call, NamesOneOf};
ghost use Rattle.tatp_driver.specs.DrawnWords.{next_words, words_of, client_generator};

use crate::call_of;
use rand_core::Rng;
use rand_pcg::Pcg64;
use std::marker::Model;
use tatp_calls::Call;
use tatp_limits::MAX_SUBSCRIBERS;
use tatp_tasks::Distribution;

/// Draws the calls of one client. It takes no memory.
#[derive(Drop)]
pub struct Driver {
    generator: Pcg64,
    subscribers: u64,
    distribution: Distribution,
}

impl Model for Driver {
    ghost use Rattle.std.specs.Prelude.{◌≤◌};
    ghost use Rattle.tatp_limits.specs.declared.limits.TheConstants.{MAX_SUBSCRIBERS};
    ghost use Rattle.tatp_driver.specs.DrawnWords.{DriverState};

    ghost Value = { DriverState };

    ghost view = { λ d. record {
      generator = d.generator;
      subscribers = d.subscribers;
      distribution = d.distribution;
    } };

    ghost invariant = { λ d. (1 ≤ d.subscribers) × (d.subscribers ≤ MAX_SUBSCRIBERS) };
}

impl Driver {
    /// The driver of a client, counted from 0, which draws from that client's stream of the seed.
    pub fn new(seed: u64, client: u64, subscribers: u64, distribution: Distribution) -> Driver
        requires some { 1 ≤ subscribers }
        requires few { subscribers ≤ MAX_SUBSCRIBERS }
        ensures { result ≡ record {
          generator = client_generator seed client;
          subscribers = subscribers;
          distribution = distribution;
        } }
    {
        Driver {
            generator: Pcg64::new(seed as u128, client as u128 + 1),
            subscribers,
            distribution,
        }
    }

    /// The call that its next seven words make.
    pub fn next_call(&mut self) -> Call
        ensures call { result ≡ drawn_call self.old.distribution self.old.subscribers
            (next_words 7 (words_of self.old.generator)).0 }
        ensures left { words_of self.new.generator
            ≡ (next_words 7 (words_of self.old.generator)).1 }
        ensures subscribers { self.new.subscribers ≡ self.old.subscribers }
        ensures distribution { self.new.distribution ≡ self.old.distribution }
        ensures accepted { arguments_accepted result ≡ Ok tt }
        ensures key { NamesOneOf self.old.subscribers (key_of_call result) }
    {
        let words = draw_words(&mut self.generator);
        call_of(&words, self.subscribers, self.distribution)
    }
}

/// Takes the next seven words.
fn draw_words<R: Rng>(generator: &mut R) -> [u64; 7]
    ensures { (result, R.stream generator.new) ≡ next_words 7 (R.stream generator.old) }
{
    let mut words = [0; 7];
    for i in 0..7 {
        words[i] = generator.next_u64();
    }
    words
}
