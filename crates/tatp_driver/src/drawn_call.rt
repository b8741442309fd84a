//! A call from seven random words.
ghost use Rattle.std.specs.Prelude.{◌≡◌, ◌≤◌, Ok};
ghost use Rattle.tatp_calls.specs.Arguments.{arguments_accepted};
ghost use Rattle.tatp_calls.specs.Calls.{key_of_call};
ghost use Rattle.tatp_driver.specs.DrawnCall.{call_on, drawn_call, drawn_subscriber, NamesOneOf};

use tatp_calls::Call;
use tatp_limits::MAX_SUBSCRIBERS;
use tatp_tasks::Distribution;

/// The call that seven words make, by the benchmark's mix, on one of the subscribers 1 to
/// `subscribers`.
pub fn call_of(words: &[u64; 7], subscribers: u64, distribution: Distribution) -> Call
    requires some { 1 ≤ subscribers }
    requires few { subscribers ≤ MAX_SUBSCRIBERS }
    ensures drawn { result ≡ drawn_call distribution subscribers words.now }
    ensures accepted { arguments_accepted result ≡ Ok tt }
    ensures key { NamesOneOf subscribers (key_of_call result) }
{
    call_on(words, choose_subscriber(words, subscribers, distribution))
}

/// The s_id of the subscriber that is called, which its number is made of too.
fn choose_subscriber(words: &[u64; 7], subscribers: u64, distribution: Distribution) -> u64
    requires some { 1 ≤ subscribers }
    requires few { subscribers ≤ MAX_SUBSCRIBERS }
    ensures chosen { result ≡ drawn_subscriber distribution subscribers words.now }
    ensures low { 1 ≤ result }
    ensures high { result ≤ subscribers }
{
    match distribution {
        Distribution::Skewed => {
            1 + ((words[1] % 65536) | (1 + words[2] % subscribers)) % subscribers
        }
        Distribution::Uniform => 1 + words[1] % subscribers,
    }
}

/// The call on this subscriber, by its place, 0 to 99, among 100 calls of the mix.
#[tactic(auto, unfolding(crate::specs::DrawnCall::call_on))]
fn call_on(words: &[u64; 7], subscriber: u64) -> Call
    ensures { result ≡ call_on subscriber words.now }
{
    let row_type = 1 + words[3] % 4;
    let start_time = 8 * (words[4] % 3);
    let end_time = 1 + words[5] % 24;
    match words[0] % 100 {
        0..=34 => Call::GetSubscriberData { s_id: subscriber },
        35..=44 => Call::GetNewDestination {
            s_id: subscriber,
            sf_type: row_type,
            start_time,
            end_time,
        },
        45..=79 => Call::GetAccessData {
            s_id: subscriber,
            ai_type: row_type,
        },
        80..=81 => Call::UpdateSubscriberData {
            s_id: subscriber,
            bit_1: words[4] % 2,
            sf_type: row_type,
            data_a: words[5] % 256,
        },
        82..=95 => Call::UpdateLocation {
            sub_nbr: subscriber,
            vlr_location: 1 + words[4] % 4294967295,
        },
        96..=97 => Call::InsertCallForwarding {
            sub_nbr: subscriber,
            sf_type: row_type,
            start_time,
            end_time,
            numberx: words[6] % 1_000_000_000_000_000,
        },
        _ => Call::DeleteCallForwarding {
            sub_nbr: subscriber,
            sf_type: row_type,
            start_time,
        },
    }
}
