//! Calls of the seven transactions.
ghost use Rattle.std.specs.Prelude.{◌≡◌, ◌≤◌, length};
ghost use Rattle.tatp_calls.specs.Calls.{procedure_of, key_of_call, arguments_of};

use arrayvec::ArrayVec;
use tatp_limits::MAX_ARGUMENTS;
use tatp_numbers::Key;

/// A call of one of the seven transactions, with its arguments. The variants are in the order of
/// the benchmark's mix, which is that of the standard procedures.
#[derive(Clone, Copy, Debug, PartialEq, Eq)]
pub enum Call {
    GetSubscriberData {
        s_id: u64,
    },
    GetNewDestination {
        s_id: u64,
        sf_type: u64,
        start_time: u64,
        end_time: u64,
    },
    GetAccessData {
        s_id: u64,
        ai_type: u64,
    },
    UpdateSubscriberData {
        s_id: u64,
        bit_1: u64,
        sf_type: u64,
        data_a: u64,
    },
    UpdateLocation {
        sub_nbr: u64,
        vlr_location: u64,
    },
    InsertCallForwarding {
        sub_nbr: u64,
        sf_type: u64,
        start_time: u64,
        end_time: u64,
        numberx: u64,
    },
    DeleteCallForwarding {
        sub_nbr: u64,
        sf_type: u64,
        start_time: u64,
    },
}

impl Call {
    /// The number of its standard procedure, 0 to 6.
    pub fn procedure(&self) -> usize
        ensures { result ≡ procedure_of self.now }
    {
        match self {
            Call::GetSubscriberData { .. } => 0,
            Call::GetNewDestination { .. } => 1,
            Call::GetAccessData { .. } => 2,
            Call::UpdateSubscriberData { .. } => 3,
            Call::UpdateLocation { .. } => 4,
            Call::InsertCallForwarding { .. } => 5,
            Call::DeleteCallForwarding { .. } => 6,
        }
    }

    /// The key of its subscriber, which is its first argument.
    pub fn key(&self) -> Key
        ensures { result ≡ key_of_call self.now }
    {
        match *self {
            Call::GetSubscriberData { s_id } => Key::Id(s_id),
            Call::GetNewDestination { s_id, .. } => Key::Id(s_id),
            Call::GetAccessData { s_id, .. } => Key::Id(s_id),
            Call::UpdateSubscriberData { s_id, .. } => Key::Id(s_id),
            Call::UpdateLocation { sub_nbr, .. } => Key::Number(sub_nbr),
            Call::InsertCallForwarding { sub_nbr, .. } => Key::Number(sub_nbr),
            Call::DeleteCallForwarding { sub_nbr, .. } => Key::Number(sub_nbr),
        }
    }

    /// How many arguments it has.
    #[tactic(auto, using(crate::proofs::ArgumentLaws::one_each))]
    pub(crate) fn arg_count(&self) -> usize
        ensures { result ≡ length (arguments_of self.now) }
    {
        self.columns().len()
    }

    /// Its arguments, in the order of its standard procedure.
    pub fn args(&self) -> ArrayVec<u64, MAX_ARGUMENTS>
        ensures { result.items ≡ arguments_of self.now }
    {
        match *self {
            Call::GetSubscriberData { s_id } => kept(&[s_id]),
            Call::GetNewDestination {
                s_id,
                sf_type,
                start_time,
                end_time,
            } => kept(&[s_id, sf_type, start_time, end_time]),
            Call::GetAccessData { s_id, ai_type } => kept(&[s_id, ai_type]),
            Call::UpdateSubscriberData {
                s_id,
                bit_1,
                sf_type,
                data_a,
            } => kept(&[s_id, bit_1, sf_type, data_a]),
            Call::UpdateLocation {
                sub_nbr,
                vlr_location,
            } => kept(&[sub_nbr, vlr_location]),
            Call::InsertCallForwarding {
                sub_nbr,
                sf_type,
                start_time,
                end_time,
                numberx,
            } => kept(&[sub_nbr, sf_type, start_time, end_time, numberx]),
            Call::DeleteCallForwarding {
                sub_nbr,
                sf_type,
                start_time,
            } => kept(&[sub_nbr, sf_type, start_time]),
        }
    }
}

fn kept(arguments: &[u64]) -> ArrayVec<u64, MAX_ARGUMENTS>
    requires { length arguments.now ≤ MAX_ARGUMENTS }
    ensures { result.items ≡ arguments.now }
{
    let mut all: ArrayVec<u64, MAX_ARGUMENTS> = ArrayVec::new();
    all.try_extend_from_slice(arguments).unwrap();
    all
}
