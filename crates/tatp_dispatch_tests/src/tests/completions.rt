//! Completed calls, as a list keeps them.
ghost use Rattle.std.specs.Prelude.{◌≤◌, length};

use std::alloc::AllocError;
use std::test::Fail;
use tatp_calls::{Ask, Call, Entry, Outputs, Raw, Reply};
use tatp_dispatch::Completions;
use tatp_instr::Trap;
use tatp_numbers::Key;

/// A completed call. All its numbers differ.
fn entry(number: u64, ask: Ask, reply: Reply) -> Entry {
    Entry {
        client: 100,
        number,
        ask,
        reply,
        stamp: u64::MAX - number,
    }
}

/// A transaction.
fn transaction() -> Ask {
    Ask::Txn(Call::GetAccessData {
        s_id: 1,
        ai_type: 2,
    })
}

/// A call that is no transaction.
fn raw(arguments: &[u64]) -> Ask
    requires { length arguments.now ≤ 8 }
{
    Ask::Raw(Raw::new(9, arguments, Key::Number(5)))
}

/// Calls with no argument and with eight, and each kind of reply, with no output and with forty.
fn entries() -> [Entry; 6] {
    let eight = [21, 22, 23, 24, 25, 26, 27, 28];
    let some = Reply::Values(Outputs::from_slice(&[31, 32]));
    let most = Reply::Values(Outputs::from_slice(&[33; 40]));
    let none = Reply::Values(Outputs::from_slice(&[]));
    [
        entry(0, transaction(), some),
        entry(1, raw(&eight), most),
        entry(2, transaction(), none),
        entry(3, raw(&eight), Reply::Failed(34)),
        entry(4, transaction(), Reply::Trapped(Trap::Domain)),
        entry(5, raw(&[]), Reply::Refused),
    ]
}

/// A call is put behind the others.
fn add(completions: &mut Completions, entry: &Entry) -> Result<(), AllocError> {
    completions.reserve(1)?;
    completions.push(entry);
    Ok(())
}

#[test]
fn completed_calls_come_back_as_they_were(rt: HostRuntime) -> Result<(), Fail> {
    let entries = entries();
    let mut completions = Completions::new(rt.alloc());
    for entry in &entries {
        add(&mut completions, entry)?;
    }
    for (index, entry) in entries.iter().enumerate() {
        assert_eq!(rt; completions.get(index), Some(*entry));
    }
    assert_eq!(rt; completions.len(), 6);
    assert_eq!(rt; completions.get(6), None);
    Ok(())
}
