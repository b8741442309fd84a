//! Receipts as a client keeps them.

use std::test::Fail;
use tatp_calls::{Outputs, Reply, ReplyRef};
use tatp_logs::{Receipt, ReceiptRef, Receipts};

/// What client 7 got for its call with this number.
fn done(number: u64, reply: Reply) -> Receipt {
    Receipt::Done {
        client: 7,
        number,
        reply,
        extent: 3,
        stamp: 11,
    }
}

/// Whether a reply is seen as it was kept.
fn is_reply(reply: &Reply, seen: ReplyRef<'_>) -> bool {
    match (reply, seen) {
        (Reply::Values(values), ReplyRef::Values(seen)) => values.as_slice() == seen,
        (Reply::Failed(failure), ReplyRef::Failed(seen)) => *failure == seen,
        (Reply::Refused, ReplyRef::Refused) => true,
        _ => false,
    }
}

/// Whether a receipt of client 7 is seen as it was kept.
fn is_same(kept: &Receipt, seen: Option<ReceiptRef<'_>>) -> bool {
    match (kept, seen) {
        (
            Receipt::Done { number, reply, .. },
            Some(
                ReceiptRef::Done {
                    client: 7,
                    number: seen_number,
                    reply: seen,
                    extent: 3,
                    stamp: 11,
                },
            ),
        ) => *number == seen_number && is_reply(reply, seen),
        (
            Receipt::Refused { number, .. },
            Some(
                ReceiptRef::Refused {
                    client: 7,
                    number: seen_number,
                },
            ),
        ) => *number == seen_number,
        _ => false,
    }
}

/// Each kind of receipt, among them one with the most outputs and one with none.
#[test]
fn receipts_come_back_as_they_were_kept(rt: HostRuntime) -> Result<(), Fail> {
    let all = [
        done(0, Reply::Values(Outputs::from_slice(&[u64::MAX; 40]))),
        done(1, Reply::Failed(9)),
        Receipt::Refused {
            client: 7,
            number: 2,
        },
        done(3, Reply::Values(Outputs::from_slice(&[]))),
        done(4, Reply::Refused),
        done(5, Reply::Values(Outputs::from_slice(&[1, 0]))),
    ];
    let mut receipts = Receipts::with_room(rt.alloc(), all.len())?;
    for receipt in &all {
        if receipts.room() == 0 {
            return Err("no room".into());
        }
        receipts.push(receipt);
        receipts.touch();
    }
    assert_eq!(rt; receipts.len(), all.len());
    for index in 0..all.len() {
        assert!(rt; is_same(&all[index], receipts.get(index)));
    }
    assert!(rt; receipts.get(all.len()).is_none());
    Ok(())
}
