//! What no clause says and the built program doesn't show. Bytes and rules, kept and broken, are
//! cases of tests/commands.
use std::test::Fail;
use tatp_loader::{LoadError, LoadFault, LoadFaultKind, load, load_saved, save};

/// UPDATE_LOCATION alone, 80 bytes.
const UPDATE_LOCATION: [u8; 80] = [
    0x54, 0x50, 0x4D, 0x01, 0x01, 0x0F, 0x55, 0x50, 0x44, 0x41, 0x54, 0x45, 0x5F, 0x4C, 0x4F, 0x43,
    0x41, 0x54, 0x49, 0x4F, 0x4E, 0x02, 0x00, 0x07, 0x03, 0x00, 0x00, 0x00, 0x00, 0x00, 0x00, 0x00,
    0x0B, 0x01, 0x00, 0x00, 0x00, 0x00, 0x00, 0x00, 0x09, 0x01, 0x00, 0x00, 0x00, 0x00, 0x00, 0x06,
    0x03, 0x02, 0x00, 0x00, 0x00, 0x00, 0x00, 0x01, 0x10, 0x02, 0x00, 0x00, 0x00, 0x00, 0x00, 0x21,
    0x14, 0x00, 0x00, 0x00, 0x00, 0x00, 0x00, 0x00, 0x15, 0x00, 0x00, 0x00, 0x00, 0x00, 0x00, 0x01,
];

#[test]
fn a_module_read_and_written(rt: HostRuntime) -> Result<(), Fail> {
    let loaded = load(rt.alloc(), &UPDATE_LOCATION)?;
    let again = load_saved(rt.alloc(), &loaded)?;
    let saved = save(rt.alloc(), &again)?;
    assert_eq!(rt; saved.as_slice(), UPDATE_LOCATION.as_slice());
    Ok(())
}

#[test]
fn numbers_and_texts_of_faults(rt: HostRuntime) -> Result<(), Fail> {
    let numbers = [
        (LoadFaultKind::BadOp, 6),
        (LoadFaultKind::UnusedNotZero, 7),
        (LoadFaultKind::BadRegister, 8),
        (LoadFaultKind::Truncated, 13),
        (LoadFaultKind::BadMagic, 14),
        (LoadFaultKind::Extra, 15),
        (LoadFaultKind::NameTwice, 16),
        (LoadFaultKind::BadHeader, 17),
        (LoadFaultKind::BackwardJump, 18),
        (LoadFaultKind::BadTarget, 19),
        (LoadFaultKind::FixedColumn, 20),
        (LoadFaultKind::NoSuchArgument, 21),
        (LoadFaultKind::TooManyOut, 22),
        (LoadFaultKind::TooManyWrites, 23),
        (LoadFaultKind::NoEnd, 24),
        (LoadFaultKind::ForwardLoop, 53),
    ];
    for (kind, number) in numbers {
        assert_eq!(rt; kind as u8, number);
    }
    let fault = LoadFault {
        kind: LoadFaultKind::BadTarget,
        procedure: 3,
        instruction: 17,
    };
    for (error, expected) in [
        (LoadError::Fault(fault), "19 BadTarget 3 17"),
        (
            LoadError::Fault(LoadFault {
                kind: LoadFaultKind::ForwardLoop,
                procedure: 15,
                instruction: 255,
            }),
            "53 ForwardLoop 15 255",
        ),
        (LoadError::NoMemory, "46 NoMemory"),
    ] {
        assert_eq!(rt; format!(in rt.alloc(); "{error}")?.as_str(), expected);
    }
    Ok(())
}
