//! What no clause says and the built program doesn't show: modules that the loader's rules refuse,
//! which no command writes. Other texts, and each fault, are cases of tests/commands.
use std::test::Fail;
use tatp_asm::{AsmError, AsmFault, AsmFaultKind, assemble, assemble_disassembled, disassemble};

/// Each mnemonic of version 1, with a jump backwards and one to the end.
const EACH_MNEMONIC: &str = "proc ALL 8\nL0:\nLDI r0,#4294967295\nMOV r1,r2\nARG r3,#7\n\
    ADD r4,r5,r6\nSUB r7,r8,r9\nEQ r10,r11,r12\nLT r13,r14,r15\nJMP @L21\nJZ r1,@L0\nFSUB r1,r0\n\
    FNUM r2,r0\nFACC r3,r0,r1\nFFAC r4,r0,r1\nFCFW r5,r13\nGET r6,#50\nPUT #44,r4\nINS r7,r11\n\
    DEL\nOUT r8\nDONE\nFAIL #0\nL21:\nend\n";

#[test]
fn texts_and_what_is_printed_of_their_modules(rt: HostRuntime) -> Result<(), Fail> {
    let alloc = rt.alloc();
    for (text, expected) in [
        // A label is the number of instructions before it.
        ("proc A 0\nJMP @x\nx:\nend", "proc A 0\nJMP @L1\nL1:\nend\n"),
        (
            "proc A 0\nx:\nJMP @x\nDONE\nend",
            "proc A 0\nL0:\nJMP @L0\nDONE\nend\n",
        ),
        // It belongs to its procedure.
        (
            "proc A 0\nx:\nDONE\nend\nproc B 1\nDONE\nx:\nJMP @x\nend\n",
            "proc A 0\nDONE\nend\nproc B 1\nDONE\nL1:\nJMP @L1\nend\n",
        ),
        // Two labels of one position, and empty lines.
        (
            "proc A_B 8\n\nJMP @last\n\nlast:\nother:\nend\n\n",
            "proc A_B 8\nJMP @L1\nL1:\nend\n",
        ),
        (EACH_MNEMONIC, EACH_MNEMONIC),
        // LOOP to any label, in version 2.
        (
            "\nversion 2\n\nproc A 0\nLOOP r1,@x\ny:\nLOOP r15,@y\nx:\nend",
            "version 2\nproc A 0\nLOOP r1,@L2\nL1:\nLOOP r15,@L1\nL2:\nend\n",
        ),
    ] {
        let module = assemble(alloc, text)?;
        let again = assemble_disassembled(alloc, &module)?;
        assert_eq!(rt; disassemble(alloc, &again)?.as_str(), expected);
    }
    Ok(())
}

#[test]
fn numbers_and_texts_of_faults(rt: HostRuntime) -> Result<(), Fail> {
    for (kind, number) in [
        (AsmFaultKind::Syntax, 9),
        (AsmFaultKind::NoSuchLabel, 10),
        (AsmFaultKind::LabelTwice, 11),
        (AsmFaultKind::TooLong, 12),
    ] {
        assert_eq!(rt; kind as u8, number);
    }
    let missing = AsmFault {
        kind: AsmFaultKind::NoSuchLabel,
        line: 2,
    };
    for (error, expected) in [
        (AsmError::Fault(missing), "10 NoSuchLabel 2"),
        (AsmError::NoMemory, "46 NoMemory"),
    ] {
        assert_eq!(rt; format!(in rt.alloc(); "{error}")?.as_str(), expected);
    }
    Ok(())
}
