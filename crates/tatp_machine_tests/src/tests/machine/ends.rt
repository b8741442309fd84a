//! Failures and traps in calls that changed rows.
use super::{Case, RUN, Run};
use tatp_instr::{End, Trap};

pub const CASES: &[Case] = &[
    Case {
        name: "the location of a number",
        forwarding: false,
        code: &[
            [0x03, 0, 0, 0, 0, 0, 0, 0], // ARG r0,#0
            [0x0B, 1, 0, 0, 0, 0, 0, 0], // FNUM r1,r0
            [0x09, 1, 0, 0, 0, 0, 0, 6], // JZ r1,#6
            [0x03, 2, 0, 0, 0, 0, 0, 1], // ARG r2,#1
            [0x10, 2, 0, 0, 0, 0, 0, 33], // PUT #33,r2
            [0x14, 0, 0, 0, 0, 0, 0, 0], // DONE
            [0x15, 0, 0, 0, 0, 0, 0, 1], // FAIL #1
        ],
        runs: &[
            Run {
                arguments: &[2, 7],
                running: 5,
                writes: 1,
                pc: 5,
                end: End::Done,
                registers: [2, 1, 7, 0, 0, 0, 0, 0, 0, 0, 0, 0, 0, 0, 0, 0],
                current: [Some([2, 0, 0]), None, None, None],
                values: &[(33, [2, 0, 0], Some(7))],
                ..RUN
            },
            Run {
                arguments: &[2, 0],
                running: 4,
                pc: 4,
                end: End::Trapped(Trap::Domain),
                registers: [2, 1, 0, 0, 0, 0, 0, 0, 0, 0, 0, 0, 0, 0, 0, 0],
                current: [Some([2, 0, 0]), None, None, None],
                values: &[(33, [2, 0, 0], Some(1))],
                ..RUN
            },
            Run {
                arguments: &[3, 7],
                running: 3,
                pc: 6,
                end: End::Failed(1),
                registers: [3, 0, 0, 0, 0, 0, 0, 0, 0, 0, 0, 0, 0, 0, 0, 0],
                values: &[(33, [2, 0, 0], Some(1))],
                ..RUN
            },
        ],
    },
    Case {
        name: "a failure undoes two puts",
        forwarding: false,
        code: &[
            [0x03, 0, 0, 0, 0, 0, 0, 0], // ARG r0,#0
            [0x0A, 1, 0, 0, 0, 0, 0, 0], // FSUB r1,r0
            [0x10, 1, 0, 0, 0, 0, 0, 2], // PUT #2,r1
            [0x10, 0, 0, 0, 0, 0, 0, 33], // PUT #33,r0
            [0x13, 0, 0, 0, 0, 0, 0, 0], // OUT r0
            [0x15, 0, 0, 0, 255, 255, 255, 255], // FAIL #4294967295
        ],
        runs: &[Run {
            arguments: &[2],
            running: 5,
            writes: 2,
            pc: 5,
            end: End::Failed(4294967295),
            registers: [2, 1, 0, 0, 0, 0, 0, 0, 0, 0, 0, 0, 0, 0, 0, 0],
            current: [Some([2, 0, 0]), None, None, None],
            outputs: &[2],
            values: &[(2, [2, 0, 0], Some(0)), (33, [2, 0, 0], Some(1))],
            ..RUN
        }],
    },
    Case {
        name: "a failure undoes inserts and deletes",
        forwarding: true,
        code: &[
            [0x03, 0, 0, 0, 0, 0, 0, 0], // ARG r0,#0
            [0x01, 1, 0, 0, 0, 0, 0, 1], // LDI r1,#1
            [0x01, 2, 0, 0, 0, 0, 0, 8], // LDI r2,#8
            [0x01, 3, 0, 0, 0, 0, 0, 9], // LDI r3,#9
            [0x0E, 5, 0, 0, 0, 0, 0, 0], // FCFW r5,r0
            [0x10, 3, 0, 0, 0, 0, 0, 49], // PUT #49,r3
            [0x12, 0, 0, 0, 0, 0, 0, 0], // DEL
            [0x11, 5, 0, 0, 0, 0, 0, 0], // INS r5,r0
            [0x0E, 5, 0, 0, 0, 0, 0, 0], // FCFW r5,r0
            [0x12, 0, 0, 0, 0, 0, 0, 0], // DEL
            [0x15, 0, 0, 0, 0, 0, 0, 3], // FAIL #3
        ],
        runs: &[Run {
            arguments: &[2],
            running: 10,
            writes: 4,
            pc: 10,
            end: End::Failed(3),
            registers: [2, 1, 8, 9, 0, 1, 0, 0, 0, 0, 0, 0, 0, 0, 0, 0],
            values: &[(49, [2, 1, 8], Some(20)), (50, [2, 1, 8], Some(888))],
            ..RUN
        }],
    },
];
