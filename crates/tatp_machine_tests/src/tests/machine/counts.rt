//! Calls with each kind of write, one after another on one machine.
use super::{Case, RUN, Run};
use tatp_instr::{End, Trap};

pub const CASES: &[Case] = &[Case {
    name: "each write is counted, whatever an insert answers, and a trap is none",
    forwarding: true,
    code: &[
        [0x03, 0, 0, 0, 0, 0, 0, 0], // ARG r0,#0
        [0x03, 10, 0, 0, 0, 0, 0, 1], // ARG r10,#1
        [0x01, 1, 0, 0, 0, 0, 0, 1], // LDI r1,#1
        [0x01, 2, 0, 0, 0, 0, 0, 8], // LDI r2,#8
        [0x01, 3, 0, 0, 0, 0, 0, 20], // LDI r3,#20
        [0x01, 4, 0, 0, 0, 0, 0, 7], // LDI r4,#7
        [0x0A, 5, 0, 0, 0, 0, 0, 0], // FSUB r5,r0
        [0x10, 4, 0, 0, 0, 0, 0, 33], // PUT #33,r4
        [0x11, 6, 0, 0, 0, 0, 0, 0], // INS r6,r0
        [0x01, 2, 0, 0, 0, 0, 0, 16], // LDI r2,#16
        [0x11, 7, 0, 0, 0, 0, 0, 0], // INS r7,r0
        [0x01, 1, 0, 0, 0, 0, 0, 4], // LDI r1,#4
        [0x11, 8, 0, 0, 0, 0, 0, 0], // INS r8,r0
        [0x01, 1, 0, 0, 0, 0, 0, 1], // LDI r1,#1
        [0x0E, 9, 0, 0, 0, 0, 0, 0], // FCFW r9,r0
        [0x12, 0, 0, 0, 0, 0, 0, 0], // DEL
        [0x09, 10, 0, 0, 0, 0, 0, 18], // JZ r10,#18
        [0x10, 4, 0, 0, 0, 0, 0, 50], // PUT #50,r4
        [0x14, 0, 0, 0, 0, 0, 0, 0], // DONE
    ],
    runs: &[
        Run {
            arguments: &[2, 0],
            running: 17,
            writes: 5,
            pc: 18,
            end: End::Done,
            registers: [2, 1, 16, 20, 7, 1, 2, 1, 3, 1, 0, 0, 0, 0, 0, 0],
            current: [Some([2, 0, 0]), None, None, None],
            values: &[
                (33, [2, 0, 0], Some(7)),
                (50, [2, 1, 8], Some(888)),
                (50, [2, 1, 16], None),
            ],
            ..RUN
        },
        Run {
            arguments: &[2, 1],
            running: 17,
            writes: 5,
            pc: 17,
            end: End::Trapped(Trap::NoCurrent),
            registers: [2, 1, 16, 20, 7, 1, 2, 1, 3, 1, 1, 0, 0, 0, 0, 0],
            current: [Some([2, 0, 0]), None, None, None],
            values: &[
                (33, [2, 0, 0], Some(1)),
                (50, [2, 1, 8], Some(888)),
                (50, [2, 1, 16], None),
            ],
            ..RUN
        },
        Run {
            arguments: &[3, 0],
            running: 7,
            writes: 0,
            pc: 7,
            end: End::Trapped(Trap::NoCurrent),
            registers: [3, 1, 8, 20, 7, 0, 0, 0, 0, 0, 0, 0, 0, 0, 0, 0],
            values: &[(33, [2, 0, 0], Some(1))],
            ..RUN
        },
    ],
}];

pub const HOMELESS_CASES: &[Case] = &[Case {
    name: "each insert without a parent is counted, and a trap is none",
    forwarding: false,
    code: &[
        [0x03, 0, 0, 0, 0, 0, 0, 0], // ARG r0,#0
        [0x03, 1, 0, 0, 0, 0, 0, 1], // ARG r1,#1
        [0x03, 7, 0, 0, 0, 0, 0, 2], // ARG r7,#2
        [0x01, 2, 0, 0, 0, 0, 0, 8], // LDI r2,#8
        [0x01, 3, 0, 0, 0, 0, 0, 20], // LDI r3,#20
        [0x11, 5, 0, 0, 0, 0, 0, 0], // INS r5,r0
        [0x11, 6, 0, 0, 0, 0, 0, 0], // INS r6,r0
        [0x09, 7, 0, 0, 0, 0, 0, 9], // JZ r7,#9
        [0x12, 0, 0, 0, 0, 0, 0, 0], // DEL
        [0x14, 0, 0, 0, 0, 0, 0, 0], // DONE
    ],
    runs: &[
        Run {
            arguments: &[2, 1, 0],
            running: 8,
            writes: 2,
            pc: 9,
            end: End::Done,
            registers: [2, 1, 8, 20, 0, 3, 3, 0, 0, 0, 0, 0, 0, 0, 0, 0],
            ..RUN
        },
        Run {
            arguments: &[2, 1, 1],
            running: 8,
            writes: 2,
            pc: 8,
            end: End::Trapped(Trap::NoCurrent),
            registers: [2, 1, 8, 20, 0, 3, 3, 1, 0, 0, 0, 0, 0, 0, 0, 0],
            ..RUN
        },
        Run {
            arguments: &[2, 5, 0],
            running: 5,
            writes: 0,
            pc: 5,
            end: End::Trapped(Trap::Domain),
            registers: [2, 5, 8, 20, 0, 0, 0, 0, 0, 0, 0, 0, 0, 0, 0, 0],
            ..RUN
        },
    ],
}];
