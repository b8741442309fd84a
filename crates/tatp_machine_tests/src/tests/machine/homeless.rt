//! Calls without a home.
use super::{Case, RUN, Run};
use tatp_instr::{End, Trap};

pub const CASES: &[Case] = &[
    Case {
        name: "nothing is found",
        forwarding: false,
        code: &[
            [0x03, 0, 0, 0, 0, 0, 0, 0], // ARG r0,#0
            [0x01, 1, 0, 0, 0, 0, 0, 1], // LDI r1,#1
            [0x02, 3, 1, 0, 0, 0, 0, 0], // MOV r3,r1
            [0x02, 4, 1, 0, 0, 0, 0, 0], // MOV r4,r1
            [0x02, 5, 1, 0, 0, 0, 0, 0], // MOV r5,r1
            [0x02, 6, 1, 0, 0, 0, 0, 0], // MOV r6,r1
            [0x02, 7, 1, 0, 0, 0, 0, 0], // MOV r7,r1
            [0x0A, 3, 0, 0, 0, 0, 0, 0], // FSUB r3,r0
            [0x0B, 4, 0, 0, 0, 0, 0, 0], // FNUM r4,r0
            [0x0C, 5, 0, 1, 0, 0, 0, 0], // FACC r5,r0,r1
            [0x0D, 6, 0, 1, 0, 0, 0, 0], // FFAC r6,r0,r1
            [0x0E, 7, 0, 0, 0, 0, 0, 0], // FCFW r7,r0
            [0x13, 0, 0, 0, 0, 0, 0, 0], // OUT r0
            [0x14, 0, 0, 0, 0, 0, 0, 0], // DONE
        ],
        runs: &[Run {
            arguments: &[2],
            running: 13,
            pc: 13,
            end: End::Done,
            registers: [2, 1, 0, 0, 0, 0, 0, 0, 0, 0, 0, 0, 0, 0, 0, 0],
            outputs: &[2],
            ..RUN
        }],
    },
    Case {
        name: "an insert has no parent",
        forwarding: false,
        code: &[
            [0x03, 0, 0, 0, 0, 0, 0, 0], // ARG r0,#0
            [0x03, 1, 0, 0, 0, 0, 0, 1], // ARG r1,#1
            [0x01, 2, 0, 0, 0, 0, 0, 8], // LDI r2,#8
            [0x01, 3, 0, 0, 0, 0, 0, 20], // LDI r3,#20
            [0x11, 5, 0, 0, 0, 0, 0, 0], // INS r5,r0
            [0x14, 0, 0, 0, 0, 0, 0, 0], // DONE
        ],
        runs: &[
            Run {
                arguments: &[2, 1],
                running: 5,
                writes: 1,
                pc: 5,
                end: End::Done,
                registers: [2, 1, 8, 20, 0, 3, 0, 0, 0, 0, 0, 0, 0, 0, 0, 0],
                ..RUN
            },
            Run {
                arguments: &[2, 5],
                running: 4,
                pc: 4,
                end: End::Trapped(Trap::Domain),
                registers: [2, 5, 8, 20, 0, 0, 0, 0, 0, 0, 0, 0, 0, 0, 0, 0],
                ..RUN
            },
        ],
    },
    Case {
        name: "no row is read",
        forwarding: false,
        code: &[
            [0x0F, 0, 0, 0, 0, 0, 0, 0], // GET r0,#0
            [0x14, 0, 0, 0, 0, 0, 0, 0], // DONE
        ],
        runs: &[Run {
            running: 0,
            pc: 0,
            end: End::Trapped(Trap::NoCurrent),
            ..RUN
        }],
    },
    Case {
        name: "no row is set",
        forwarding: false,
        code: &[
            [0x10, 0, 0, 0, 0, 0, 0, 33], // PUT #33,r0
            [0x14, 0, 0, 0, 0, 0, 0, 0], // DONE
        ],
        runs: &[Run {
            running: 0,
            pc: 0,
            end: End::Trapped(Trap::NoCurrent),
            ..RUN
        }],
    },
    Case {
        name: "no row is deleted",
        forwarding: false,
        code: &[
            [0x12, 0, 0, 0, 0, 0, 0, 0], // DEL
            [0x14, 0, 0, 0, 0, 0, 0, 0], // DONE
        ],
        runs: &[Run {
            running: 0,
            pc: 0,
            end: End::Trapped(Trap::NoCurrent),
            ..RUN
        }],
    },
    Case {
        name: "a failure",
        forwarding: false,
        code: &[
            [0x15, 0, 0, 0, 0, 0, 0, 2], // FAIL #2
        ],
        runs: &[Run {
            running: 0,
            pc: 0,
            end: End::Failed(2),
            ..RUN
        }],
    },
];
