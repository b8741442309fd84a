//! FSUB to FCFW.
use super::{Case, RUN, Run};
use tatp_instr::{End, Trap};

pub const CASES: &[Case] = &[
    Case {
        name: "finds subscribers by s_id",
        forwarding: false,
        code: &[
            [0x03, 0, 0, 0, 0, 0, 0, 0], // ARG r0,#0
            [0x0A, 0, 0, 0, 0, 0, 0, 0], // FSUB r0,r0
            [0x14, 0, 0, 0, 0, 0, 0, 0], // DONE
        ],
        runs: &[
            Run {
                arguments: &[2],
                running: 2,
                pc: 2,
                end: End::Done,
                registers: [1, 0, 0, 0, 0, 0, 0, 0, 0, 0, 0, 0, 0, 0, 0, 0],
                current: [Some([2, 0, 0]), None, None, None],
                ..RUN
            },
            Run {
                arguments: &[0],
                running: 2,
                pc: 2,
                end: End::Done,
                ..RUN
            },
            Run {
                arguments: &[1],
                running: 2,
                pc: 2,
                end: End::Done,
                ..RUN
            },
            Run {
                arguments: &[3],
                running: 2,
                pc: 2,
                end: End::Done,
                ..RUN
            },
        ],
    },
    Case {
        name: "finds subscribers by number",
        forwarding: false,
        code: &[
            [0x03, 1, 0, 0, 0, 0, 0, 0], // ARG r1,#0
            [0x0B, 0, 1, 0, 0, 0, 0, 0], // FNUM r0,r1
            [0x14, 0, 0, 0, 0, 0, 0, 0], // DONE
        ],
        runs: &[
            Run {
                arguments: &[2],
                running: 2,
                pc: 2,
                end: End::Done,
                registers: [1, 2, 0, 0, 0, 0, 0, 0, 0, 0, 0, 0, 0, 0, 0, 0],
                current: [Some([2, 0, 0]), None, None, None],
                ..RUN
            },
            Run {
                arguments: &[0],
                running: 2,
                pc: 2,
                end: End::Done,
                ..RUN
            },
            Run {
                arguments: &[1],
                running: 2,
                pc: 2,
                end: End::Done,
                registers: [0, 1, 0, 0, 0, 0, 0, 0, 0, 0, 0, 0, 0, 0, 0, 0],
                ..RUN
            },
            Run {
                arguments: &[3],
                running: 2,
                pc: 2,
                end: End::Done,
                registers: [0, 3, 0, 0, 0, 0, 0, 0, 0, 0, 0, 0, 0, 0, 0, 0],
                ..RUN
            },
        ],
    },
    Case {
        name: "finds accesses",
        forwarding: false,
        code: &[
            [0x03, 0, 0, 0, 0, 0, 0, 0], // ARG r0,#0
            [0x03, 1, 0, 0, 0, 0, 0, 1], // ARG r1,#1
            [0x0C, 1, 0, 1, 0, 0, 0, 0], // FACC r1,r0,r1
            [0x14, 0, 0, 0, 0, 0, 0, 0], // DONE
        ],
        runs: &[
            Run {
                arguments: &[2, 1],
                running: 3,
                pc: 3,
                end: End::Done,
                registers: [2, 1, 0, 0, 0, 0, 0, 0, 0, 0, 0, 0, 0, 0, 0, 0],
                current: [None, Some([2, 1, 0]), None, None],
                ..RUN
            },
            Run {
                arguments: &[2, 2],
                running: 3,
                pc: 3,
                end: End::Done,
                registers: [2, 0, 0, 0, 0, 0, 0, 0, 0, 0, 0, 0, 0, 0, 0, 0],
                ..RUN
            },
            Run {
                arguments: &[1, 1],
                running: 3,
                pc: 3,
                end: End::Done,
                registers: [1, 0, 0, 0, 0, 0, 0, 0, 0, 0, 0, 0, 0, 0, 0, 0],
                ..RUN
            },
            Run {
                arguments: &[2, 0],
                running: 3,
                pc: 3,
                end: End::Done,
                registers: [2, 0, 0, 0, 0, 0, 0, 0, 0, 0, 0, 0, 0, 0, 0, 0],
                ..RUN
            },
        ],
    },
    Case {
        name: "finds facilities",
        forwarding: false,
        code: &[
            [0x03, 0, 0, 0, 0, 0, 0, 0], // ARG r0,#0
            [0x03, 1, 0, 0, 0, 0, 0, 1], // ARG r1,#1
            [0x0D, 2, 0, 1, 0, 0, 0, 0], // FFAC r2,r0,r1
            [0x14, 0, 0, 0, 0, 0, 0, 0], // DONE
        ],
        runs: &[
            Run {
                arguments: &[2, 1],
                running: 3,
                pc: 3,
                end: End::Done,
                registers: [2, 1, 1, 0, 0, 0, 0, 0, 0, 0, 0, 0, 0, 0, 0, 0],
                current: [None, None, Some([2, 1, 0]), None],
                ..RUN
            },
            Run {
                arguments: &[2, 3],
                running: 3,
                pc: 3,
                end: End::Done,
                registers: [2, 3, 0, 0, 0, 0, 0, 0, 0, 0, 0, 0, 0, 0, 0, 0],
                ..RUN
            },
            Run {
                arguments: &[1, 1],
                running: 3,
                pc: 3,
                end: End::Done,
                registers: [1, 1, 0, 0, 0, 0, 0, 0, 0, 0, 0, 0, 0, 0, 0, 0],
                ..RUN
            },
            Run {
                arguments: &[2, 5],
                running: 3,
                pc: 3,
                end: End::Done,
                registers: [2, 5, 0, 0, 0, 0, 0, 0, 0, 0, 0, 0, 0, 0, 0, 0],
                ..RUN
            },
        ],
    },
    Case {
        name: "finds forwardings",
        forwarding: true,
        code: &[
            [0x03, 13, 0, 0, 0, 0, 0, 0], // ARG r13,#0
            [0x03, 14, 0, 0, 0, 0, 0, 1], // ARG r14,#1
            [0x03, 15, 0, 0, 0, 0, 0, 2], // ARG r15,#2
            [0x0E, 14, 13, 0, 0, 0, 0, 0], // FCFW r14,r13
            [0x14, 0, 0, 0, 0, 0, 0, 0], // DONE
        ],
        runs: &[
            Run {
                arguments: &[2, 1, 8],
                running: 4,
                pc: 4,
                end: End::Done,
                registers: [0, 0, 0, 0, 0, 0, 0, 0, 0, 0, 0, 0, 0, 2, 1, 8],
                current: [None, None, None, Some([2, 1, 8])],
                ..RUN
            },
            Run {
                arguments: &[2, 1, 0],
                running: 4,
                pc: 4,
                end: End::Done,
                registers: [0, 0, 0, 0, 0, 0, 0, 0, 0, 0, 0, 0, 0, 2, 0, 0],
                ..RUN
            },
            Run {
                arguments: &[2, 3, 8],
                running: 4,
                pc: 4,
                end: End::Done,
                registers: [0, 0, 0, 0, 0, 0, 0, 0, 0, 0, 0, 0, 0, 2, 0, 8],
                ..RUN
            },
            Run {
                arguments: &[1, 1, 8],
                running: 4,
                pc: 4,
                end: End::Done,
                registers: [0, 0, 0, 0, 0, 0, 0, 0, 0, 0, 0, 0, 0, 1, 0, 8],
                ..RUN
            },
            Run {
                arguments: &[2, 1, 7],
                running: 4,
                pc: 4,
                end: End::Done,
                registers: [0, 0, 0, 0, 0, 0, 0, 0, 0, 0, 0, 0, 0, 2, 0, 7],
                ..RUN
            },
        ],
    },
    Case {
        name: "what isn't found isn't current",
        forwarding: false,
        code: &[
            [0x03, 0, 0, 0, 0, 0, 0, 0], // ARG r0,#0
            [0x0A, 1, 0, 0, 0, 0, 0, 0], // FSUB r1,r0
            [0x0C, 1, 0, 1, 0, 0, 0, 0], // FACC r1,r0,r1
            [0x0A, 1, 2, 0, 0, 0, 0, 0], // FSUB r1,r2
            [0x0F, 3, 0, 0, 0, 0, 0, 36], // GET r3,#36
            [0x0F, 3, 0, 0, 0, 0, 0, 33], // GET r3,#33
            [0x14, 0, 0, 0, 0, 0, 0, 0], // DONE
        ],
        runs: &[Run {
            arguments: &[2],
            running: 5,
            pc: 5,
            end: End::Trapped(Trap::NoCurrent),
            registers: [2, 0, 0, 0, 0, 0, 0, 0, 0, 0, 0, 0, 0, 0, 0, 0],
            current: [None, Some([2, 1, 0]), None, None],
            ..RUN
        }],
    },
];
