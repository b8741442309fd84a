//! LOOP, and calls up to the most steps and outputs that they may make: each alike on a home and
//! without one.
use super::{Case, RUN, Run};
use tatp_instr::{End, Trap};

/// 38 to 0.
const FROM_38: &[u64] = &[
    38, 37, 36, 35, 34, 33, 32, 31, 30, 29, 28, 27, 26, 25, 24, 23, 22, 21, 20, 19, 18, 17, 16, 15,
    14, 13, 12, 11, 10, 9, 8, 7, 6, 5, 4, 3, 2, 1, 0,
];

/// 38 to 0, and 0.
const FROM_38_AND_0: &[u64] = &[
    38, 37, 36, 35, 34, 33, 32, 31, 30, 29, 28, 27, 26, 25, 24, 23, 22, 21, 20, 19, 18, 17, 16, 15,
    14, 13, 12, 11, 10, 9, 8, 7, 6, 5, 4, 3, 2, 1, 0, 0,
];

/// 39 to 0.
const FROM_39: &[u64] = &[
    39, 38, 37, 36, 35, 34, 33, 32, 31, 30, 29, 28, 27, 26, 25, 24, 23, 22, 21, 20, 19, 18, 17, 16,
    15, 14, 13, 12, 11, 10, 9, 8, 7, 6, 5, 4, 3, 2, 1, 0,
];

/// 40 to 1.
const FROM_40: &[u64] = &[
    40, 39, 38, 37, 36, 35, 34, 33, 32, 31, 30, 29, 28, 27, 26, 25, 24, 23, 22, 21, 20, 19, 18, 17,
    16, 15, 14, 13, 12, 11, 10, 9, 8, 7, 6, 5, 4, 3, 2, 1,
];

pub const CASES: &[Case] = &[
    Case {
        name: "a loop counts down to 0, and a call makes at most 4,096 steps",
        forwarding: false,
        code: &[
            [0x03, 0, 0, 0, 0, 0, 0, 0], // ARG r0,#0
            [0x16, 0, 0, 0, 0, 0, 0, 1], // LOOP r0,#1
            [0x13, 0, 0, 0, 0, 0, 0, 0], // OUT r0
            [0x14, 0, 0, 0, 0, 0, 0, 0], // DONE
        ],
        runs: &[
            Run {
                arguments: &[0],
                running: 3,
                pc: 3,
                end: End::Done,
                outputs: &[0],
                ..RUN
            },
            Run {
                arguments: &[1],
                running: 4,
                pc: 3,
                end: End::Done,
                outputs: &[0],
                ..RUN
            },
            Run {
                arguments: &[5],
                running: 8,
                pc: 3,
                end: End::Done,
                outputs: &[0],
                ..RUN
            },
            Run {
                arguments: &[4091],
                running: 4094,
                pc: 3,
                end: End::Done,
                outputs: &[0],
                ..RUN
            },
            Run {
                arguments: &[4092],
                running: 4095,
                pc: 3,
                end: End::Done,
                outputs: &[0],
                ..RUN
            },
            Run {
                arguments: &[4093],
                running: 4095,
                pc: 2,
                end: End::Trapped(Trap::Budget),
                ..RUN
            },
            Run {
                arguments: &[4094],
                running: 4095,
                pc: 1,
                end: End::Trapped(Trap::Budget),
                ..RUN
            },
            Run {
                arguments: &[4095],
                running: 4095,
                pc: 1,
                end: End::Trapped(Trap::Budget),
                registers: [1, 0, 0, 0, 0, 0, 0, 0, 0, 0, 0, 0, 0, 0, 0, 0],
                ..RUN
            },
            Run {
                arguments: &[18446744073709551615],
                running: 4095,
                pc: 1,
                end: End::Trapped(Trap::Budget),
                registers: [
                    18446744073709547521,
                    0,
                    0,
                    0,
                    0,
                    0,
                    0,
                    0,
                    0,
                    0,
                    0,
                    0,
                    0,
                    0,
                    0,
                    0,
                ],
                ..RUN
            },
        ],
    },
    Case {
        name: "a call puts out at most 40 values",
        forwarding: false,
        code: &[
            [0x03, 0, 0, 0, 0, 0, 0, 0], // ARG r0,#0
            [0x13, 0, 0, 0, 0, 0, 0, 0], // OUT r0
            [0x16, 0, 0, 0, 0, 0, 0, 1], // LOOP r0,#1
            [0x14, 0, 0, 0, 0, 0, 0, 0], // DONE
        ],
        runs: &[
            Run {
                arguments: &[38],
                running: 79,
                pc: 3,
                end: End::Done,
                outputs: FROM_38,
                ..RUN
            },
            Run {
                arguments: &[39],
                running: 81,
                pc: 3,
                end: End::Done,
                outputs: FROM_39,
                ..RUN
            },
            Run {
                arguments: &[40],
                running: 81,
                pc: 1,
                end: End::Trapped(Trap::Output),
                outputs: FROM_40,
                ..RUN
            },
        ],
    },
    Case {
        name: "the limit of steps comes before that of outputs",
        forwarding: false,
        code: &[
            [0x03, 0, 0, 0, 0, 0, 0, 0], // ARG r0,#0
            [0x03, 1, 0, 0, 0, 0, 0, 1], // ARG r1,#1
            [0x13, 0, 0, 0, 0, 0, 0, 0], // OUT r0
            [0x16, 0, 0, 0, 0, 0, 0, 2], // LOOP r0,#2
            [0x16, 1, 0, 0, 0, 0, 0, 4], // LOOP r1,#4
            [0x13, 15, 0, 0, 0, 0, 0, 0], // OUT r15
            [0x14, 0, 0, 0, 0, 0, 0, 0], // DONE
        ],
        runs: &[
            Run {
                arguments: &[38, 4013],
                running: 4095,
                pc: 6,
                end: End::Done,
                outputs: FROM_38_AND_0,
                ..RUN
            },
            Run {
                arguments: &[39, 4011],
                running: 4094,
                pc: 5,
                end: End::Trapped(Trap::Output),
                outputs: FROM_39,
                ..RUN
            },
            Run {
                arguments: &[39, 4012],
                running: 4095,
                pc: 5,
                end: End::Trapped(Trap::Budget),
                outputs: FROM_39,
                ..RUN
            },
        ],
    },
    Case {
        name: "the limit of steps comes before a trap of the table",
        forwarding: false,
        code: &[
            [0x03, 0, 0, 0, 0, 0, 0, 0], // ARG r0,#0
            [0x16, 0, 0, 0, 0, 0, 0, 1], // LOOP r0,#1
            [0x0F, 1, 0, 0, 0, 0, 0, 0], // GET r1,#0
            [0x14, 0, 0, 0, 0, 0, 0, 0], // DONE
        ],
        runs: &[
            Run {
                arguments: &[4092],
                running: 4094,
                pc: 2,
                end: End::Trapped(Trap::NoCurrent),
                ..RUN
            },
            Run {
                arguments: &[4093],
                running: 4095,
                pc: 2,
                end: End::Trapped(Trap::Budget),
                ..RUN
            },
        ],
    },
    Case {
        name: "a failure may be the last step",
        forwarding: false,
        code: &[
            [0x03, 0, 0, 0, 0, 0, 0, 0], // ARG r0,#0
            [0x16, 0, 0, 0, 0, 0, 0, 1], // LOOP r0,#1
            [0x15, 0, 0, 0, 0, 0, 0, 7], // FAIL #7
        ],
        runs: &[
            Run {
                arguments: &[4093],
                running: 4095,
                pc: 2,
                end: End::Failed(7),
                ..RUN
            },
            Run {
                arguments: &[4094],
                running: 4095,
                pc: 1,
                end: End::Trapped(Trap::Budget),
                ..RUN
            },
        ],
    },
    Case {
        name: "a loop in a loop",
        forwarding: false,
        code: &[
            [0x03, 0, 0, 0, 0, 0, 0, 0], // ARG r0,#0
            [0x03, 1, 0, 0, 0, 0, 0, 1], // ARG r1,#1
            [0x16, 1, 0, 0, 0, 0, 0, 2], // LOOP r1,#2
            [0x16, 0, 0, 0, 0, 0, 0, 1], // LOOP r0,#1
            [0x13, 1, 0, 0, 0, 0, 0, 0], // OUT r1
            [0x14, 0, 0, 0, 0, 0, 0, 0], // DONE
        ],
        runs: &[Run {
            arguments: &[2, 3],
            running: 20,
            pc: 5,
            end: End::Done,
            outputs: &[0],
            ..RUN
        }],
    },
];
