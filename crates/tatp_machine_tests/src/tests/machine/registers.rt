//! LDI to JZ, and OUT.
use super::{Case, RUN, Run};
use tatp_instr::End;

pub const CASES: &[Case] = &[
    Case {
        name: "loads and moves",
        forwarding: false,
        code: &[
            [0x01, 15, 0, 0, 255, 255, 255, 255], // LDI r15,#4294967295
            [0x02, 0, 15, 0, 0, 0, 0, 0], // MOV r0,r15
            [0x03, 1, 0, 0, 0, 0, 0, 1], // ARG r1,#1
            [0x03, 2, 0, 0, 0, 0, 0, 0], // ARG r2,#0
            [0x14, 0, 0, 0, 0, 0, 0, 0], // DONE
        ],
        runs: &[Run {
            arguments: &[7, 18446744073709551615],
            running: 4,
            pc: 4,
            end: End::Done,
            registers: [
                4294967295,
                18446744073709551615,
                7,
                0,
                0,
                0,
                0,
                0,
                0,
                0,
                0,
                0,
                0,
                0,
                0,
                4294967295,
            ],
            ..RUN
        }],
    },
    Case {
        name: "adds and subtracts modulo 2^64",
        forwarding: false,
        code: &[
            [0x03, 0, 0, 0, 0, 0, 0, 0], // ARG r0,#0
            [0x03, 1, 0, 0, 0, 0, 0, 1], // ARG r1,#1
            [0x04, 2, 0, 1, 0, 0, 0, 0], // ADD r2,r0,r1
            [0x05, 3, 1, 0, 0, 0, 0, 0], // SUB r3,r1,r0
            [0x05, 4, 0, 1, 0, 0, 0, 0], // SUB r4,r0,r1
            [0x04, 0, 0, 0, 0, 0, 0, 0], // ADD r0,r0,r0
            [0x05, 1, 5, 1, 0, 0, 0, 0], // SUB r1,r5,r1
            [0x14, 0, 0, 0, 0, 0, 0, 0], // DONE
        ],
        runs: &[Run {
            arguments: &[18446744073709551615, 1],
            running: 7,
            pc: 7,
            end: End::Done,
            registers: [
                18446744073709551614,
                18446744073709551615,
                0,
                2,
                18446744073709551614,
                0,
                0,
                0,
                0,
                0,
                0,
                0,
                0,
                0,
                0,
                0,
            ],
            ..RUN
        }],
    },
    Case {
        name: "compares",
        forwarding: false,
        code: &[
            [0x03, 0, 0, 0, 0, 0, 0, 0], // ARG r0,#0
            [0x03, 1, 0, 0, 0, 0, 0, 1], // ARG r1,#1
            [0x03, 2, 0, 0, 0, 0, 0, 2], // ARG r2,#2
            [0x06, 3, 0, 1, 0, 0, 0, 0], // EQ r3,r0,r1
            [0x06, 4, 0, 2, 0, 0, 0, 0], // EQ r4,r0,r2
            [0x07, 5, 0, 2, 0, 0, 0, 0], // LT r5,r0,r2
            [0x07, 6, 0, 1, 0, 0, 0, 0], // LT r6,r0,r1
            [0x07, 7, 2, 0, 0, 0, 0, 0], // LT r7,r2,r0
            [0x14, 0, 0, 0, 0, 0, 0, 0], // DONE
        ],
        runs: &[Run {
            arguments: &[5, 5, 18446744073709551615],
            running: 8,
            pc: 8,
            end: End::Done,
            registers: [
                5,
                5,
                18446744073709551615,
                1,
                0,
                1,
                0,
                0,
                0,
                0,
                0,
                0,
                0,
                0,
                0,
                0,
            ],
            ..RUN
        }],
    },
    Case {
        name: "jumps",
        forwarding: false,
        code: &[
            [0x08, 0, 0, 0, 0, 0, 0, 2], // JMP #2
            [0x01, 0, 0, 0, 0, 0, 0, 9], // LDI r0,#9
            [0x09, 1, 0, 0, 0, 0, 0, 4], // JZ r1,#4
            [0x01, 0, 0, 0, 0, 0, 0, 9], // LDI r0,#9
            [0x01, 1, 0, 0, 0, 0, 0, 1], // LDI r1,#1
            [0x09, 1, 0, 0, 0, 0, 0, 7], // JZ r1,#7
            [0x01, 2, 0, 0, 0, 0, 0, 5], // LDI r2,#5
            [0x14, 0, 0, 0, 0, 0, 0, 0], // DONE
        ],
        runs: &[Run {
            running: 5,
            pc: 7,
            end: End::Done,
            registers: [0, 1, 5, 0, 0, 0, 0, 0, 0, 0, 0, 0, 0, 0, 0, 0],
            ..RUN
        }],
    },
    Case {
        name: "puts out in order",
        forwarding: false,
        code: &[
            [0x01, 0, 0, 0, 0, 0, 0, 7], // LDI r0,#7
            [0x13, 0, 0, 0, 0, 0, 0, 0], // OUT r0
            [0x01, 0, 0, 0, 0, 0, 0, 8], // LDI r0,#8
            [0x13, 0, 0, 0, 0, 0, 0, 0], // OUT r0
            [0x13, 1, 0, 0, 0, 0, 0, 0], // OUT r1
            [0x14, 0, 0, 0, 0, 0, 0, 0], // DONE
        ],
        runs: &[Run {
            running: 5,
            pc: 5,
            end: End::Done,
            registers: [8, 0, 0, 0, 0, 0, 0, 0, 0, 0, 0, 0, 0, 0, 0, 0],
            outputs: &[7, 8, 0],
            ..RUN
        }],
    },
];
