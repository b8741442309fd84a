//! Calls up to the most writes that they may make.
use super::{Case, RUN, Run};
use tatp_instr::{End, Trap};

pub const ON_A_HOME: &[Case] = &[
    Case {
        name: "a call sets at most 64 values",
        forwarding: false,
        code: &[
            [0x03, 0, 0, 0, 0, 0, 0, 0], // ARG r0,#0
            [0x03, 10, 0, 0, 0, 0, 0, 1], // ARG r10,#1
            [0x0A, 5, 0, 0, 0, 0, 0, 0], // FSUB r5,r0
            [0x10, 5, 0, 0, 0, 0, 0, 2], // PUT #2,r5
            [0x16, 10, 0, 0, 0, 0, 0, 3], // LOOP r10,#3
            [0x14, 0, 0, 0, 0, 0, 0, 0], // DONE
        ],
        runs: &[
            Run {
                arguments: &[2, 62],
                running: 129,
                writes: 63,
                pc: 5,
                end: End::Done,
                registers: [2, 0, 0, 0, 0, 1, 0, 0, 0, 0, 0, 0, 0, 0, 0, 0],
                current: [Some([2, 0, 0]), None, None, None],
                values: &[(2, [2, 0, 0], Some(1))],
                ..RUN
            },
            Run {
                arguments: &[2, 63],
                running: 131,
                writes: 64,
                pc: 5,
                end: End::Done,
                registers: [2, 0, 0, 0, 0, 1, 0, 0, 0, 0, 0, 0, 0, 0, 0, 0],
                current: [Some([2, 0, 0]), None, None, None],
                values: &[(2, [2, 0, 0], Some(1))],
                ..RUN
            },
            Run {
                arguments: &[2, 64],
                running: 131,
                writes: 64,
                pc: 3,
                end: End::Trapped(Trap::Writes),
                registers: [2, 0, 0, 0, 0, 1, 0, 0, 0, 0, 0, 0, 0, 0, 0, 0],
                current: [Some([2, 0, 0]), None, None, None],
                values: &[(2, [2, 0, 0], Some(0))],
                ..RUN
            },
        ],
    },
    Case {
        name: "an insert of a row that is there is a write",
        forwarding: true,
        code: &[
            [0x03, 0, 0, 0, 0, 0, 0, 0], // ARG r0,#0
            [0x03, 10, 0, 0, 0, 0, 0, 1], // ARG r10,#1
            [0x01, 1, 0, 0, 0, 0, 0, 1], // LDI r1,#1
            [0x01, 2, 0, 0, 0, 0, 0, 8], // LDI r2,#8
            [0x01, 3, 0, 0, 0, 0, 0, 20], // LDI r3,#20
            [0x11, 5, 0, 0, 0, 0, 0, 0], // INS r5,r0
            [0x16, 10, 0, 0, 0, 0, 0, 5], // LOOP r10,#5
            [0x14, 0, 0, 0, 0, 0, 0, 0], // DONE
        ],
        runs: &[
            Run {
                arguments: &[2, 62],
                running: 131,
                writes: 63,
                pc: 7,
                end: End::Done,
                registers: [2, 1, 8, 20, 0, 2, 0, 0, 0, 0, 0, 0, 0, 0, 0, 0],
                ..RUN
            },
            Run {
                arguments: &[2, 63],
                running: 133,
                writes: 64,
                pc: 7,
                end: End::Done,
                registers: [2, 1, 8, 20, 0, 2, 0, 0, 0, 0, 0, 0, 0, 0, 0, 0],
                ..RUN
            },
            Run {
                arguments: &[2, 64],
                running: 133,
                writes: 64,
                pc: 5,
                end: End::Trapped(Trap::Writes),
                registers: [2, 1, 8, 20, 0, 2, 0, 0, 0, 0, 0, 0, 0, 0, 0, 0],
                ..RUN
            },
        ],
    },
    Case {
        name: "a row is deleted and inserted 32 times, and that is undone",
        forwarding: true,
        code: &[
            [0x03, 0, 0, 0, 0, 0, 0, 0], // ARG r0,#0
            [0x03, 10, 0, 0, 0, 0, 0, 1], // ARG r10,#1
            [0x01, 1, 0, 0, 0, 0, 0, 1], // LDI r1,#1
            [0x01, 2, 0, 0, 0, 0, 0, 8], // LDI r2,#8
            [0x01, 3, 0, 0, 0, 0, 0, 20], // LDI r3,#20
            [0x0E, 5, 0, 0, 0, 0, 0, 0], // FCFW r5,r0
            [0x12, 0, 0, 0, 0, 0, 0, 0], // DEL
            [0x11, 6, 0, 0, 0, 0, 0, 0], // INS r6,r0
            [0x16, 10, 0, 0, 0, 0, 0, 5], // LOOP r10,#5
            [0x14, 0, 0, 0, 0, 0, 0, 0], // DONE
        ],
        runs: &[
            Run {
                arguments: &[2, 31],
                running: 133,
                writes: 64,
                pc: 9,
                end: End::Done,
                registers: [2, 1, 8, 20, 0, 1, 1, 0, 0, 0, 0, 0, 0, 0, 0, 0],
                values: &[(49, [2, 1, 8], Some(20)), (50, [2, 1, 8], Some(0))],
                ..RUN
            },
            Run {
                arguments: &[2, 32],
                running: 134,
                writes: 64,
                pc: 6,
                end: End::Trapped(Trap::Writes),
                registers: [2, 1, 8, 20, 0, 1, 1, 0, 0, 0, 0, 0, 0, 0, 0, 0],
                current: [None, None, None, Some([2, 1, 8])],
                values: &[(49, [2, 1, 8], Some(20)), (50, [2, 1, 8], Some(888))],
                ..RUN
            },
        ],
    },
    Case {
        name: "the limit of writes comes before the trap Domain",
        forwarding: true,
        code: &[
            [0x03, 0, 0, 0, 0, 0, 0, 0], // ARG r0,#0
            [0x03, 10, 0, 0, 0, 0, 0, 1], // ARG r10,#1
            [0x01, 1, 0, 0, 0, 0, 0, 1], // LDI r1,#1
            [0x01, 2, 0, 0, 0, 0, 0, 8], // LDI r2,#8
            [0x01, 3, 0, 0, 0, 0, 0, 20], // LDI r3,#20
            [0x0A, 6, 0, 0, 0, 0, 0, 0], // FSUB r6,r0
            [0x11, 5, 0, 0, 0, 0, 0, 0], // INS r5,r0
            [0x16, 10, 0, 0, 0, 0, 0, 6], // LOOP r10,#6
            [0x10, 11, 0, 0, 0, 0, 0, 33], // PUT #33,r11
            [0x14, 0, 0, 0, 0, 0, 0, 0], // DONE
        ],
        runs: &[
            Run {
                arguments: &[2, 62],
                running: 132,
                writes: 63,
                pc: 8,
                end: End::Trapped(Trap::Domain),
                registers: [2, 1, 8, 20, 0, 2, 1, 0, 0, 0, 0, 0, 0, 0, 0, 0],
                current: [Some([2, 0, 0]), None, None, None],
                ..RUN
            },
            Run {
                arguments: &[2, 63],
                running: 134,
                writes: 64,
                pc: 8,
                end: End::Trapped(Trap::Writes),
                registers: [2, 1, 8, 20, 0, 2, 1, 0, 0, 0, 0, 0, 0, 0, 0, 0],
                current: [Some([2, 0, 0]), None, None, None],
                ..RUN
            },
        ],
    },
    Case {
        name: "the limit of steps comes before that of writes",
        forwarding: true,
        code: &[
            [0x03, 0, 0, 0, 0, 0, 0, 0], // ARG r0,#0
            [0x03, 10, 0, 0, 0, 0, 0, 1], // ARG r10,#1
            [0x03, 11, 0, 0, 0, 0, 0, 2], // ARG r11,#2
            [0x01, 1, 0, 0, 0, 0, 0, 1], // LDI r1,#1
            [0x01, 2, 0, 0, 0, 0, 0, 8], // LDI r2,#8
            [0x01, 3, 0, 0, 0, 0, 0, 20], // LDI r3,#20
            [0x11, 5, 0, 0, 0, 0, 0, 0], // INS r5,r0
            [0x16, 10, 0, 0, 0, 0, 0, 6], // LOOP r10,#6
            [0x16, 11, 0, 0, 0, 0, 0, 8], // LOOP r11,#8
            [0x11, 5, 0, 0, 0, 0, 0, 0], // INS r5,r0
            [0x14, 0, 0, 0, 0, 0, 0, 0], // DONE
        ],
        runs: &[
            Run {
                arguments: &[2, 62, 3961],
                running: 4095,
                writes: 64,
                pc: 10,
                end: End::Done,
                registers: [2, 1, 8, 20, 0, 2, 0, 0, 0, 0, 0, 0, 0, 0, 0, 0],
                ..RUN
            },
            Run {
                arguments: &[2, 63, 3959],
                running: 4094,
                writes: 64,
                pc: 9,
                end: End::Trapped(Trap::Writes),
                registers: [2, 1, 8, 20, 0, 2, 0, 0, 0, 0, 0, 0, 0, 0, 0, 0],
                ..RUN
            },
            Run {
                arguments: &[2, 63, 3960],
                running: 4095,
                writes: 64,
                pc: 9,
                end: End::Trapped(Trap::Budget),
                registers: [2, 1, 8, 20, 0, 2, 0, 0, 0, 0, 0, 0, 0, 0, 0, 0],
                ..RUN
            },
        ],
    },
];

pub const HOMELESS: &[Case] = &[
    Case {
        name: "an insert without a parent is a write",
        forwarding: false,
        code: &[
            [0x03, 0, 0, 0, 0, 0, 0, 0], // ARG r0,#0
            [0x03, 10, 0, 0, 0, 0, 0, 1], // ARG r10,#1
            [0x01, 1, 0, 0, 0, 0, 0, 1], // LDI r1,#1
            [0x01, 2, 0, 0, 0, 0, 0, 8], // LDI r2,#8
            [0x01, 3, 0, 0, 0, 0, 0, 20], // LDI r3,#20
            [0x11, 5, 0, 0, 0, 0, 0, 0], // INS r5,r0
            [0x16, 10, 0, 0, 0, 0, 0, 5], // LOOP r10,#5
            [0x14, 0, 0, 0, 0, 0, 0, 0], // DONE
        ],
        runs: &[
            Run {
                arguments: &[2, 62],
                running: 131,
                writes: 63,
                pc: 7,
                end: End::Done,
                registers: [2, 1, 8, 20, 0, 3, 0, 0, 0, 0, 0, 0, 0, 0, 0, 0],
                ..RUN
            },
            Run {
                arguments: &[2, 63],
                running: 133,
                writes: 64,
                pc: 7,
                end: End::Done,
                registers: [2, 1, 8, 20, 0, 3, 0, 0, 0, 0, 0, 0, 0, 0, 0, 0],
                ..RUN
            },
            Run {
                arguments: &[2, 64],
                running: 133,
                writes: 64,
                pc: 5,
                end: End::Trapped(Trap::Writes),
                registers: [2, 1, 8, 20, 0, 3, 0, 0, 0, 0, 0, 0, 0, 0, 0, 0],
                ..RUN
            },
        ],
    },
    Case {
        name: "the limit of writes comes before the trap NoCurrent of a PUT",
        forwarding: false,
        code: &[
            [0x03, 0, 0, 0, 0, 0, 0, 0], // ARG r0,#0
            [0x03, 10, 0, 0, 0, 0, 0, 1], // ARG r10,#1
            [0x01, 1, 0, 0, 0, 0, 0, 1], // LDI r1,#1
            [0x01, 2, 0, 0, 0, 0, 0, 8], // LDI r2,#8
            [0x01, 3, 0, 0, 0, 0, 0, 20], // LDI r3,#20
            [0x11, 5, 0, 0, 0, 0, 0, 0], // INS r5,r0
            [0x16, 10, 0, 0, 0, 0, 0, 5], // LOOP r10,#5
            [0x10, 0, 0, 0, 0, 0, 0, 33], // PUT #33,r0
            [0x14, 0, 0, 0, 0, 0, 0, 0], // DONE
        ],
        runs: &[
            Run {
                arguments: &[2, 62],
                running: 131,
                writes: 63,
                pc: 7,
                end: End::Trapped(Trap::NoCurrent),
                registers: [2, 1, 8, 20, 0, 3, 0, 0, 0, 0, 0, 0, 0, 0, 0, 0],
                ..RUN
            },
            Run {
                arguments: &[2, 63],
                running: 133,
                writes: 64,
                pc: 7,
                end: End::Trapped(Trap::Writes),
                registers: [2, 1, 8, 20, 0, 3, 0, 0, 0, 0, 0, 0, 0, 0, 0, 0],
                ..RUN
            },
        ],
    },
    Case {
        name: "the limit of writes comes before the trap NoCurrent of a DEL",
        forwarding: false,
        code: &[
            [0x03, 0, 0, 0, 0, 0, 0, 0], // ARG r0,#0
            [0x03, 10, 0, 0, 0, 0, 0, 1], // ARG r10,#1
            [0x01, 1, 0, 0, 0, 0, 0, 1], // LDI r1,#1
            [0x01, 2, 0, 0, 0, 0, 0, 8], // LDI r2,#8
            [0x01, 3, 0, 0, 0, 0, 0, 20], // LDI r3,#20
            [0x11, 5, 0, 0, 0, 0, 0, 0], // INS r5,r0
            [0x16, 10, 0, 0, 0, 0, 0, 5], // LOOP r10,#5
            [0x12, 0, 0, 0, 0, 0, 0, 0], // DEL
            [0x14, 0, 0, 0, 0, 0, 0, 0], // DONE
        ],
        runs: &[
            Run {
                arguments: &[2, 62],
                running: 131,
                writes: 63,
                pc: 7,
                end: End::Trapped(Trap::NoCurrent),
                registers: [2, 1, 8, 20, 0, 3, 0, 0, 0, 0, 0, 0, 0, 0, 0, 0],
                ..RUN
            },
            Run {
                arguments: &[2, 63],
                running: 133,
                writes: 64,
                pc: 7,
                end: End::Trapped(Trap::Writes),
                registers: [2, 1, 8, 20, 0, 3, 0, 0, 0, 0, 0, 0, 0, 0, 0, 0],
                ..RUN
            },
        ],
    },
    Case {
        name: "the limit of steps comes before that of writes",
        forwarding: false,
        code: &[
            [0x03, 0, 0, 0, 0, 0, 0, 0], // ARG r0,#0
            [0x03, 10, 0, 0, 0, 0, 0, 1], // ARG r10,#1
            [0x03, 11, 0, 0, 0, 0, 0, 2], // ARG r11,#2
            [0x01, 1, 0, 0, 0, 0, 0, 1], // LDI r1,#1
            [0x01, 2, 0, 0, 0, 0, 0, 8], // LDI r2,#8
            [0x01, 3, 0, 0, 0, 0, 0, 20], // LDI r3,#20
            [0x11, 5, 0, 0, 0, 0, 0, 0], // INS r5,r0
            [0x16, 10, 0, 0, 0, 0, 0, 6], // LOOP r10,#6
            [0x16, 11, 0, 0, 0, 0, 0, 8], // LOOP r11,#8
            [0x11, 5, 0, 0, 0, 0, 0, 0], // INS r5,r0
            [0x14, 0, 0, 0, 0, 0, 0, 0], // DONE
        ],
        runs: &[
            Run {
                arguments: &[2, 62, 3961],
                running: 4095,
                writes: 64,
                pc: 10,
                end: End::Done,
                registers: [2, 1, 8, 20, 0, 3, 0, 0, 0, 0, 0, 0, 0, 0, 0, 0],
                ..RUN
            },
            Run {
                arguments: &[2, 63, 3959],
                running: 4094,
                writes: 64,
                pc: 9,
                end: End::Trapped(Trap::Writes),
                registers: [2, 1, 8, 20, 0, 3, 0, 0, 0, 0, 0, 0, 0, 0, 0, 0],
                ..RUN
            },
            Run {
                arguments: &[2, 63, 3960],
                running: 4095,
                writes: 64,
                pc: 9,
                end: End::Trapped(Trap::Budget),
                registers: [2, 1, 8, 20, 0, 3, 0, 0, 0, 0, 0, 0, 0, 0, 0, 0],
                ..RUN
            },
        ],
    },
];
