//! GET, PUT, INS and DEL, with their traps.
use super::{Case, RUN, Run};
use tatp_instr::{End, Trap};

pub const CASES: &[Case] = &[
    Case {
        name: "reads current rows",
        forwarding: false,
        code: &[
            [0x03, 0, 0, 0, 0, 0, 0, 0], // ARG r0,#0
            [0x01, 1, 0, 0, 0, 0, 0, 1], // LDI r1,#1
            [0x0A, 2, 0, 0, 0, 0, 0, 0], // FSUB r2,r0
            [0x0C, 2, 0, 1, 0, 0, 0, 0], // FACC r2,r0,r1
            [0x0D, 2, 0, 1, 0, 0, 0, 0], // FFAC r2,r0,r1
            [0x0F, 3, 0, 0, 0, 0, 0, 0], // GET r3,#0
            [0x0F, 4, 0, 0, 0, 0, 0, 33], // GET r4,#33
            [0x0F, 5, 0, 0, 0, 0, 0, 38], // GET r5,#38
            [0x0F, 6, 0, 0, 0, 0, 0, 45], // GET r6,#45
            [0x0F, 7, 0, 0, 0, 0, 0, 50], // GET r7,#50
            [0x14, 0, 0, 0, 0, 0, 0, 0], // DONE
        ],
        runs: &[Run {
            arguments: &[2],
            running: 9,
            pc: 9,
            end: End::Trapped(Trap::NoCurrent),
            registers: [
                2,
                1,
                1,
                2,
                1,
                4276545,
                280267669825,
                0,
                0,
                0,
                0,
                0,
                0,
                0,
                0,
                0,
            ],
            current: [Some([2, 0, 0]), Some([2, 1, 0]), Some([2, 1, 0]), None],
            ..RUN
        }],
    },
    Case {
        name: "sets a column and reads what it set",
        forwarding: false,
        code: &[
            [0x03, 0, 0, 0, 0, 0, 0, 0], // ARG r0,#0
            [0x0A, 1, 0, 0, 0, 0, 0, 0], // FSUB r1,r0
            [0x01, 2, 0, 0, 255, 255, 255, 255], // LDI r2,#4294967295
            [0x10, 2, 0, 0, 0, 0, 0, 33], // PUT #33,r2
            [0x0F, 3, 0, 0, 0, 0, 0, 33], // GET r3,#33
            [0x14, 0, 0, 0, 0, 0, 0, 0], // DONE
        ],
        runs: &[Run {
            arguments: &[2],
            running: 5,
            writes: 1,
            pc: 5,
            end: End::Done,
            registers: [
                2, 1, 4294967295, 4294967295, 0, 0, 0, 0, 0, 0, 0, 0, 0, 0, 0, 0,
            ],
            current: [Some([2, 0, 0]), None, None, None],
            values: &[(33, [2, 0, 0], Some(4294967295))],
            ..RUN
        }],
    },
    Case {
        name: "a put asks for a current row before the domain",
        forwarding: false,
        code: &[
            [0x10, 0, 0, 0, 0, 0, 0, 33], // PUT #33,r0
            [0x14, 0, 0, 0, 0, 0, 0, 0], // DONE
        ],
        runs: &[Run {
            running: 0,
            pc: 0,
            end: End::Trapped(Trap::NoCurrent),
            values: &[(33, [2, 0, 0], Some(1))],
            ..RUN
        }],
    },
    Case {
        name: "a trap undoes two puts",
        forwarding: false,
        code: &[
            [0x03, 0, 0, 0, 0, 0, 0, 0], // ARG r0,#0
            [0x0A, 1, 0, 0, 0, 0, 0, 0], // FSUB r1,r0
            [0x10, 1, 0, 0, 0, 0, 0, 2], // PUT #2,r1
            [0x10, 0, 0, 0, 0, 0, 0, 32], // PUT #32,r0
            [0x10, 5, 0, 0, 0, 0, 0, 33], // PUT #33,r5
            [0x14, 0, 0, 0, 0, 0, 0, 0], // DONE
        ],
        runs: &[Run {
            arguments: &[2],
            running: 4,
            writes: 2,
            pc: 4,
            end: End::Trapped(Trap::Domain),
            registers: [2, 1, 0, 0, 0, 0, 0, 0, 0, 0, 0, 0, 0, 0, 0, 0],
            current: [Some([2, 0, 0]), None, None, None],
            values: &[
                (2, [2, 0, 0], Some(0)),
                (32, [2, 0, 0], Some(1)),
                (33, [2, 0, 0], Some(1)),
            ],
            ..RUN
        }],
    },
    Case {
        name: "inserts; domains before the parent",
        forwarding: false,
        code: &[
            [0x03, 11, 0, 0, 0, 0, 0, 0], // ARG r11,#0
            [0x03, 12, 0, 0, 0, 0, 0, 1], // ARG r12,#1
            [0x03, 13, 0, 0, 0, 0, 0, 2], // ARG r13,#2
            [0x03, 14, 0, 0, 0, 0, 0, 3], // ARG r14,#3
            [0x03, 15, 0, 0, 0, 0, 0, 4], // ARG r15,#4
            [0x11, 15, 11, 0, 0, 0, 0, 0], // INS r15,r11
            [0x14, 0, 0, 0, 0, 0, 0, 0], // DONE
        ],
        runs: &[
            Run {
                arguments: &[2, 1, 8, 20, 888],
                running: 6,
                writes: 1,
                pc: 6,
                end: End::Done,
                registers: [0, 0, 0, 0, 0, 0, 0, 0, 0, 0, 0, 2, 1, 8, 20, 1],
                values: &[(50, [2, 1, 8], Some(888)), (49, [2, 1, 16], None)],
                ..RUN
            },
            Run {
                arguments: &[2, 1, 16, 1, 0],
                running: 6,
                writes: 1,
                pc: 6,
                end: End::Done,
                registers: [0, 0, 0, 0, 0, 0, 0, 0, 0, 0, 0, 2, 1, 16, 1, 1],
                values: &[(50, [2, 1, 8], None), (49, [2, 1, 16], Some(1))],
                ..RUN
            },
            Run {
                arguments: &[2, 4, 8, 20, 888],
                running: 6,
                writes: 1,
                pc: 6,
                end: End::Done,
                registers: [0, 0, 0, 0, 0, 0, 0, 0, 0, 0, 0, 2, 4, 8, 20, 3],
                values: &[(50, [2, 1, 8], None), (49, [2, 1, 16], None)],
                ..RUN
            },
            Run {
                arguments: &[1, 1, 8, 20, 888],
                running: 6,
                writes: 1,
                pc: 6,
                end: End::Done,
                registers: [0, 0, 0, 0, 0, 0, 0, 0, 0, 0, 0, 1, 1, 8, 20, 3],
                values: &[(50, [2, 1, 8], None), (49, [2, 1, 16], None)],
                ..RUN
            },
            Run {
                arguments: &[2, 4, 7, 20, 888],
                running: 5,
                pc: 5,
                end: End::Trapped(Trap::Domain),
                registers: [0, 0, 0, 0, 0, 0, 0, 0, 0, 0, 0, 2, 4, 7, 20, 888],
                values: &[(50, [2, 1, 8], None), (49, [2, 1, 16], None)],
                ..RUN
            },
            Run {
                arguments: &[2, 5, 8, 20, 888],
                running: 5,
                pc: 5,
                end: End::Trapped(Trap::Domain),
                registers: [0, 0, 0, 0, 0, 0, 0, 0, 0, 0, 0, 2, 5, 8, 20, 888],
                values: &[(50, [2, 1, 8], None), (49, [2, 1, 16], None)],
                ..RUN
            },
            Run {
                arguments: &[0, 1, 8, 20, 888],
                running: 5,
                pc: 5,
                end: End::Trapped(Trap::Domain),
                registers: [0, 0, 0, 0, 0, 0, 0, 0, 0, 0, 0, 0, 1, 8, 20, 888],
                values: &[(50, [2, 1, 8], None), (49, [2, 1, 16], None)],
                ..RUN
            },
            Run {
                arguments: &[2, 1, 8, 0, 888],
                running: 5,
                pc: 5,
                end: End::Trapped(Trap::Domain),
                registers: [0, 0, 0, 0, 0, 0, 0, 0, 0, 0, 0, 2, 1, 8, 0, 888],
                values: &[(50, [2, 1, 8], None), (49, [2, 1, 16], None)],
                ..RUN
            },
        ],
    },
    Case {
        name: "inserts where a row has the key",
        forwarding: true,
        code: &[
            [0x03, 11, 0, 0, 0, 0, 0, 0], // ARG r11,#0
            [0x03, 12, 0, 0, 0, 0, 0, 1], // ARG r12,#1
            [0x03, 13, 0, 0, 0, 0, 0, 2], // ARG r13,#2
            [0x03, 14, 0, 0, 0, 0, 0, 3], // ARG r14,#3
            [0x03, 15, 0, 0, 0, 0, 0, 4], // ARG r15,#4
            [0x11, 15, 11, 0, 0, 0, 0, 0], // INS r15,r11
            [0x14, 0, 0, 0, 0, 0, 0, 0], // DONE
        ],
        runs: &[Run {
            arguments: &[2, 1, 8, 24, 7],
            running: 6,
            writes: 1,
            pc: 6,
            end: End::Done,
            registers: [0, 0, 0, 0, 0, 0, 0, 0, 0, 0, 0, 2, 1, 8, 24, 2],
            values: &[(49, [2, 1, 8], Some(20)), (50, [2, 1, 8], Some(888))],
            ..RUN
        }],
    },
    Case {
        name: "an insert leaves the current row",
        forwarding: true,
        code: &[
            [0x03, 0, 0, 0, 0, 0, 0, 0], // ARG r0,#0
            [0x01, 1, 0, 0, 0, 0, 0, 1], // LDI r1,#1
            [0x01, 2, 0, 0, 0, 0, 0, 8], // LDI r2,#8
            [0x0E, 5, 0, 0, 0, 0, 0, 0], // FCFW r5,r0
            [0x01, 2, 0, 0, 0, 0, 0, 16], // LDI r2,#16
            [0x01, 3, 0, 0, 0, 0, 0, 24], // LDI r3,#24
            [0x11, 5, 0, 0, 0, 0, 0, 0], // INS r5,r0
            [0x0F, 6, 0, 0, 0, 0, 0, 48], // GET r6,#48
            [0x14, 0, 0, 0, 0, 0, 0, 0], // DONE
        ],
        runs: &[Run {
            arguments: &[2],
            running: 8,
            writes: 1,
            pc: 8,
            end: End::Done,
            registers: [2, 1, 16, 24, 0, 1, 8, 0, 0, 0, 0, 0, 0, 0, 0, 0],
            current: [None, None, None, Some([2, 1, 8])],
            values: &[(49, [2, 1, 16], Some(24))],
            ..RUN
        }],
    },
    Case {
        name: "after a delete no forwarding is current",
        forwarding: true,
        code: &[
            [0x03, 0, 0, 0, 0, 0, 0, 0], // ARG r0,#0
            [0x01, 1, 0, 0, 0, 0, 0, 1], // LDI r1,#1
            [0x01, 2, 0, 0, 0, 0, 0, 8], // LDI r2,#8
            [0x0E, 3, 0, 0, 0, 0, 0, 0], // FCFW r3,r0
            [0x12, 0, 0, 0, 0, 0, 0, 0], // DEL
            [0x12, 0, 0, 0, 0, 0, 0, 0], // DEL
            [0x14, 0, 0, 0, 0, 0, 0, 0], // DONE
        ],
        runs: &[Run {
            arguments: &[2],
            running: 5,
            writes: 1,
            pc: 5,
            end: End::Trapped(Trap::NoCurrent),
            registers: [2, 1, 8, 1, 0, 0, 0, 0, 0, 0, 0, 0, 0, 0, 0, 0],
            values: &[(50, [2, 1, 8], Some(888))],
            ..RUN
        }],
    },
    Case {
        name: "deletes",
        forwarding: true,
        code: &[
            [0x03, 0, 0, 0, 0, 0, 0, 0], // ARG r0,#0
            [0x01, 1, 0, 0, 0, 0, 0, 1], // LDI r1,#1
            [0x01, 2, 0, 0, 0, 0, 0, 8], // LDI r2,#8
            [0x0E, 3, 0, 0, 0, 0, 0, 0], // FCFW r3,r0
            [0x12, 0, 0, 0, 0, 0, 0, 0], // DEL
            [0x14, 0, 0, 0, 0, 0, 0, 0], // DONE
        ],
        runs: &[Run {
            arguments: &[2],
            running: 5,
            writes: 1,
            pc: 5,
            end: End::Done,
            registers: [2, 1, 8, 1, 0, 0, 0, 0, 0, 0, 0, 0, 0, 0, 0, 0],
            values: &[(50, [2, 1, 8], None)],
            ..RUN
        }],
    },
];
