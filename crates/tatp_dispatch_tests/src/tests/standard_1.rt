//! The standard module as it was in version 1 of the instruction table. A case of the script
//! `tests/commands` cuts it out of this file too.

/// The assembly text of a module of version 1 that does what the standard module does. Its
/// GET_NEW_DESTINATION has a block for each start time, and after each a label: `a`, `b`, `c`.
pub const STANDARD_1: &str = "\
proc GET_SUBSCRIBER_DATA 1
ARG r0,#0
FSUB r1,r0
JZ r1,@none
GET r2,#0
OUT r2
GET r2,#1
OUT r2
GET r2,#2
OUT r2
GET r2,#3
OUT r2
GET r2,#4
OUT r2
GET r2,#5
OUT r2
GET r2,#6
OUT r2
GET r2,#7
OUT r2
GET r2,#8
OUT r2
GET r2,#9
OUT r2
GET r2,#10
OUT r2
GET r2,#11
OUT r2
GET r2,#12
OUT r2
GET r2,#13
OUT r2
GET r2,#14
OUT r2
GET r2,#15
OUT r2
GET r2,#16
OUT r2
GET r2,#17
OUT r2
GET r2,#18
OUT r2
GET r2,#19
OUT r2
GET r2,#20
OUT r2
GET r2,#21
OUT r2
GET r2,#22
OUT r2
GET r2,#23
OUT r2
GET r2,#24
OUT r2
GET r2,#25
OUT r2
GET r2,#26
OUT r2
GET r2,#27
OUT r2
GET r2,#28
OUT r2
GET r2,#29
OUT r2
GET r2,#30
OUT r2
GET r2,#31
OUT r2
GET r2,#32
OUT r2
GET r2,#33
OUT r2
DONE
none:
FAIL #1
end
proc GET_NEW_DESTINATION 4
ARG r0,#0
ARG r1,#1
ARG r5,#2
ARG r6,#3
FFAC r7,r0,r1
JZ r7,@none
GET r7,#42
JZ r7,@none
LDI r4,#1
ADD r5,r5,r4
LDI r2,#0
FCFW r7,r0
JZ r7,@a
LT r7,r2,r5
JZ r7,@a
GET r8,#49
LT r7,r6,r8
JZ r7,@a
GET r8,#50
OUT r8
MOV r9,r4
a:
LDI r2,#8
FCFW r7,r0
JZ r7,@b
LT r7,r2,r5
JZ r7,@b
GET r8,#49
LT r7,r6,r8
JZ r7,@b
GET r8,#50
OUT r8
MOV r9,r4
b:
LDI r2,#16
FCFW r7,r0
JZ r7,@c
LT r7,r2,r5
JZ r7,@c
GET r8,#49
LT r7,r6,r8
JZ r7,@c
GET r8,#50
OUT r8
MOV r9,r4
c:
JZ r9,@none
DONE
none:
FAIL #1
end
proc GET_ACCESS_DATA 2
ARG r0,#0
ARG r1,#1
FACC r2,r0,r1
JZ r2,@none
GET r3,#36
OUT r3
GET r3,#37
OUT r3
GET r3,#38
OUT r3
GET r3,#39
OUT r3
DONE
none:
FAIL #1
end
proc UPDATE_SUBSCRIBER_DATA 4
ARG r0,#0
FSUB r1,r0
JZ r1,@none
ARG r2,#1
PUT #2,r2
ARG r3,#2
FFAC r1,r0,r3
JZ r1,@none
ARG r4,#3
PUT #44,r4
DONE
none:
FAIL #1
end
proc UPDATE_LOCATION 2
ARG r0,#0
FNUM r1,r0
JZ r1,@none
ARG r2,#1
PUT #33,r2
DONE
none:
FAIL #1
end
proc INSERT_CALL_FORWARDING 5
ARG r0,#0
FNUM r1,r0
JZ r1,@none
GET r2,#0
ARG r3,#1
ARG r4,#2
ARG r5,#3
ARG r6,#4
INS r7,r2
LDI r8,#1
EQ r8,r7,r8
JZ r8,@bad
DONE
bad:
LDI r8,#2
EQ r8,r7,r8
JZ r8,@parent
FAIL #2
parent:
FAIL #3
none:
FAIL #1
end
proc DELETE_CALL_FORWARDING 3
ARG r0,#0
FNUM r1,r0
JZ r1,@none
GET r2,#0
ARG r3,#1
ARG r4,#2
FCFW r5,r2
JZ r5,@none
DEL
DONE
none:
FAIL #1
end
";
