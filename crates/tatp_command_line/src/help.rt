//! The texts that help shows: above the options what the program is, and below them more on it and
//! on each command.

/// What the program is.
pub(crate) const ABOUT: &str = "\
A verified database for the TATP benchmark
What is refused, and what a command stops at, has a number and a name: tatp explain 5 tells of 5";

/// How the program is used.
pub(crate) const USAGE: &str = "\
tatp <COMMAND>
       tatp explain [NUMBER|NAME]   (what a refusal or a fault means)";

/// Below the options of the program.
pub(crate) const PROGRAM: &str = "\
Each command reads standard input and writes standard output. It ends with status 0; with 1 where
it stops, telling why on standard error; with 2 where it can't make out these words.

Example: tatp call < examples/first-run.txt";

/// Below the options of `call`.
pub(crate) const CALL: &str = "\
The input is the rows of a population, a line with a dot, and the calls; a row or a call a line.
The reply to a call is OK and the values, FAILED and why, or REFUSED and why. In how many partitions
the rows are opened changes no byte of the replies. A call is answered when its line has come: type
calls at a terminal, or let a program send each after the reply to the last. Ctrl-D ends the input.
With --rows a line with a dot follows the last reply, and then the rows as all calls left them.

A completed call is kept, in the log of its subscriber's extent and among all completed calls, in
about 460 bytes of memory. After each 1,000,000 completed calls the rows are opened anew, where
there is memory for them besides, and those calls are let go. Nothing else grows.

Examples:
  tatp call < examples/first-run.txt
  tatp call --gen 1000 --seed 7 < calls.txt
  tatp call --gen 1000 --rows < calls.txt
  tatp call --gen 1000";

/// Below the options of `trace`.
pub(crate) const TRACE: &str = "\
The input is the rows of a population, a line with a dot, and events; a row or an event a line. An
event is answered when its line has come, at a terminal too, where ctrl-D ends the input.
With --procedures an assembly text and a line with a dot stand before them all: calls run the
procedures of that text, which keeps the rules of check, in place of the seven transactions.
Partitions and clients count from 0. Extent E has the subscribers 64 (E - 1) + 1 to 64 E and opens
in partition (E - 1) mod P.

Calls:
  submit C CALL           client C asks for a call, as the command call reads it    QUEUED P
  raw C PROC KIND KEY ARG..
                          or for a procedure, counted from 0, on the subscriber that
                          the key names, of kind id or number; at most 8 arguments  QUEUED P
  begin P                 the first call that waits at P begins     BEGAN C, AWAY P, DENIED C
  deny P                  memory for it is refused                                  DENIED C
Steps:
  step P                  one instruction of P's call                 MOVED, ENDED C REPLY
  steps P K               K times step, 1 to 4,096
  one P                   one instruction, stopped or not, at a breakpoint or not
Debugging:
  stop P, resume P        P's machine                                                     OK
  break P PROC PC         a breakpoint, at most 8; clear P PROC PC takes it away          OK
  look P                  P's call: position, registers, current rows, outputs
  home P S                the rows of subscriber S, where they are at P
  audit                   the verdict on the rows of all partitions
Moves:
  take P E                extent E leaves P, after so many moves                  PARCEL E M
  give P E                it lands at P                                           LANDED E M
  route E M               calls follow its landing             SET E P, SUPERSEDED E
Checkpoints:
  checkpoint P E          extent E hands out its log, of K calls, as its chapter I
                          (E 0: the log of the calls without a subscriber)     CHAPTER E I K

What can't be done is answered REFUSED, a number and a name, of which tatp explain tells more; it
changes nothing. With --echo the line itself stands before what is answered to it, after '> ', so
that each answer's end is seen. A line that begins with # is then a comment, and is not answered.

Subscriber 129 moves while a call waits for it (tatp trace --gen 130 < examples/live-move.txt):
  submit 0 UPDATE_LOCATION 000000000000129 7      QUEUED 0
  take 0 3                                        PARCEL 3 1
  begin 0                                         AWAY 0
  give 1 3                                        LANDED 3 1
  route 3 1                                       SET 3 1
  begin 0                                         AWAY 1
  begin 1                                         BEGAN 0
  steps 1 6                                       MOVED, five times; ENDED 0 OK

A procedure of one's own:
  tatp trace --procedures --gen 130 --seed 7 < examples/own-procedure.txt";

/// Below the usage of `asm`.
pub(crate) const ASM: &str = "\
The module is tested as by check before it is written.

Example: tatp asm < examples/procedures.txt > module.bin";

/// Below the usage of `dis`.
pub(crate) const DIS: &str = "\
The text is one that asm turns into the same module.

Example: tatp dis < module.bin";

/// Below the usage of `check`.
pub(crate) const CHECK: &str = "\
Prints OK, how many procedures the module has, and how many instructions.

Example: tatp check < module.bin";

/// Below the options of `audit`.
pub(crate) const AUDIT: &str = "\
The input is rows, one a line. Prints CLEAN and how many rows each table has, or the first audit
that fails and its key; then the status is 1.

Examples:
  tatp audit < rows.txt
  tatp audit --input-limit 1000000000 < rows.txt";

/// Below the options of `judge`.
pub(crate) const JUDGE: &str = "\
The input is the rows with which the history begins, a line with a dot, and the history: a row or a
line of it on each line. Its lines are in the order of time:

  ask C CALL     client C, 0 to 4,294,967,295, asks for a call, as the command call reads it
  end C REPLY    its call is answered: OK and the values, or FAILED and a number; ? stands for any
  abort C        its call was aborted, and changed nothing
  lost C         its call will have no answer: it may take effect later, or never
  # TEXT         a comment

A client has one call open. Where it asks again, the call before has no answer either. Write the ask
before the call is sent, and the end when its reply has come.

Prints LEGAL where the calls have an order that keeps the order of time and gives every answer. Then
lines tell what was at stake: how many calls were ANSWERED, ABORTED and UNANSWERED, how many
SUBSCRIBERS they are on, how many OVERLAPPED another one there when they were asked, how many of
these CONFLICTED, since one of the two writes, and with WIDEST how many were open there at once.

Otherwise prints ILLEGAL L: up to line L of the input they have none, and up to the line before they
have one; then the status is 1. A line SUBSCRIBER S names the subscriber whose calls have none, and
lines LINE N are those of these calls since none of them was open. Lines COULD REPLY tell with which
replies line L could have answered its call, eight at most, and MORE K that there are K more. None
come where line L is no answer, or where too many rows are possible there.

Prints UNDECIDED L and a line SUBSCRIBER S where it doesn't know: by line L more than M
configurations of subscriber S are possible, each of them rows that it may have and open calls that
may still take effect. After all such pairs OTHERS LEGAL or OTHERS ILLEGAL L tells what the calls of
all other subscribers are. Then the status is 3, and a larger --most may help.

With --part I --parts K only the calls on the subscribers S are judged of which S mod K is I - 1,
and their rows at the end; calls that name no subscriber are of part 1. A history is LEGAL where
each of its K parts is, and ILLEGAL where one is. So several processes or machines can judge it.

With --final a line with a dot and the rows at the end follow the history, and the order has to lead
to these rows. Where the calls have an order and none leads to the rows, prints ILLEGAL L, of which
L is that line, and SUBSCRIBER S: the first subscriber whose rows no order of its calls leaves.

Examples:
  tatp judge < examples/history.txt
  tatp judge --gen 1000 --seed 7 < history.txt
  tatp judge --part 1 --parts 4 --gen 1000 < history.txt
  tatp judge --final --gen 1 < examples/judge/final/unread-write.txt";

/// Below the options of `bench`.
pub(crate) const BENCH: &str = "\
Nothing is read. Each partition has an executor, the clients have up to seven threads, and two more
threads move ranges of subscribers and stop machines. When all have ended, the logs, the replies
that clients received and the rows are settled. Prints three lines: SETTLED, how many calls were
completed and how many were refused memory; MIX and how many calls there were of each of the seven
kinds; the verdict on the rows. A run that isn't one history of transactions is the fault 45.

Where a call has ended and the log of its extent, 64 subscribers, has K calls or more, the log is
handed out as a chapter, which is settled with the logs. (A call that ends at the one step which is
made beside a stop hands out none.) Beside its calls a chapter keeps the rows after them, up to
38 KB, and shares those before with the last chapter. So a small K costs much memory in a long run:
of 6,400,000 calls, chapters of 1000 calls take 0.24 GB, and chapters of 10 take 24 GB. A chapter
for which memory is refused isn't handed out, and the run goes on.

The first two lines depend on the clients, their calls, the subscribers, --uniform and the seed
alone. With --history they are followed by what the clients asked and were answered, a line each:
ask C CALL, end C REPLY, and abort C where memory was refused. Lines of one client stand in its
order, and those of several in the order in which they asked and had their answers.

With moves and stops, in 2 partitions and in 8; and the history of such a run alone:
  tatp bench --subscribers 1000 --calls 5000 --moves 100 --stops 100
  tatp bench --subscribers 1000 --calls 5000 --moves 100 --stops 100 --partitions 8 --progress
  tatp bench --subscribers 1000 --calls 5000 --moves 100 --stops 100 --history | tail -n +4";

/// Below the options of `rows`.
pub(crate) const ROWS: &str = "\
Nothing is read. The rows are those that call, trace and bench draw of N and S: one a line, in the
order drawn, subscriber by subscriber. They are what call and trace read before the line with a dot.
A million subscribers have 9.75 million rows, 380 MB; the memory taken does not grow with N.

Examples:
  tatp rows --gen 1000 --seed 7 > rows.txt
  tatp rows --gen 1000 | tatp audit";

/// Below the options of `calls`.
pub(crate) const CALLS_HELP: &str = "\
Nothing is read. The calls are those that client C of bench draws of N, S and --uniform: one a line,
as call reads them. A client's calls begin the same whatever K is. A million of them have 30 MB; the
memory taken does not grow with K.

Examples:
  tatp calls --subscribers 1000 --calls 5000 --seed 7 > calls.txt
  tatp calls --subscribers 1000 --calls 5000 | tatp call --gen 1000";

/// Below the options of `explain`.
pub(crate) const EXPLAIN: &str = "\
Nothing is read. Of a number, or of a name, prints what it means, an example and what to do; without
one prints all numbers, a line each.

Examples:
  tatp explain 5
  tatp explain NotClean
  tatp explain | grep -i module";
