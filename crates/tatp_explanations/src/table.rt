//! The table of all refusals and faults.
ghost use Rattle.std.specs.Prelude.{◌≡◌, ◌≤◌};
ghost use Rattle.tatp_explanations.specs.Names.{name_of};

use crate::explanation::Explanation;

/// The explanation of a number: the rows are number, name, meaning, example and advice. Each line
/// of the last two is indented by two spaces.
macro_rules! row_of {
    (
        $number:ident,
        $($row:literal $name:literal $meaning:literal $example:literal $advice:literal)*
    ) => {
        match $number {
            $($row => Explanation {
                number: $row,
                name: $name,
                meaning: $meaning,
                example: $example,
                advice: $advice,
            },)*
            _ => unreachable!(),
        }
    };
}

/// Changes of rows, and lines.
pub(crate) fn about_changes(number: u64) -> Explanation
    requires least { 1 ≤ number }
    requires most { number ≤ 5 }
    ensures own { result.number ≡ number }
    ensures named { result.name.now ≡ name_of number }
{
    row_of!(number,
        1 "NoCurrent" "no row has the key"
            "  In the library: Home::put of a facility that the subscriber doesn't have.
  A call whose procedure makes GET, PUT or DEL in a table without a current row
  ends with the same name: TRAPPED NoCurrent."
            "  Find the row first, and test what the find says: JZ jumps where it is 0."
        2 "Domain" "a value is outside its column's values"
            "  $ printf 'raw 0 4 id 1 1 0\\nbegin 0\\nsteps 0 5\\n' |
      tatp trace --gen 1 | tail -n 1
  ENDED 0 TRAPPED Domain"
            "  A location, as here, is never 0; docs/FORMATS.md lists the values that each
  column can have. The call has left nothing. For submit, in place of raw, the
  arguments are tested before the call is queued."
        3 "KeyExists" "a row has the key already"
            "  In the library: Home::insert_cf of a forwarding that is there. As a call
  INSERT_CALL_FORWARDING answers FAILED 2 then."
            "  A forwarding's key is s_id, sf_type and start_time: delete the row that has
  it, or take another start_time."
        4 "NoParent" "the row that the new one refers to is not there"
            "  In the library: Home::insert_cf for a facility that the subscriber doesn't
  have. As a call INSERT_CALL_FORWARDING answers FAILED 3 then."
            "  Take an sf_type that the subscriber has. No call inserts a facility."
        5 "BadLine" "a line isn't what it has to be"
            "  $ echo 'GET_ACCESS_DATA 1' | tatp call --gen 1
  REFUSED 5 BadLine
  $ echo 'GET_ACCESS_DATA 1 1' | tatp call
  tatp: 5 BadLine 1"
            "  A number behind the name is that of the line, from 1. What it mostly is:
  - sub_nbr and numberx have exactly fifteen digits, with leading zeros, as in
    UPDATE_LOCATION 000000000000007 42. All other numbers have no leading zeros.
  - A line that was written on Windows ends with a carriage return. It can't be
    seen: head -n 1 FILE | od -c shows it as \\r, tr -d '\\r' takes it away. So
    with the bytes 357 273 277 (a byte order mark) at the front of a file, which
    tail -c +4 takes away.
  - Between two fields stands one space, and none at the line's ends. Words are
    as they are, in capitals.
  - Rows and calls are parted by a line with a dot. Where it is missing, the
    first call is taken for a row, as above; where no call follows either, the
    number is one more than that of the last line. With --gen there are no rows
    and no such line.
  - In a history a client ends a call that it has open, and a reply has as many
    values as the call's columns."
    )
}

/// Instructions as bytes, and assembly texts.
pub(crate) fn about_texts(number: u64) -> Explanation
    requires least { 6 ≤ number }
    requires most { number ≤ 12 }
    ensures own { result.number ≡ number }
    ensures named { result.name.now ≡ name_of number }
{
    row_of!(number,
        6 "BadOp" "there is no such op"
            "  $ printf 'TPM\\1\\1\\1A\\0\\0\\1\\026\\0\\0\\0\\0\\0\\0\\0' | tatp check
  tatp: 6 BadOp 0 0"
            "  The bytes of the instruction begin with an op that isn't 01 to 15 (hex), or
  16 in version 2. Behind the name are the numbers of the procedure and of the
  instruction, from 0. Make the module from a text, by tatp asm."
        7 "UnusedNotZero" "a part that the op doesn't use isn't 0"
            "  $ printf 'TPM\\1\\1\\1A\\0\\0\\1\\024\\1\\0\\0\\0\\0\\0\\0' | tatp check
  tatp: 7 UnusedNotZero 0 0"
            "  All bytes of an instruction that its op doesn't use are 0; DONE, as here,
  uses none but its first. Behind the name are the numbers of the procedure and
  of the instruction, from 0. Make the module from a text, by tatp asm."
        8 "BadRegister" "a register is out of its range"
            "  $ printf 'TPM\\1\\1\\1A\\0\\0\\1\\023\\020\\0\\0\\0\\0\\0\\0' | tatp check
  tatp: 8 BadRegister 0 0"
            "  There are r0 to r15. FCFW reads a key from three registers in a row, so its
  last is r0 to r13; that of INS is r0 to r11. Behind the name are the numbers
  of the procedure and of the instruction, from 0."
        9 "Syntax" "a line of no form, or in a place where it isn't allowed"
            "  $ printf 'proc A 0\\n  DONE\\nend\\n' | tatp asm
  tatp: 9 Syntax 2"
            "  Behind the name is the number of the line, from 1. Lines have no indent, no
  comment and no carriage return; the operands have commas between them and no
  spaces; registers are r0 to r15. A procedure is proc NAME ARITY, at least one
  instruction, and end, which the last procedure has to have too. A text with
  LOOP begins with a line version 2."
        10 "NoSuchLabel" "a line names a label that the procedure doesn't have"
            "  $ printf 'proc A 0\\nJMP @last\\nDONE\\nend\\n' | tatp asm
  tatp: 10 NoSuchLabel 2"
            "  Behind the name is the number of the line that names it, from 1. A label is
  a line of its own, as last: here, below the jump and in the same procedure;
  capitals matter."
        11 "LabelTwice" "a label that the procedure has already"
            "  $ printf 'proc A 0\\nx:\\nOUT r0\\nx:\\nDONE\\nend\\n' | tatp asm
  tatp: 11 LabelTwice 4"
            "  Behind the name is the number of the second line with it, from 1. Take
  another name. Procedures share no labels."
        12 "TooLong" "the seventeenth procedure, or the 257th instruction of one"
            "  $ (echo 'proc A 0'; yes DONE | head -n 257; echo end) | tatp asm
  tatp: 12 TooLong 258"
            "  Behind the name is the number of the line, from 1. A module has at most 16
  procedures of 256 instructions each: make two of one."
    )
}

/// Modules as bytes.
pub(crate) fn about_modules(number: u64) -> Explanation
    requires least { 13 ≤ number }
    requires most { number ≤ 17 }
    ensures own { result.number ≡ number }
    ensures named { result.name.now ≡ name_of number }
{
    row_of!(number,
        13 "Truncated" "the bytes end before a field is whole"
            "  $ printf 'TPM\\1' | tatp check
  tatp: 13 Truncated 0 0"
            "  Behind the name are the numbers of the procedure and of the instruction that
  aren't whole, from 0. Make the module anew, or copy it whole: nothing that
  takes it for text may come between."
        14 "BadMagic" "the bytes begin with another magic"
            "  $ printf 'proc A 0\\nDONE\\nend\\n' | tatp check
  tatp: 14 BadMagic 0 0"
            "  The input is no module. dis and check read what tatp asm writes; a text, as
  here, is for asm."
        15 "Extra" "bytes follow the module"
            "  $ (printf 'proc A 0\\nDONE\\nend\\n' | tatp asm; echo) | tatp check
  tatp: 15 Extra 0 0"
            "  An input is one module and nothing more. For several procedures assemble one
  text that has them all."
        16 "NameTwice" "an earlier procedure has the name"
            "  $ printf 'proc A 0\\nDONE\\nend\\nproc A 0\\nDONE\\nend\\n' | tatp asm
  tatp: 16 NameTwice 1 0"
            "  Behind the name is the number of the later procedure, from 0. Take another
  name."
        17 "BadHeader" "a field is out of its range"
            "  $ printf 'TPM\\1\\0' | tatp check
  tatp: 17 BadHeader 0 0"
            "  A module has 1 to 16 procedures; each has a name of 1 to 24 capitals and
  underscores, 0 to 8 arguments and 1 to 256 instructions. Behind the name is
  the number of the procedure, from 0."
    )
}

/// The loader's rules.
pub(crate) fn about_rules(number: u64) -> Explanation
    requires least { 18 ≤ number }
    requires most { number ≤ 24 }
    ensures own { result.number ≡ number }
    ensures named { result.name.now ≡ name_of number }
{
    row_of!(number,
        18 "BackwardJump" "a JMP or JZ to itself or backwards"
            "  $ printf 'proc A 0\\nx:\\nJMP @x\\nDONE\\nend\\n' | tatp asm
  tatp: 18 BackwardJump 0 0"
            "  Put the label below the jump. LOOP alone goes back, in a text whose first
  line is version 2. Behind the name are the numbers of the procedure and of the
  instruction, from 0."
        19 "BadTarget" "a jump past the last instruction"
            "  $ printf 'proc A 0\\nJZ r0,@x\\nDONE\\nx:\\nend\\n' | tatp asm
  tatp: 19 BadTarget 0 0"
            "  Below the label there has to be an instruction, as FAIL #1. Behind the name
  are the numbers of the procedure and of the jump, from 0."
        20 "FixedColumn" "a column above 50, or a PUT to a fixed one"
            "  $ printf 'proc A 0\\nPUT #1,r0\\nDONE\\nend\\n' | tatp asm
  tatp: 20 FixedColumn 0 0"
            "  There are the columns 0 to 50. Those of primary keys, and sub_nbr, are never
  set: 0, 1, 34, 35, 40, 41, 46, 47, 48. A forwarding can be deleted and
  inserted with another start_time. Behind the name are the numbers of the
  procedure and of the instruction, from 0."
        21 "NoSuchArgument" "the procedure takes no such argument"
            "  $ printf 'proc A 1\\nARG r0,#1\\nDONE\\nend\\n' | tatp asm
  tatp: 21 NoSuchArgument 0 0"
            "  Arguments count from 0. The line proc NAME ARITY says how many there are.
  Behind the name are the numbers of the procedure and of the instruction, from
  0."
        22 "TooManyOut" "in version 1, the 41st OUT of a procedure"
            "  $ (echo 'proc A 0'; yes 'OUT r0' | head -n 41; echo DONE; echo end) | tatp asm
  tatp: 22 TooManyOut 0 40"
            "  A reply has at most 40 values. Make two procedures of one. In version 2 only
  those are counted that a call makes."
        23 "TooManyWrites" "in version 1, the 65th of PUT, INS and DEL of a procedure"
            "  $ (echo 'proc A 0'; yes DEL | head -n 65; echo DONE; echo end) | tatp asm
  tatp: 23 TooManyWrites 0 64"
            "  A procedure has at most 64 instructions that change rows, since what they
  change is kept until it ends. Make two procedures of one. In version 2 only
  those are counted that a call makes."
        24 "NoEnd" "the last instruction is neither DONE nor FAIL"
            "  $ printf 'proc A 0\\nOUT r0\\nend\\n' | tatp asm
  tatp: 24 NoEnd 0 0"
            "  Put DONE below the last instruction, or FAIL and a number. Behind the name
  are the numbers of the procedure and of its last instruction, from 0."
    )
}

/// Populations, and arguments of calls.
pub(crate) fn about_openings(number: u64) -> Explanation
    requires least { 25 ≤ number }
    requires most { number ≤ 28 }
    ensures own { result.number ≡ number }
    ensures named { result.name.now ≡ name_of number }
{
    row_of!(number,
        25 "NumberTwice" "two subscribers have one sub_nbr"
            "  In the library: Directory::build of rows that have a sub_nbr twice. The
  program tests its rows first: tatp: 27 NotClean A2 and the number."
            "  Find the two rows by the number, and give one another: each subscriber has a
  sub_nbr of its own."
        26 "BadArgument" "an argument of a call is outside its values; its place follows"
            "  $ echo 'GET_ACCESS_DATA 1 5' | tatp call --gen 1
  REFUSED 26 BadArgument 1"
            "  Places count from 0, so here it is the ai_type, which is 1 to 4. An argument
  has the values of the column that it names; an s_id may be any number. The
  call wasn't run. Of a history the line is told too, before the place."
        27 "NotClean" "rows don't pass the audits; the verdict follows"
            "  $ grep -v A examples/first-run.txt | tatp call
  tatp: 27 NotClean A6 1"
            "  The verdict names the first audit that fails and its least key. A1: 1 to the
  number of subscribers are each the s_id of one. A2: two have a sub_nbr. A3: a
  row is there twice. A4: the row that it refers to is missing. A5: a value is
  outside its column's values. A6: too few or too many rows of a subscriber.
  tatp audit tells the same, and runs nothing."
        28 "TooMany" "more than 1,000,000 subscribers"
            "  An input of call, trace or judge has 1,000,001 rows that begin with S."
            "  Leave some out, from the highest s_id on, with all their rows. tatp audit
  takes more."
    )
}

/// Machines and their extents.
pub(crate) fn about_machines(number: u64) -> Explanation
    requires least { 29 ≤ number }
    requires most { number ≤ 34 }
    ensures own { result.number ≡ number }
    ensures named { result.name.now ≡ name_of number }
{
    row_of!(number,
        29 "Running" "a call runs"
            "  $ printf 'submit 0 CALL\\nsubmit 1 CALL\\nbegin 0\\nbegin 0\\n' |
      sed 's/CALL/GET_ACCESS_DATA 1 1/' | tatp trace --gen 1 | tail -n 1
  REFUSED 29 Running"
            "  A partition runs one call at a time. Make steps until it answers ENDED, then
  begin the next."
        30 "Stopped" "the machine is stopped"
            "  $ printf 'stop 0\\nstop 0\\n' | tatp trace --gen 1 | tail -n 1
  REFUSED 30 Stopped"
            "  A stopped machine makes no step, and begins no call, until it is resumed:
  resume 0. The line one 0 makes a single step all the same."
        31 "NotRunning" "no call runs"
            "  $ echo 'step 0' | tatp trace --gen 1
  REFUSED 31 NotRunning"
            "  Begin a call first: submit, then begin. A call that ended runs no more."
        32 "AtBreak" "the next instruction has a breakpoint"
            "  $ printf 'submit 0 GET_ACCESS_DATA 1 1\\nbegin 0\\nbreak 0 2 0\\nstep 0\\n' |
      tatp trace --gen 1 | tail -n 1
  REFUSED 32 AtBreak"
            "  Look at the call (look 0), then go on: one 0 makes the step, or clear 0 2 0
  takes the breakpoint away."
        33 "NotHere" "the extent, or the home, isn't here"
            "  $ echo 'take 1 1' | tatp trace --gen 1
  REFUSED 33 NotHere"
            "  Extent E has the subscribers 64 (E - 1) + 1 to 64 E and opens in partition
  (E - 1) mod P. It may have been taken since, or there may be no such extent:
  the lines PARCEL and LANDED tell where it is."
        34 "Pinned" "a call runs on a home of the extent"
            "  $ printf 'submit 0 GET_ACCESS_DATA 1 1\\nbegin 0\\ntake 0 1\\n' |
      tatp trace --gen 1 | tail -n 1
  REFUSED 34 Pinned"
            "  Take the extent once the call has ended: steps 0 16, until it says ENDED.
  Any other extent can leave meanwhile."
    )
}

/// Moves, breakpoints, partitions and clients.
pub(crate) fn about_places(number: u64) -> Explanation
    requires least { 35 ≤ number }
    requires most { number ≤ 40 }
    ensures own { result.number ≡ number }
    ensures named { result.name.now ≡ name_of number }
{
    row_of!(number,
        35 "MoveCountFull" "the extent was moved 65,535 times"
            "  $ yes 'take 0 1,give 0 1' | tr , '\\n' | head -n 131071 |
      tatp trace --gen 1 | tail -n 1
  REFUSED 35 MoveCountFull"
            "  The extent stays where it is, and calls on it go on. Counts begin anew where
  its rows are opened anew."
        36 "TooManyBreaks" "there are eight breakpoints"
            "  $ seq -f 'break 0 2 %g' 9 | tatp trace --gen 1 | tail -n 1
  REFUSED 36 TooManyBreaks"
            "  Take one away: clear, with the numbers of its line break. Each partition has
  its own eight."
        37 "NoExtent" "a range begins with 0, is empty or goes past the last subscriber"
            "  In the library: Routes::move_range of the subscribers 5 to 131, where there
  are 130."
            "  Give the first and the last s_id of the range, 1 to the number of
  subscribers."
        38 "NoPartition" "there is no such partition"
            "  $ echo 'begin 2' | tatp trace --gen 1
  REFUSED 38 NoPartition"
            "  Partitions count from 0, so the last of two is 1. There are two where
  --partitions doesn't say otherwise, and at most 16."
        39 "SamePartition" "a range would be moved to where it is"
            "  In the library: Routes::move_range from partition 0 to partition 0."
            "  Name another partition, or do nothing: the range is there."
        40 "NoClient" "there is no such client"
            "  $ echo 'submit 4 GET_ACCESS_DATA 1 1' | tatp trace --gen 1
  REFUSED 40 NoClient"
            "  Clients count from 0, so the last of four is 3. There are four where
  --clients doesn't say otherwise, and at most 64."
    )
}

/// Queues, and what may end a command.
pub(crate) fn about_queues(number: u64) -> Explanation
    requires least { 41 ≤ number }
    requires most { number ≤ 46 }
    ensures own { result.number ≡ number }
    ensures named { result.name.now ≡ name_of number }
{
    row_of!(number,
        41 "ClientBusy" "a call of the client is under way"
            "  $ yes 'submit 0 GET_ACCESS_DATA 1 1' | head -n 2 |
      tatp trace --gen 1 | tail -n 1
  REFUSED 41 ClientBusy"
            "  A client makes one call after another. Let its call end (begin, then steps),
  deny it, or submit as another client."
        42 "NothingQueued" "no call waits at the partition"
            "  $ echo 'begin 0' | tatp trace --gen 1
  REFUSED 42 NothingQueued"
            "  Submit a call first. QUEUED P, and AWAY P, say at which partition it waits."
        43 "NotInHand" "no such parcel, or landing, is under way"
            "  $ echo 'give 0 1' | tatp trace --gen 1
  REFUSED 43 NotInHand"
            "  take, then give, then route: give lands an extent that was taken, and route
  E M tells a landing, with the M of its line LANDED."
        44 "ExtentMissing" "after a run the extent that follows is nowhere"
            "  tatp: 44 ExtentMissing 3: when all threads of bench had ended, extent 3 was
  neither in a partition nor under way."
            "  No input causes this: the program or the machine is at fault. Please report
  the command line."
        45 "Unsettled" "a run isn't one history of its calls; the cause follows"
            "  tatp: 45 Unsettled ReplyDiffers 2 17: in a run of bench client 2 received
  another reply to its call 17 than the log of the extent has."
            "  No input causes this: the program or the machine is at fault. Please report
  the command line and the cause."
        46 "NoMemory" "memory ran out"
            "  REFUSED 46 NoMemory, as the reply to a call: it was not run, and has left
  nothing. tatp: 46 NoMemory: the command ended."
            "  Make a refused call again. A command that ended needs more memory (ulimit -v
  shows a limit) or less to do: a completed call is kept, in about 460 bytes,
  and a subscriber takes about 3 KB. Split a long input of calls."
    )
}

/// Streams, procedures and sites.
pub(crate) fn about_streams(number: u64) -> Explanation
    requires least { 47 ≤ number }
    requires most { number ≤ 52 }
    ensures own { result.number ≡ number }
    ensures named { result.name.now ≡ name_of number }
{
    row_of!(number,
        47 "ReadFault" "the input can't be read, or is longer than is read"
            "  $ tatp check <&-
  tatp: 47 ReadFault"
            "  See that standard input is open and is no folder. At most 134,217,728 bytes
  are read; wc -c counts those of a file. For a longer input tell call, trace or
  audit by --input-limit how many to read; asm, dis and check read no more. Of
  a history judge reads up to 1,099,511,627,776."
        48 "NoProcedure" "there is no such procedure, or it takes more or fewer arguments"
            "  $ echo 'raw 0 4 id 1 1' | tatp trace --gen 1
  REFUSED 48 NoProcedure"
            "  The seven transactions are the procedures 0 to 6. A line raw names the key,
  and then all arguments of the procedure: procedure 4, as here, has two."
        49 "NotStopped" "the machine isn't stopped"
            "  $ echo 'resume 0' | tatp trace --gen 1
  REFUSED 49 NotStopped"
            "  There is nothing to resume: the machine makes steps. stop 0 stops it."
        50 "NoSlot" "the partition has no empty slot for the extent"
            "  In the library: Site::give of an extent that the site has already, or of one
  above the number of its extents. The extent comes back with the refusal."
            "  Give it to a site that was opened for as many extents and doesn't have this
  one."
        51 "StampFull" "there is no stamp, or no number of a call, above the last"
            "  The last stamp is 18446744073709551615."
            "  At a million calls a second that takes half a million years. In the library:
  Item::seen says which stamps a client has seen; it must be one that it got."
        52 "WriteFault" "the output can't be written"
            "  $ printf 'proc A 0\\nDONE\\nend\\n' | tatp asm > /dev/full
  tatp: 52 WriteFault"
            "  The disk is full, the output is closed, or who read it has ended. What was
  written is the front of what had to be. Make room, and run it again."
    )
}

/// Loops, logs, homes and threads.
pub(crate) fn about_logs(number: u64) -> Explanation
    requires least { 53 ≤ number }
    requires most { number ≤ 57 }
    ensures own { result.number ≡ number }
    ensures named { result.name.now ≡ name_of number }
{
    row_of!(number,
        53 "ForwardLoop" "a LOOP to a later instruction"
            "  $ printf 'version 2\\nproc A 0\\nLOOP r0,@x\\nx:\\nDONE\\nend\\n' | tatp asm
  tatp: 53 ForwardLoop 0 0"
            "  Put the label at the LOOP, or above it; JMP and JZ go down. Behind the name
  are the numbers of the procedure and of the instruction, from 0."
        54 "LogEnded" "the extent is mixed"
            "  $ printf 'raw 0 4 id 1 2 7\\nbegin 0\\nsteps 0 4\\ncheckpoint 0 1\\n' |
      tatp trace --gen 1 | tail -n 1
  REFUSED 54 LogEnded"
            "  Checkpoint an extent before such calls. A log tells transactions alone, and
  ends with the first call that is none."
        55 "ChapterCountFull" "the extent handed out 65,535 chapters"
            "  $ yes 'checkpoint 0 0' | head -n 65536 | tatp trace --gen 1 | tail -n 1
  REFUSED 55 ChapterCountFull"
            "  Make fewer checkpoints. The extent goes on without them."
        56 "WrongHome" "the home of a call isn't the subscriber whom its key names"
            "  In the library: Site::offer_begin of an item whose home is 2 and whose key is
  the s_id 1."
            "  Take the home from the directory: Directory::home_of the key."
        57 "NoThread" "a thread can't be started"
            "  bench, where ulimit -u allows 10 threads in all."
            "  bench starts a thread for each partition, threads for the clients, and two
  more: take fewer of --partitions and --clients, or allow more (ulimit -u)."
    )
}
