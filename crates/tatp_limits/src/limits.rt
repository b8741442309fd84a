// trusted: read it
//! How much there may be of each thing. Contracts and definitions cite these names, so a number
//! changed here changes what is promised; [`numbers`] says which they are.
ghost use Rattle.std.specs.Prelude.{◌≡◌};

/// The most subscribers of a population.
pub const MAX_SUBSCRIBERS: u64 = 1_000_000;

/// How many subscribers in a row an extent has, the last one perhaps fewer.
pub const EXTENT_SUBSCRIBERS: u64 = 64;

/// The most partitions that the extents are dealt over.
pub const MAX_PARTITIONS: usize = 16;

/// The most clients that call at once.
pub const MAX_CLIENTS: usize = 64;

/// How often an extent may be moved: its number of moves has 16 bits.
pub const MAX_EXTENT_MOVES: u16 = 65_535;

/// How many chapters of its log an extent may hand out: their number has 16 bits.
pub const MAX_EXTENT_CHAPTERS: u16 = 65_535;

/// The most breakpoints of a partition's machine.
pub const MAX_BREAKPOINTS: usize = 8;

/// How many registers a call has.
pub const REGISTERS: usize = 16;

/// The most steps of a call, the one that ends it among them.
pub const MAX_STEPS: usize = 4_096;

/// The most values that a call puts out, and the most OUT of a procedure of version 1.
pub const MAX_OUTPUTS: usize = 40;

/// The most writes of a call, and the most of PUT, INS and DEL in a procedure of version 1.
pub const MAX_WRITES: usize = 64;

/// The most procedures of a module.
pub const MAX_PROCEDURES: usize = 16;

/// The most instructions of a procedure.
pub const MAX_INSTRUCTIONS: usize = 256;

/// The most arguments of a procedure.
pub const MAX_ARGUMENTS: usize = 8;

/// The most bytes of a procedure's name, and of a label in assembly text.
pub const MAX_NAME_BYTES: usize = 24;

/// The most bytes that are read from one input, where no other limit is asked for.
pub const MAX_INPUT_BYTES: usize = 134_217_728;

/// The most bytes that can be asked to be read from an input that is read line by line.
pub const MAX_INPUT_LIMIT: usize = 1_099_511_627_776;

/// The most calls that each client of `bench` makes.
pub const MAX_BENCH_CALLS: u64 = 100_000;

/// The most moves that `bench` tries.
pub const MAX_BENCH_MOVES: u64 = 100_000;

/// The most stops that `bench` makes.
pub const MAX_BENCH_STOPS: u64 = 100_000;

/// The most calls after which `bench` hands out an extent's log.
pub const MAX_BENCH_CHAPTER: u64 = 1_000_000;

/// The most calls of one client that can be drawn and written.
pub const MAX_DRAWN_CALLS: u64 = 1_000_000_000;

/// The most configurations of one subscriber that `judge` can be asked to keep.
pub const MAX_CONFIGURATIONS: usize = 1_000_000;

/// The most parts of a history of which `judge` can be asked to judge one.
pub const MAX_PARTS: u64 = 4_294_967_295;

/// The number that each limit is. Nothing runs here: the clauses are what an edit of a number
/// breaks.
pub fn numbers()
    ensures subscribers { MAX_SUBSCRIBERS ≡ 1000000 }
    ensures extent { EXTENT_SUBSCRIBERS ≡ 64 }
    ensures partitions { MAX_PARTITIONS ≡ 16 }
    ensures clients { MAX_CLIENTS ≡ 64 }
    ensures moves { MAX_EXTENT_MOVES ≡ 65535 }
    ensures chapters { MAX_EXTENT_CHAPTERS ≡ 65535 }
    ensures breakpoints { MAX_BREAKPOINTS ≡ 8 }
    ensures registers { REGISTERS ≡ 16 }
    ensures steps { MAX_STEPS ≡ 4096 }
    ensures outputs { MAX_OUTPUTS ≡ 40 }
    ensures writes { MAX_WRITES ≡ 64 }
    ensures procedures { MAX_PROCEDURES ≡ 16 }
    ensures instructions { MAX_INSTRUCTIONS ≡ 256 }
    ensures arguments { MAX_ARGUMENTS ≡ 8 }
    ensures name { MAX_NAME_BYTES ≡ 24 }
    ensures input { MAX_INPUT_BYTES ≡ 134217728 }
    ensures asked_input { MAX_INPUT_LIMIT ≡ 1099511627776 }
    ensures bench_calls { MAX_BENCH_CALLS ≡ 100000 }
    ensures bench_moves { MAX_BENCH_MOVES ≡ 100000 }
    ensures bench_stops { MAX_BENCH_STOPS ≡ 100000 }
    ensures bench_chapter { MAX_BENCH_CHAPTER ≡ 1000000 }
    ensures drawn_calls { MAX_DRAWN_CALLS ≡ 1000000000 }
    ensures configurations { MAX_CONFIGURATIONS ≡ 1000000 }
    ensures parts { MAX_PARTS ≡ 4294967295 }
{}
