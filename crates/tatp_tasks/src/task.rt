//! What the program is asked to do.
use crate::{BenchPlan, CallsPlan, JudgePlan, Population, RowsPlan, Setup};

/// What the program is asked to do: one of its commands.
#[derive(Clone, Copy, Debug, PartialEq, Eq)]
pub enum Task<'a> {
    /// Answer calls over this many partitions, 1 to `MAX_PARTITIONS`; `rows` says whether to write
    /// the rows after them. At most `input_limit` bytes are read, 1 to `MAX_INPUT_LIMIT`.
    Call {
        population: Population,
        partitions: u8,
        rows: bool,
        input_limit: usize,
    },
    /// Answer events; `echo` says whether to write each line before its answers.
    Trace {
        setup: Setup,
        echo: bool,
    },
    /// Assemble a text into a module.
    Asm,
    /// Print a module as a text.
    Dis,
    /// Test whether a module may be run.
    Check,
    /// Test whether rows are clean. At most `input_limit` bytes are read, 1 to `MAX_INPUT_LIMIT`.
    Audit {
        input_limit: usize,
    },
    /// Judge a history; `progress` says whether to report how far that is.
    Judge {
        plan: JudgePlan,
        progress: bool,
    },
    /// Run the benchmark; `progress` says whether to report how far it is, `history` whether to
    /// write its history.
    Bench {
        plan: BenchPlan,
        progress: bool,
        history: bool,
    },
    /// Write the rows of a drawn population.
    Rows(RowsPlan),
    /// Write the calls that a client of the benchmark draws.
    Calls(CallsPlan),
    /// Say what a refusal or a fault means, whose number or name this word is; without a word, say
    /// what each of them means.
    Explain(Option<&'a str>),
}
