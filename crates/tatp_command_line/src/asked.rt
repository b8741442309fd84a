//! What the words of the command line are answered with.
use tatp_tasks::Task;

/// What the words of the command line are answered with.
#[derive(Debug, Drop)]
pub enum Asked<'a> {
    /// They ask for this task, which is to be done.
    Do(Task<'a>),
    /// They ask for this text, which is help or the version. It goes to standard output, and the
    /// status is 0.
    Show(String),
    /// They are refused, and this text says why. It goes to standard error, and the status is 2.
    Refuse(String),
}
