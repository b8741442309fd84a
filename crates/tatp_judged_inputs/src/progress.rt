//! Reports of the progress of judging a history.

/// How many lines are judged from one report to the next.
const LINES: u64 = 1_000_000;

/// Is called after each line that is read, comments too, but for one that decides.
pub trait Progress {
    /// One more line was judged, which decided nothing.
    fn after_line(&mut self);
}

/// Reports on standard error how many lines were judged, at each 1,000,000 of them, or nothing: one
/// type for both, since each has all of the judging compiled for it.
#[derive(Drop)]
pub struct LineReporter<'a, R> {
    rt: &'a R,
    reports: bool,
    judged: u64,
}

impl<'a, R> LineReporter<'a, R> {
    /// Makes the reporter of a history of which no line is judged, or one that reports nothing.
    pub fn new(rt: &'a R, reports: bool) -> LineReporter<'a, R> {
        LineReporter {
            rt,
            reports,
            judged: 0,
        }
    }
}

impl<R: Eprint> Progress for LineReporter<'_, R> {
    fn after_line(&mut self) {
        self.judged = self.judged.saturating_add(1);
        if self.reports && self.judged % LINES == 0 {
            let judged = self.judged;
            // Where it can't be written, the history is judged without it.
            let _printed = eprintln!(self.rt; "{judged} lines judged");
        }
    }
}
