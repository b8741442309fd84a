//! The lines of a text, one after another.
ghost use Rattle.std.specs.Prelude.{◌≡◌, ◌<◌, ◌∷◌, [], MatchOption, IfNone, length};
ghost use Rattle.tatp_lines.specs.Lines.{lines_of};

use std::marker::Model;

/// What is left of a text, line by line. Contracts see the list of the lines left.
///
/// Unlike `str::lines` it takes no carriage return off a line.
#[derive(Debug, Drop)]
pub struct Lines<'a> {
    rest: &'a str,
}

impl<'a> Model for Lines<'a> {
    ghost use Rattle.std.specs.Prelude.{List, ℕ};
    ghost use Rattle.tatp_lines.specs.Lines.{lines_of};

    ghost Value = { List (List ℕ) };

    ghost view = { λ l. lines_of l.rest.now };
}

impl<'a> Lines<'a> {
    /// The lines of a text.
    pub fn new(text: &'a str) -> Lines<'a>
        ensures { result ≡ lines_of text.now }
    {
        Lines { rest: text }
    }

    /// The next line. None is left from the first `None` on.
    #[tactic(auto, using(crate::proofs::LineLaws::lines_of_none))]
    pub fn next(&mut self) -> Option<&'a str>
        ensures line { MatchOption result (self.old ≡ []) (λ line. self.old ≡ line.now ∷ self.new) }
        ensures end { IfNone result (self.new ≡ []) }
    {
        if self.rest.is_empty() {
            return None;
        }
        let (line, rest) = first_line(self.rest);
        self.rest = rest;
        Some(line)
    }
}

/// The first line of a text, and what follows it.
fn first_line(text: &str) -> (&str, &str)
    requires { 0 < length text.now }
    ensures { lines_of text.now ≡ result.0.now ∷ lines_of result.1.now }
{
    match text.split_once('\n') {
        Some((line, rest)) => (line, rest),
        None => (text, ""),
    }
}
