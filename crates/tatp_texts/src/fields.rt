//! The fields of a line, one after another.
ghost use Rattle.std.specs.Prelude.{◌≡◌, ◌∷◌, [], MatchOption, IfNone};
ghost use Rattle.tatp_texts.specs.Text.{fields_of};

use std::marker::Model;

/// What is left of a line, whose fields are between single spaces. Contracts see the list of the
/// fields left.
#[derive(Debug, Drop)]
pub struct Fields<'a> {
    rest: Option<&'a str>,
}

impl<'a> Model for Fields<'a> {
    ghost use Rattle.std.specs.Prelude.{List, ℕ};
    ghost use Rattle.tatp_texts.specs.Text.{fields_left};

    ghost Value = { List (List ℕ) };

    ghost view = { λ f. fields_left f.rest };
}

impl<'a> Fields<'a> {
    /// The fields of a line. An empty line has one, which is empty.
    pub fn new(line: &'a str) -> Fields<'a>
        ensures { result ≡ fields_of line.now }
    {
        Fields { rest: Some(line) }
    }

    /// The next field. None is left from the first `None` on.
    pub fn next(&mut self) -> Option<&'a str>
        ensures field { MatchOption result (self.old ≡ [])
            (λ field. self.old ≡ field.now ∷ self.new) }
        ensures end { IfNone result (self.new ≡ []) }
    {
        let line = self.rest?;
        match line.split_once(' ') {
            Some((field, rest)) => {
                self.rest = Some(rest);
                Some(field)
            }
            None => {
                self.rest = None;
                Some(line)
            }
        }
    }
}
