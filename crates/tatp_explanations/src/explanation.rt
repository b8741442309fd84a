//! What the refusals and faults of one number mean.
ghost use Rattle.std.specs.Prelude.{Some};
ghost use Rattle.tatp_explanations.specs.Texts.{explanation_text, line_text};

use std::fmt;

/// What the refusals and faults of one number mean. No text ends with a line feed, and no line
/// that is written of one is wider than 80 columns.
#[derive(Clone, Copy, Debug, PartialEq, Eq)]
pub(crate) struct Explanation {
    /// The number, which comes before the name wherever it is answered.
    pub number: u64,
    /// The name.
    pub name: &'static str,
    /// Where it is answered, in one clause.
    pub meaning: &'static str,
    /// How it comes about: commands, each after `$ `, with what they print; or in words.
    pub example: &'static str,
    /// What to do where it is answered.
    pub advice: &'static str,
}

impl fmt::Display for Explanation {
    ghost output = { λ row. Some (explanation_text row) };

    fn fmt<W: fmt::Write>(&self, f: &mut fmt::Formatter<W>) -> fmt::Result {
        let Explanation {
            number,
            name,
            meaning,
            example,
            advice,
        } = self;
        write!(
            f,
            "{number} {name}: {meaning}\n\nExample:\n{example}\n\nWhat to do:\n{advice}\n"
        )
    }
}

/// An explanation that is displayed as one line: number, name and meaning.
#[derive(Clone, Copy)]
pub(crate) struct Line<'a>(pub(crate) &'a Explanation);

impl fmt::Display for Line<'_> {
    ghost output = { λ line. Some (line_text line.0.now) };

    fn fmt<W: fmt::Write>(&self, f: &mut fmt::Formatter<W>) -> fmt::Result {
        let Explanation {
            number,
            name,
            meaning,
            ..
        } = self.0;
        write!(f, "{number} {name}: {meaning}\n")
    }
}
