//! The front of a text, which says its version.
ghost use Rattle.std.specs.Prelude.{◌≡◌, ◌+◌, ◌≤◌, length};
ghost use Rattle.tatp_asm.specs.Heads.{head_of};
ghost use Rattle.tatp_asm.specs.Views.{head_view};

use tatp_instr::Version;
use tatp_lines::next_line;

/// A version, and what comes after the lines that say it.
#[derive(Clone, Copy, Debug)]
pub(crate) struct Head<'a> {
    pub version: Version,
    /// The number of the next line.
    pub line: u64,
    /// The bytes from that line on.
    pub left: &'a [u8],
}

/// What the first line that isn't empty says: it is `version 2`, or one of version 1.
#[tactic(auto, unfolding(crate::specs::Heads::head_of))]
pub(crate) fn read_head(text: &[u8]) -> Head<'_>
    ensures value { head_view result ≡ head_of text.now }
    ensures room { result.line + length result.left.now ≤ length text.now + 1 }
{
    let mut left = text;
    let mut line = 1;
    'lines: loop {
        match next_line(left) {
            Some((first, after)) if first.is_empty() => {
                left = after;
                line += 1;
            }
            Some((first, after)) if first == b"version 2".as_slice() => {
                return Head {
                    version: Version::Two,
                    line: line + 1,
                    left: after,
                };
            }
            _ => {
                return Head {
                    version: Version::One,
                    line,
                    left,
                };
            }
        }
    }
}
