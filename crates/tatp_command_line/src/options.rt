//! The options that take a number.
ghost use Rattle.std.specs.Prelude.{◌≡◌, ◌==◌, ◌≤◌, false, SomeIff, OkIff, IfOk, IfSome, slice_index};
ghost use Rattle.std.specs.Option.{option_map};
ghost use Rattle.std.specs.Str.Parse.{digits_value};
ghost use Rattle.clap.specs.Matches.{found_of};
ghost use Rattle.clap.specs.Walk.{rows_of, rule_of, first_of};
ghost use Rattle.tatp_command_line.specs.CommandLine.{number_rule};
ghost use Rattle.tatp_command_line.specs.Numbers.{IsNumberIn, asked_by, text_asked, HasNumber, number_asked, HasNumberIfGiven, number_if_given};
ghost use Rattle.tatp_command_line.specs.Options.{is_given, part};

use clap::{Arg, ArgMatches};
use std::alloc::Global;
use std::fmt;

/// An option that takes a number.
#[derive(Clone, Copy, Debug, PartialEq, Eq)]
pub(crate) struct NumberOption {
    /// The option's name, which is typed after two hyphens.
    pub(crate) name: &'static str,
    /// The word for its number in help and usage.
    value: &'static str,
    /// The least number that it takes.
    least: u64,
    /// The greatest number that it takes.
    most: u64,
    /// The text that counts where the option isn't given.
    default: Option<&'static str>,
    /// Whether the option has to be given.
    required: bool,
    help: &'static str,
}

/// A row of the table below: an option with its range, which its help shows.
macro_rules! number_option {
    (
        $name:literal $value:literal in $least:literal to $most:literal,
        $default:expr, $required:literal, $help:literal
    ) => {
        NumberOption {
            name: $name,
            value: $value,
            least: $least,
            most: $most,
            default: $default,
            required: $required,
            help: concat!($help, " (", $least, " to ", $most, ")"),
        }
    };
}

pub(crate) const GEN: NumberOption = number_option!(
    "gen" "N" in 1 to 1000000, None, false,
    "Draw the rows of N subscribers, so that no line of the input is a row"
);

pub(crate) const SUBSCRIBERS: NumberOption = number_option!(
    "subscribers" "N" in 1 to 1000000, None, true,
    "Let there be N subscribers"
);

pub(crate) const SEED: NumberOption = number_option!(
    "seed" "S" in 0 to 18446744073709551615, Some("1"), false,
    "Draw all that is drawn from the random words of seed S"
);

pub(crate) const PARTITIONS: NumberOption = number_option!(
    "partitions" "P" in 1 to 16, Some("2"), false,
    "Open the rows in P partitions"
);

pub(crate) const CLIENTS: NumberOption = number_option!(
    "clients" "C" in 1 to 64, Some("4"), false,
    "Let there be C clients"
);

pub(crate) const CALLS: NumberOption = number_option!(
    "calls" "K" in 1 to 100000, None, true,
    "Let each client make K calls, one after another"
);

pub(crate) const MOVES: NumberOption = number_option!(
    "moves" "M" in 0 to 100000, Some("0"), false,
    "Move M ranges of subscribers between partitions meanwhile"
);

pub(crate) const STOPS: NumberOption = number_option!(
    "stops" "T" in 0 to 100000, Some("0"), false,
    "Stop, step and resume partitions T times meanwhile"
);

pub(crate) const CHAPTER: NumberOption = number_option!(
    "chapter" "K" in 1 to 1000000, Some("1000"), false,
    "Checkpoint an extent when a call on it has ended and its log has K calls or more"
);

/// The option of `rows`, where it has to be given.
pub(crate) const ROWS_GEN: NumberOption = number_option!(
    "gen" "N" in 1 to 1000000, None, true,
    "Draw the rows of N subscribers"
);

/// The option of `calls`.
pub(crate) const DRAWN_CALLS: NumberOption = number_option!(
    "calls" "K" in 1 to 1000000000, None, true,
    "Draw K calls"
);

pub(crate) const CLIENT: NumberOption = number_option!(
    "client" "C" in 0 to 63, Some("0"), false,
    "Draw the calls of client C, counted from 0"
);

pub(crate) const INPUT_LIMIT: NumberOption = number_option!(
    "input-limit" "B" in 1 to 1099511627776, Some("134217728"), false,
    "Read at most B bytes of the input"
);

/// The option of `judge`.
pub(crate) const MOST: NumberOption = number_option!(
    "most" "M" in 1 to 1000000, Some("65536"), false,
    "Keep at most M configurations of one subscriber"
);

/// Which of the parts of a history is judged.
pub(crate) const PART: NumberOption = number_option!(
    "part" "I" in 1 to 4294967295, None, false,
    "Judge the part I of K: the subscribers S of which S mod K is I - 1; at most K"
);

/// How many parts there are.
pub(crate) const PARTS: NumberOption = number_option!(
    "parts" "K" in 1 to 4294967295, Some("1"), false,
    "Let a history have K parts"
);

/// The option for one of `parts` parts. Where there are several it has to be given.
pub(crate) fn part_of(parts: u64) -> NumberOption
    ensures { asked_by result ≡ part parts }
{
    NumberOption {
        name: PART.name,
        value: PART.value,
        least: PART.least,
        most: parts,
        default: if parts == 1 { Some("1") } else { PART.default },
        required: PART.required,
        help: PART.help,
    }
}

/// What is wrong with an option: its text is no number in its range.
#[derive(Clone, Copy, Debug, PartialEq, Eq)]
pub(crate) struct BadNumber<'a> {
    option: NumberOption,
    text: &'a str,
}

impl fmt::Display for BadNumber<'_> {
    fn fmt<W: fmt::Write>(&self, f: &mut fmt::Formatter<W>) -> fmt::Result {
        let text = self.text;
        let NumberOption {
            name,
            value,
            least,
            most,
            ..
        } = self.option;
        write!(f, "invalid value '{text}' for '--{name} <{value}>': ")?;
        if is_digits(text) {
            write!(f, "{text} is not in {least}..={most}")
        } else if text.is_empty() {
            f.write_str("it has to be given")
        } else {
            f.write_str("a number is written in digits alone, without a sign")
        }
    }
}

/// Whether a text is digits alone.
fn is_digits(text: &str) -> bool {
    !text.is_empty() && text.bytes().all(|byte| byte.is_ascii_digit())
}

/// Whether a text begins with a plus sign, which a number of the command line may not have.
fn has_sign(text: &str) -> bool
    ensures { result ≡ (slice_index text.now 0 == 43) }
{
    match text.as_bytes().first() {
        Some(byte) => *byte == b'+',
        None => false,
    }
}

/// The number that a text is. `None` means that it isn't digits alone, or isn't in the range.
fn number_in(text: &str, least: u64, most: u64) -> Option<u64>
    ensures { SomeIff result (IsNumberIn least most text.now) (digits_value 10 text.now) }
{
    if has_sign(text) {
        return None;
    }
    match text.parse::<u64>() {
        Ok(number) if least <= number && number <= most => Some(number),
        _ => None,
    }
}

/// The text that an option or a word is given, or has by default.
pub(crate) fn given<'a>(options: &ArgMatches<'a>, name: &str) -> Option<&'a str>
    ensures { option_map (λ text. text.now) result
        ≡ first_of name.now (rows_of (found_of options.now)) }
{
    options.get_str(name)
}

/// Whether a switch is given.
pub(crate) fn is_given(options: &ArgMatches<'_>, name: &str) -> bool
    ensures { result ≡ is_given name.now (rows_of (found_of options.now)) }
{
    match given(options, name) {
        Some(text) => text == "true",
        None => false,
    }
}

impl NumberOption {
    /// The argument that the parse of the words looks for. It takes any text, which is read
    /// afterwards.
    pub(crate) fn arg<'a>(&self, alloc: Global) -> Arg<'a>
        ensures rule { rule_of result ≡ number_rule (asked_by self.now) }
        ensures own { result.global ≡ false }
    {
        let arg = Arg::new(alloc, self.name)
            .value_name(self.value)
            .long(self.name)
            .required(self.required)
            .help(self.help);
        match self.default {
            Some(text) => arg.default_value(text),
            None => arg,
        }
    }

    /// The number that a text is. `Err` means that it is no number in the option's range.
    pub(crate) fn read<'a>(&self, text: &'a str) -> Result<u64, BadNumber<'a>>
        ensures { OkIff result (IsNumberIn self.now.least self.now.most text.now)
            (digits_value 10 text.now) }
    {
        match number_in(text, self.least, self.most) {
            Some(number) => Ok(number),
            None => Err(BadNumber {
                option: *self,
                text,
            }),
        }
    }

    /// The text that the option is given, or else its default.
    fn text<'a>(&self, options: &ArgMatches<'a>) -> Option<&'a str>
        ensures { option_map (λ text. text.now) result
            ≡ text_asked (asked_by self.now) (rows_of (found_of options.now)) }
    {
        match given(options, self.name) {
            Some(text) => Some(text),
            None => self.default,
        }
    }

    /// The number that is asked for, of an option that is required or has a default. `Err` means
    /// that the text is no number in the option's range.
    pub(crate) fn number<'a>(&self, options: &ArgMatches<'a>) -> Result<u64, BadNumber<'a>>
        ensures asked { let given = rows_of (found_of options.now) in
            OkIff result (HasNumber (asked_by self.now) given)
            (number_asked (asked_by self.now) given) }
        ensures least { IfOk result (λ number. self.now.least ≤ number) }
        ensures most { IfOk result (λ number. number ≤ self.now.most) }
    {
        match self.text(options) {
            Some(text) => self.read(text),
            // The parse has tested that what is always required is given.
            None => Err(BadNumber {
                option: *self,
                text: "",
            }),
        }
    }

    /// The number that is asked for, if one is given. `Err` means that the text is no number in the
    /// option's range.
    pub(crate) fn number_if_given<'a>(
        &self,
        options: &ArgMatches<'a>,
    ) -> Result<Option<u64>, BadNumber<'a>>
        ensures asked { let given = rows_of (found_of options.now) in
            OkIff result (HasNumberIfGiven (asked_by self.now) given)
            (number_if_given (asked_by self.now) given) }
        ensures least { IfOk result (λ found. IfSome found (λ number. self.now.least ≤ number)) }
        ensures most { IfOk result (λ found. IfSome found (λ number. number ≤ self.now.most)) }
    {
        match given(options, self.name) {
            None => Ok(None),
            Some(text) => Ok(Some(self.read(text)?)),
        }
    }
}
