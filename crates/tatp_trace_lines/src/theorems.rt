//! A law of the definitions. Nothing runs here: the clause is the law.
ghost use Rattle.std.specs.Prelude.{◌≡◌, ◌<◌, ◌^◌, Some, All};
ghost use Rattle.tatp_trace_lines.specs.declared.line.TraceLine.{TraceLine};
ghost use Rattle.tatp_trace_lines.specs.LineFields.{line_of};
ghost use Rattle.tatp_trace_lines.specs.LineText.{line_numbers, line_text, HasForm};

/// The text of a line is read as that line. So no text is that of two lines.
pub fn lines_are_read_as_printed()
    ensures { (line : TraceLine) → All (λ n. n < 2 ^ 64) (line_numbers line) → HasForm line
        → line_of (line_text line) ≡ Some line }
{}
