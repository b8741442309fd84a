//! A law of the definitions. Nothing runs here: the clauses are the law.
ghost use Rattle.std.specs.Prelude.{◌≡◌, ℕ, ◌<◌, ◌^◌, Some, All, List};
ghost use Rattle.tatp_history.specs.declared.line.Line.{Line};
ghost use Rattle.tatp_history_lines.specs.Lines.{line_of};
ghost use Rattle.tatp_history_lines.specs.LineText.{IsTextOf, line_numbers};
ghost use Rattle.tatp_history_lines.specs.Open.{CallsOpen};

/// A text is read as a line exactly where it is the text of that line. So no text is that of two.
pub fn lines_are_read_exactly()
    ensures read { (opened : CallsOpen) (line : Line) (text : List ℕ)
        → All (λ n. n < 2 ^ 64) (line_numbers line)
        → IsTextOf opened line text → line_of opened text ≡ Some line }
    ensures printed { (opened : CallsOpen) (line : Line) (text : List ℕ)
        → line_of opened text ≡ Some line → IsTextOf opened line text }
{}
