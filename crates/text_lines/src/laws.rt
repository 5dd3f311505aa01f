//! That parts of lines are read as they are written.
ghost use Rattle.text_lines.specs.Laws.{NumberIsRead, WideNumberIsRead, IntIsRead, WholeIsRead, HexIsRead, OptionalNumberIsRead, OptionalIntIsRead, TextIsRead, HelpIsRead, NumberIsInLine, IntIsInLine, WholeIsInLine, HexIsInLine, OptionalNumberIsInLine, OptionalIntIsInLine, TextIsInLine, HelpIsInLine, TakesNumbers, TakesWideNumbers, TakesInts, TakesWhole, TakesHex, TakesOptionalNumbers, TakesOptionalInts, TakesTexts, TakesHelps};

/// What is written of a number is read as that number, with whatever stands behind its word.
pub fn written_number_is_read()
    ensures decimal { NumberIsRead }
    ensures wide { WideNumberIsRead }
    ensures int { IntIsRead }
    ensures whole { WholeIsRead }
    ensures hex { HexIsRead }
    ensures optional { OptionalNumberIsRead }
    ensures optional_int { OptionalIntIsRead }
{}

/// What is written of a text is read as that text, with whatever stands behind it.
pub fn written_text_is_read()
    ensures text { TextIsRead }
    ensures help { HelpIsRead }
{}

/// No line feed stands in what is written of a part.
pub fn written_part_is_in_line()
    ensures decimal { NumberIsInLine }
    ensures int { IntIsInLine }
    ensures whole { WholeIsInLine }
    ensures hex { HexIsInLine }
    ensures optional { OptionalNumberIsInLine }
    ensures optional_int { OptionalIntIsInLine }
    ensures text { TextIsInLine }
    ensures help { HelpIsInLine }
{}

/// What is read of a number is in its range.
pub fn read_number_is_in_range()
    ensures decimal { TakesNumbers }
    ensures wide { TakesWideNumbers }
    ensures int { TakesInts }
    ensures whole { TakesWhole }
    ensures hex { TakesHex }
    ensures optional { TakesOptionalNumbers }
    ensures optional_int { TakesOptionalInts }
{}

/// What is read of a text are bytes without a zero byte.
pub fn read_text_is_text()
    ensures text { TakesTexts }
    ensures help { TakesHelps }
{}
