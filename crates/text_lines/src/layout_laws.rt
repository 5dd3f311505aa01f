//! That lines and contents are read as they are written.
ghost use Rattle.text_lines.specs.LayoutLaws.{WrittenLineIsRead, WrittenLineIsOne, ReadLineIsLine, WrittenContentIsRead, ReadContentIsContent, WrittenContentIsWritten};

/// What is written of a line is read as that line, and it is one line.
pub fn written_line_is_read()
    ensures read { WrittenLineIsRead }
    ensures one { WrittenLineIsOne }
{}

/// What is read of a line's bytes is a line that may be written.
pub fn read_line_is_line()
    ensures { ReadLineIsLine }
{}

/// What is written of a value's content is read as that content exactly where the kind has such content, and it may
/// stand in a line.
pub fn written_content_is_read()
    ensures read { WrittenContentIsRead }
    ensures only { ReadContentIsContent }
    ensures written { WrittenContentIsWritten }
{}
