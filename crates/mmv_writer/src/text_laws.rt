//! What texts, drafts and images say of each other.
ghost use Rattle.mmv_writer.specs.TextLaws.{MadeTextIsDumped, WrittenTextIsRead, TextComesBack};

/// The image of a text says what the text said, with all its strings.
pub fn made_text_is_dumped()
    ensures { MadeTextIsDumped }
{}

/// The text of a draft is read as that draft.
pub fn written_text_is_read()
    ensures { WrittenTextIsRead }
{}

/// The text of a draft that has all its strings comes back from its image.
pub fn make_then_dump_gives_the_text_again()
    ensures { TextComesBack }
{}
