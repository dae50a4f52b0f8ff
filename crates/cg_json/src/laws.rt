//! Laws of JSON texts.
ghost use Rattle.cg_json.specs.Laws.{StringsEndAtTheirQuote, TextsAreLines, TextsReadBack};

/// A reader of JSON finds in the text of a value just this value, where arrays and objects nest no deeper than 128.
pub fn texts_read_back()
    ensures { TextsReadBack }
{}

/// The text of a value stands on one line.
pub fn texts_are_lines()
    ensures { TextsAreLines }
{}

/// A string's text has no bare quotation mark but its first and its last byte, and is read as the string's bytes.
pub fn strings_end_at_their_quote()
    ensures { StringsEndAtTheirQuote }
{}
