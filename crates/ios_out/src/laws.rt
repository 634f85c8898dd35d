//! Laws of the definitions alone, for the layers above.

ghost use Rattle.ios_out.specs.Laws.{BlocksJoin, TextsRead, ReadOnce, FragmentsRead, OwnNamesApart};
ghost use Rattle.ios_out.specs.Laws.{SheetsDenote};

/// What a text says, read alone, it says before any other text too, so that between its frame a file says what its texts say, one
/// after another. Bytes are one file at most.
pub fn reading_laws()
    ensures join { BlocksJoin }
    ensures sheet { TextsRead }
    ensures once { ReadOnce }
{}

/// The text of a token, read alone, says the token's values and nothing else, under names that differ.
pub fn fragment_laws()
    ensures read { FragmentsRead }
    ensures apart { OwnNamesApart }
{}

/// The bytes of a file denote the values of its tokens: exactly these names stand there, each once and with its value.
pub fn sheet_laws()
    ensures denote { SheetsDenote }
{}
