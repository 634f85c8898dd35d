//! Laws of the definitions alone, for the layers above.

ghost use Rattle.json_out.specs.Laws.{NumbersAreSpelled, TextsRead, ReadOnce, FragmentsRead};
ghost use Rattle.json_out.specs.Laws.{SlicesStay, PathsApart, ValuesDiffer, SheetsDenote};

/// The number that is read of a JSON number's text is the one that the text spells (RFC 8259 section 6). Texts that are
/// members, one after another in the frame, are one object of these members. Bytes are one object at most.
pub fn reading_laws()
    ensures numbers { NumbersAreSpelled }
    ensures sheet { TextsRead }
    ensures once { ReadOnce }
{}

/// The text of a token is its member and nothing else. The extensions, a slice of a source, have the value that they have
/// there. Two tokens have two names, and values of one kind that differ have JSON values that differ.
pub fn fragment_laws()
    ensures read { FragmentsRead }
    ensures slices { SlicesStay }
    ensures apart { PathsApart }
    ensures differ { ValuesDiffer }
{}

/// The bytes of a sheet are one object whose members are those of its tokens, in their order, and they read as nothing else.
pub fn sheet_laws()
    ensures denote { SheetsDenote }
{}
