//! Laws of the definitions alone, for the layers above.

ghost use Rattle.css_out.specs.Laws.{BlocksJoin, TextsRead, ReadOnce, OwnValues, LinesAreNamed};
ghost use Rattle.css_out.specs.Laws.{OwnNamesApart, FragmentsRead, NamesComeFromLinks};
ghost use Rattle.css_out.specs.Laws.{NoReferences, ValuesDiffer, SheetsDenote, ReferencesDenote};

/// What a text declares, read alone, it declares before any other text too, so that between its frame a sheet declares what
/// its fragments declare, one after another. Bytes are one sheet at most.
pub fn reading_laws()
    ensures join { BlocksJoin }
    ensures sheet { TextsRead }
    ensures once { ReadOnce }
{}

/// Without references the lines of a token have the values that it is to have, under names that differ. The text of a token,
/// read alone, declares its lines. Each part that is spelled by a name comes from a link; where references are not spelled as
/// such, no part is. Values of one kind differ in what CSS is to have of them, but for `hex`.
pub fn fragment_laws()
    ensures values { OwnValues }
    ensures named { LinesAreNamed }
    ensures apart { OwnNamesApart }
    ensures read { FragmentsRead }
    ensures links { NamesComeFromLinks }
    ensures without { NoReferences }
    ensures differ { ValuesDiffer }
{}

/// The bytes of a sheet denote the values of its tokens: exactly these names are declared, and each has its value and no
/// other after 256 rounds. Each name that stands in it for a part is that of a token which has this part as its value.
pub fn sheet_laws()
    ensures denote { SheetsDenote }
    ensures references { ReferencesDenote }
{}
