//! Laws over the definitions alone, for the layers above.

ghost use Rattle.json_span.specs.Laws.{TextsShow, TextFrontsArePrefixes, FrontsGoOn, ShowsOne};
ghost use Rattle.json_span.specs.Laws.{OneAnswer, EachHasAnswer, ShowsSay, SaysBefore, SaysShow};
ghost use Rattle.json_span.specs.Laws.{SaysOne, SlicesSay};
ghost use Rattle.json_span.specs.FitsIn.{SaidFits};
ghost use Rattle.json_span.specs.FlawLaws.{FirstIsLeast, NoneIsNone};
ghost use Rattle.json_span.specs.Parts.{SlicesShow};
ghost use Rattle.json_span.specs.SpellingLaws.{InsidesFollow, InsidesJoin, JoinedReadBack};
ghost use Rattle.json_span.specs.SpellingLaws.{PlainStays, StringsReadBack};
ghost use Rattle.json_span.specs.Composing.{ArraysAreJoined, ArraysMayBeSpaced, ArraysSayBefore};
ghost use Rattle.json_span.specs.Composing.{FrontsSay, ObjectsAreJoined, ObjectsMayBeSpaced};
ghost use Rattle.json_span.specs.Composing.{ObjectsSayBefore};

/// The texts that show a value are those of RFC 8259, each shows one, and each text has one answer,
/// neither more nor less. What begins a JSON text goes on to one by ASCII alone. The slice of a
/// part, read by itself, shows the part with its start taken off its offsets. The flaw that is
/// reported of a text is the one that starts first among all second names and all brackets that
/// open a 65th level, and none is reported exactly where there is none.
pub fn json_laws()
    ensures texts { TextsShow }
    ensures fronts { TextFrontsArePrefixes }
    ensures front { FrontsGoOn }
    ensures one { ShowsOne }
    ensures answer { OneAnswer }
    ensures answered { EachHasAnswer }
    ensures slices { SlicesShow }
    ensures first { FirstIsLeast }
    ensures none { NoneIsNone }
{}

/// What a text shows it says without places, and back; it says one value; and what a value's text
/// says, it says whatever follows. What a text of UTF-8 says has strings and names of UTF-8, and no
/// list with more parts than the text has bytes. `Number` is what is kept of a number.
pub fn plain_laws<Number>()
    ensures shown { ShowsSay Number }
    ensures framed { SaysBefore Number }
    ensures said { SaysShow Number }
    ensures one { SaysOne Number }
    ensures slices { SlicesSay Number }
    ensures fits { SaidFits Number }
{}

/// Texts that say values, put together with commas and brackets, say the array of the values, and
/// members put together so say the object; and only such texts do. `Number` is what is kept of a
/// number.
pub fn joined_laws<Number>()
    ensures arrays { ArraysAreJoined Number }
    ensures objects { ObjectsAreJoined Number }
    ensures arrays_before { ArraysSayBefore Number }
    ensures objects_before { ObjectsSayBefore Number }
    ensures arrays_spaced { ArraysMayBeSpaced Number }
    ensures objects_spaced { ObjectsMayBeSpaced Number }
    ensures fronts { FrontsSay Number }
{}

/// What is written for a string reads back as the string, and so do the insides of several strings
/// with plain characters between each two, as names that are joined by dots.
pub fn spelling_laws()
    ensures reads { StringsReadBack }
    ensures plain { PlainStays }
    ensures follow { InsidesFollow }
    ensures join { InsidesJoin }
    ensures joined { JoinedReadBack }
{}
