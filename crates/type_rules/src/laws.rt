//! Laws over the definitions alone, for the layers above.

ghost use Rattle.type_rules.specs.Laws.{KindsStay, ValuesKeep, ValuesAreWritten, ValuesBreakInside};
ghost use Rattle.type_rules.specs.Laws.{PartsBreakInside, ColorsKeep, SizesKeep, TimesKeep};
ghost use Rattle.type_rules.specs.Laws.{CurvesKeep, FamiliesKeep, WeightsKeep, NumbersKeep};
ghost use Rattle.type_rules.specs.Laws.{SharesAreParts, StepsLead, ItemsStand, SpacesNamed};
ghost use Rattle.type_rules.specs.Laws.{SizeUnitsNamed, TimeUnitsNamed, WeightsNamed};
ghost use Rattle.type_rules.specs.Laws.{TextsSpellOneValue, SpelledTextsAreRead};
ghost use Rattle.type_rules.specs.Laws.{ReadTextsAreSpelled, TextsBreakAsTexts};
ghost use Rattle.type_rules.specs.Laws.{TextsBreakElsewhere, OthersStay, AliasesSpellNothing};

/// A value has the kind under which it is read, and lies in the ranges of the kind; its numbers are
/// such as are read. Each such value is the value of some plain value. Where a rule is broken, the
/// steps lead from the value to a part of it.
pub fn value_laws()
    ensures kinds { KindsStay }
    ensures keeps { ValuesKeep }
    ensures written { ValuesAreWritten }
    ensures breaks { ValuesBreakInside }
{}

/// The same of parts of values of other kinds.
pub fn part_laws()
    ensures colors { ColorsKeep }
    ensures sizes { SizesKeep }
    ensures times { TimesKeep }
    ensures curves { CurvesKeep }
    ensures families { FamiliesKeep }
    ensures weights { WeightsKeep }
    ensures numbers { NumbersKeep }
    ensures shares { SharesAreParts }
    ensures breaks { PartsBreakInside }
{}

/// Steps that lead to a part of a value, and the item to which the digits of an index lead.
pub fn step_laws<Item>()
    ensures steps { StepsLead }
    ensures items { ItemsStand Item }
{}

/// What the words mean.
pub fn word_laws()
    ensures spaces { SpacesNamed }
    ensures size_units { SizeUnitsNamed }
    ensures time_units { TimeUnitsNamed }
    ensures weights { WeightsNamed }
{}

/// Legacy texts: of a kind each spells at most one value, which is read of it and no other; what is read of a text it
/// spells. What a text breaks it breaks itself, as a text of no such form or as one whose number is not within the
/// bounds. Where texts may not be values they break the rule on shapes, and every other value is alike for either
/// setting. A text that begins with a brace, as an alias does, spells nothing.
pub fn legacy_laws()
    ensures one { TextsSpellOneValue }
    ensures read { SpelledTextsAreRead }
    ensures spelled { ReadTextsAreSpelled }
    ensures breaks { TextsBreakAsTexts }
    ensures elsewhere { TextsBreakElsewhere }
    ensures others { OthersStay }
    ensures aliases { AliasesSpellNothing }
{}
