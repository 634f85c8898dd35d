//! Laws over the definitions alone, for the layers above.

ghost use Rattle.composite_rules.specs.Laws.{KindsStay, ValuesKeep, ValuesAreWritten};
ghost use Rattle.composite_rules.specs.Laws.{ValuesBreakInside, ZerosBreak, PositionsClamp};
ghost use Rattle.composite_rules.specs.Laws.{SharesStay, PartsAreTyped, PartsStand};
ghost use Rattle.composite_rules.specs.Laws.{StrokeWordsNamed, CapsNamed};

/// A value has the kind under which it is read, and lies in the ranges of the kind; its numbers are
/// such as are read. Each such value is the value of some plain value. Where a rule is broken, the
/// steps lead from the value to a part of it; a shadow that is one object breaks a rule at a member
/// `0` before any other. Positions of a gradient are moved into 0 to 1.
pub fn value_laws()
    ensures kinds { KindsStay }
    ensures keeps { ValuesKeep }
    ensures written { ValuesAreWritten }
    ensures breaks { ValuesBreakInside }
    ensures zeros { ZerosBreak }
    ensures clamps { PositionsClamp }
    ensures shares { SharesStay }
{}

/// What stands at the steps of a part is a value of the part's kind, and the part is that value;
/// and each part stands at its steps in the value.
pub fn part_laws()
    ensures typed { PartsAreTyped }
    ensures stand { PartsStand }
{}

/// What the words mean.
pub fn word_laws()
    ensures words { StrokeWordsNamed }
    ensures caps { CapsNamed }
{}
