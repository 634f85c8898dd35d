//! Grammars over bytes: what their rules derive, the viable prefixes of what they derive, and
//! predictive reading with one byte ahead.
//!
//! The crate has no code. A grammar is data of `specs/Grammar`, over a type that names its rules,
//! and each law below is a function with an empty body that holds for every such type.
#![tactic(auto)]

ghost use Rattle.grammar.specs.Laws.{FrontsArePrefixes, FrontsGoOnBy, SteeredReadsOnce};
ghost use Rattle.grammar.specs.Laws.{StopsAreExact, ReadingsEnd};

/// A text is a viable prefix of what a rule derives exactly where some text goes on from it to a
/// derived one.
pub fn fronts_are_prefixes<Name>()
    ensures { FrontsArePrefixes Name }
{}

/// A viable prefix goes on to a derived text by bytes that pass a test alone, where each rule can
/// be spelled by such bytes.
pub fn fronts_go_on<Name>()
    ensures { FrontsGoOnBy Name }
{}

/// A rule that one byte ahead steers reads a text in one way.
pub fn steered_reads_once<Name>()
    ensures { SteeredReadsOnce Name }
{}

/// Where the predictive reading stops, no text of the rule is read, and the longest viable prefix
/// ends.
pub fn stops_are_exact<Name>()
    ensures { StopsAreExact Name }
{}

/// Where no rule comes to itself without a byte, a predictive reading of any text comes to its end
/// or gets stuck.
pub fn steered_readings_end<Name>()
    ensures { ReadingsEnd Name }
{}
