//! Laws over the definitions alone, for the layers above.

ghost use Rattle.alias_ref.specs.Answer.{OneResolved, OneFirstBreak, NeverBoth};
ghost use Rattle.alias_ref.specs.Span.{SpansStand};
ghost use Rattle.alias_ref.specs.Unchanged.{DifferDecides};
ghost use Rattle.alias_ref.specs.Laws.{AliasesNamed, PointersNamed, OneLead, OneEnd, OneMeaning};
ghost use Rattle.alias_ref.specs.Laws.{OneKind, OneLinks, RingsAreReal, BreaksAreReal};
ghost use Rattle.alias_ref.specs.Laws.{PlacesAreThere, VisitsAreVisited, VisitsInTurn};
ghost use Rattle.alias_ref.specs.Laws.{UnbrokenMeans, UnbrokenIsSound, UnbrokenDepth};
ghost use Rattle.alias_ref.specs.Laws.{UnbrokenHasKind, UnbrokenHasLinks, MeaningsFit, PartsMean};
ghost use Rattle.alias_ref.specs.Laws.{LinksAreReal, LinksAreAll, SourceDecides, RefsOfSource};
ghost use Rattle.alias_ref.specs.Laws.{ShownBySource};
ghost use Rattle.alias_ref.specs.Laws.{WrittenAreListed, ListedAreWritten, UnchangedIsAlike};
ghost use Rattle.alias_ref.specs.Laws.{RefsInOrder, OrderIsStrict};
ghost use Rattle.alias_ref.specs.Remembered.{RememberedWalks, RememberedBreaks, RememberedPasses};
ghost use Rattle.alias_ref.specs.Remembered.{RememberedPassBreaks, WalksAreRememberable};
ghost use Rattle.alias_ref.specs.Remembered.{PassesAreRememberable, ClosedAvoid, NumberedAvoid};
ghost use Rattle.alias_ref.specs.Remembered.{MeasuresBelow, MeasuresKept, NumbersGrow};
ghost use Rattle.alias_ref.specs.Remembered.{RememberedFaults, BranchesRise, CountsBelow};
ghost use Rattle.alias_ref.specs.Remembered.{CountsKept, ListedHaveNumbers, KnownIsWalked, WalkedIsKnown};

/// The readings of texts are exact: an alias names the path that its text spells, and a pointer the place.
pub fn references_named()
    ensures aliases { AliasesNamed }
    ensures pointers { PointersNamed }
{}

/// A place has one lead, one end of the references from it, one meaning, and one list of links; a token has one kind.
pub fn one_meaning()
    ensures lead { OneLead }
    ensures end { OneEnd }
    ensures meaning { OneMeaning }
    ensures kind { OneKind }
    ensures links { OneLinks }
{}

/// Each visit of a token's walk is one by the rules of visits, below its branch: of the token's whole value, or of a place
/// that the last place of the branch asks for.
pub fn visits_are_visited()
    ensures { VisitsAreVisited }
{}

/// The visits of a place that come to no break are the place itself, and then those of what it asks for: the parts of an array or
/// an object as they are written; of a reference what its steps pass, and then its target. Each comes once, in that order.
pub fn visits_in_turn()
    ensures { VisitsInTurn }
{}

/// What is told of a break holds: a ring is one, a wrong spelling stands where it is told, a reference whose target is
/// lost leads nowhere, and where a branch is too long or visits are too many, so many there are. The place that is told is
/// one in a token that is there.
pub fn breaks_are_real()
    ensures ring { RingsAreReal }
    ensures told { BreaksAreReal }
    ensures there { PlacesAreThere }
{}

/// A token without a break means something; whatever its walk visits is new on its branch, spelled well, and leads
/// somewhere where it is a reference; and at most 256 links follow one another in it. It has a kind, or none, and
/// links.
pub fn unbroken_tokens()
    ensures meaning { UnbrokenMeans }
    ensures visits { UnbrokenIsSound }
    ensures depth { UnbrokenDepth }
    ensures kind { UnbrokenHasKind }
    ensures links { UnbrokenHasLinks }
{}

/// What is meant in a tree of definitions, whose sources are UTF-8, has strings and names of UTF-8, and no list with more
/// parts than a source may have bytes.
pub fn meanings_fit()
    ensures { MeaningsFit }
{}

/// What is written at a trail of a place means what stands at that trail of the place's meaning.
pub fn parts_mean()
    ensures { PartsMean }
{}

/// The links of a place are the references without steps that are written in it, neither more nor less.
pub fn links_are_real()
    ensures real { LinksAreReal }
    ensures all { LinksAreAll }
{}

/// What is written in a token, and what is shown beside its value, is decided by its source: not by its file or its offsets.
pub fn source_decides()
    ensures written { SourceDecides }
    ensures refs { RefsOfSource }
    ensures shown { ShownBySource }
{}

/// The span of a place is that of the value that stands there; of a place behind a reference that of the reference, and of
/// one that leads to nothing that of the last value on the way.
pub fn spans_stand()
    ensures { SpansStand }
{}

/// The tokens that a value names are those of the references that are written in it.
pub fn refs_are_written()
    ensures written { WrittenAreListed }
    ensures listed { ListedAreWritten }
{}

/// A token's value has one of these for each well-spelled reference that is written in it, in written order, as often as it is
/// written, and no other.
pub fn refs_in_order()
    ensures order { RefsInOrder }
    ensures once { OrderIsStrict }
{}

/// Where no walk of references leads from a token to a path whose raw entry differs, two flat trees, whose tokens there are
/// what their sources show, have the same break, meaning, kind and links of it, wherever their spans stand.
pub fn unchanged_is_alike()
    ensures { UnchangedIsAlike }
{}

/// Whether two raw entries differ is decided by a test.
pub fn differ_decides()
    ensures { DifferDecides }
{}

/// The answer of a token is decided by the flat tree and the path: it comes to one thing, or breaks one rule first, and
/// never both.
pub fn one_answer()
    ensures resolved { OneResolved }
    ensures broken { OneFirstBreak }
    ensures either { NeverBoth }
{}

/// A walk that is remembered is the same below any branch that leaves it room and has no place of it, and what is walked below a
/// branch without a break can be remembered.
pub fn remembered_walks()
    ensures walks { RememberedWalks }
    ensures breaks { RememberedBreaks }
    ensures passes { RememberedPasses }
    ensures pass_breaks { RememberedPassBreaks }
    ensures rememberable { WalksAreRememberable }
    ensures pass_rememberable { PassesAreRememberable }
    ensures closed { ClosedAvoid }
    ensures numbered { NumberedAvoid }
    ensures below { MeasuresBelow }
    ensures kept { MeasuresKept }
    ensures grow { NumbersGrow }
    ensures faults { RememberedFaults }
    ensures rise { BranchesRise }
    ensures counts { CountsBelow }
    ensures counts_kept { CountsKept }
    ensures listed { ListedHaveNumbers }
    ensures known { KnownIsWalked }
    ensures learnt { WalkedIsKnown }
{}
