//! Laws of the definitions alone, for the layers above.

ghost use Rattle.transforms.specs.Clash.{AllNamesApart, TokenNamesApart, NamesAreThere};
ghost use Rattle.transforms.specs.Clash.{NamesComeFromTokens};
ghost use Rattle.transforms.specs.Config.{plain, AreAllowed, TextsSayAllowed};
ghost use Rattle.transforms.specs.FiveNames.{FiveNamesDiffer};
ghost use Rattle.transforms.specs.Hexadecimal.{NumbersReadBack};
ghost use Rattle.transforms.specs.PlatformName.{EndingsStay, PathsAreNamed};
ghost use Rattle.transforms.specs.Quoted.{QuotedReadsBack, QuotedReadsOn};
ghost use Rattle.transforms.specs.Rising.{RisingAreApart};
ghost use Rattle.transforms.specs.Runs.{NumbersPass, NumbersStart, RunsAreFirst};
ghost use Rattle.transforms.specs.Scaling.{ScaledAreWritten};
ghost use Rattle.transforms.specs.Sheet.{PlainFramesJoin};

/// Where tokens are added one after another and no clash is answered, no token has a name of an earlier one. What is there
/// then are the names of the tokens, each under the path of its token. All names are apart, where the names of each token
/// are and no two tokens share one. Names that rise are apart.
pub fn clash_laws()
    ensures apart { TokenNamesApart }
    ensures there { NamesAreThere }
    ensures tokens { NamesComeFromTokens }
    ensures all { AllNamesApart }
    ensures rising { RisingAreApart }
{}

/// What a text says, and the settings of no text, are settings that a configuration can have.
pub fn config_laws()
    ensures texts { TextsSayAllowed }
    ensures plain { AreAllowed plain }
{}

/// The digits that stand for a character spell its number. A name with an ending of characters that names can hold is a
/// name. Under settings that a configuration can have, each path that a token can have, of names in UTF-8, has a name on
/// each platform. The five names of a typography differ.
pub fn name_laws()
    ensures numbers { NumbersReadBack }
    ensures endings { EndingsStay }
    ensures named { PathsAreNamed }
    ensures five { FiveNamesDiffer }
{}

/// What is spelled between quotes is read as it is, and what is read of a text is read whatever follows the text. A run of
/// bytes that pass a test is the longest such prefix of a text where a byte that does not pass follows. What is spelled of a
/// number begins with one, and passes each test that digits, `-` and `.` pass. A length that is scaled can be spelled.
pub fn spelling_laws()
    ensures back { QuotedReadsBack }
    ensures on { QuotedReadsOn }
    ensures runs { RunsAreFirst }
    ensures start { NumbersStart }
    ensures pass { NumbersPass }
    ensures scaled { ScaledAreWritten }
{}

/// In a frame with nothing between bodies or after the last, they stand one after another.
pub fn sheet_laws()
    ensures { PlainFramesJoin }
{}
