//! Laws over the definitions alone.

ghost use Rattle.token_cells.specs.Denotes.{CellsDenote};
ghost use Rattle.token_cells.specs.Existence.{EachCell, EachCells};
ghost use Rattle.token_cells.specs.OtherSheets.{AndroidCellsDenote, JsonCellsDenote, SwiftCellsDenote};
ghost use Rattle.token_cells.specs.Laws.{ApartAreUnclashed, BreaksAreReal, BreaksHavePlaces, ClashesAreReal, OneCells, TakenAreCells, UnchangedCells, UnclashedAreApart, UnreachedIsAlike};
ghost use Rattle.token_cells.specs.ValueRows.{RowsTellFirst};

use alias_ref::{
    differ_decides, meanings_fit, one_answer, one_meaning, parts_mean, source_decides,
    unbroken_tokens, unchanged_is_alike,
};
use composite_rules::{part_laws, value_laws};
use css_out::sheet_laws;
use json_span::plain_laws;
use transforms::{clash_laws, name_laws};

/// The tokens of a flat tree come to one list of cells under a configuration.
pub fn one_cells()
    ensures { OneCells }
{
    one_meaning();
    one_answer();
}

/// A token from which no walk of references leads to a change comes in a new tree to what it came to in the old one,
/// wherever its file stands.
pub fn unchanged_cells()
    ensures { UnchangedCells }
{
    unchanged_is_alike();
    source_decides();
}

/// A token that is not reached comes in both trees to the same under one configuration, wherever its file stands: it is
/// refused with the same rule, place and ring, or it gives the same to each platform. So the cells of a tree may be taken
/// from any earlier one, but for the tokens that are reached. Cells hold places: what is printed of them are spans of
/// the tree in which they stand.
pub fn unreached_cells()
    ensures alike { UnreachedIsAlike }
    ensures taken { TakenAreCells }
{
    unchanged_cells();
    source_decides();
    differ_decides();
}

/// Cells without a break, of which no two have a name in common, give a style sheet that denotes the values of their tokens,
/// name for name: what each token's whole value means, read under its kind, with each `var()` followed until none is left.
pub fn sheets_denote()
    ensures { CellsDenote }
{
    one_meaning();
    parts_mean();
    unbroken_tokens();
    value_laws();
    part_laws();
    clash_laws();
    sheet_laws();
}

/// What is told of a token's break holds: a ring is one, a wrong spelling and a lost target stand where they are told, and
/// a rule of values is broken there by what the token means. It is told in the file of a definition that is there, at the
/// span of the place in it.
pub fn breaks_are_real()
    ensures real { BreaksAreReal }
    ensures places { BreaksHavePlaces }
{
    alias_ref::breaks_are_real();
}

/// A clash of names that is told is one: the later token has a name of the earlier one on the platform. None is told
/// exactly where no token has a name of an earlier one.
pub fn clashes_are_real()
    ensures real { ClashesAreReal }
    ensures apart { UnclashedAreApart }
    ensures unclashed { ApartAreUnclashed }
{
    clash_laws();
}

/// Cells without a break, of which no two have a name in common, give files for Android, Swift and JSON that denote the
/// values of their tokens.
pub fn other_sheets_denote()
    ensures android { AndroidCellsDenote }
    ensures swift { SwiftCellsDenote }
    ensures json { JsonCellsDenote }
{
    value_laws();
    clash_laws();
    android_out::sheet_laws();
    ios_out::sheet_laws();
    json_out::sheet_laws();
    json_out::fragment_laws();
}

/// Each token of a flat tree that texts in memory define comes to something under a configuration: it breaks a rule, or it
/// has a value and gives something to each platform.
pub fn each_cell()
    ensures one { EachCell }
    ensures all { EachCells }
{
    unbroken_tokens();
    meanings_fit();
    plain_laws::<usize>();
    name_laws();
}

/// Of a value under a kind with parts, the part that is told is broken, and none before it in the order of the kind's row; and
/// where a part is broken, the first one is told. Of a list it is the first broken item, and the list itself where its length
/// is wrong. The numbers of a curve and the components of a colour are told by their form before they are by their range.
pub fn value_row_laws()
    ensures { RowsTellFirst }
{}
