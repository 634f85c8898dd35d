//! The line of a commit in the statistics, and its numbers.

ghost use Rattle.std.specs.Prelude.{◌≡◌, ◌≤◌, [], ◌∷◌};
ghost use Rattle.edit_script.specs.View.{change_view};
ghost use Rattle.edit_script.specs.Stats.{without_lines, gone_count, stats_line};

use crate::{Change, Changes, Line};

// 1 where the change is of an output that is held no more, else 0.
fn gone_by(change: &Change<'_>) -> usize
    ensures count { result ≡ gone_count ((change_view change.now).0 ∷ []) }
    ensures bound { result ≤ 1 }
{
    match change {
        Change::Gone(..) => 1,
        Change::Written(..) => 0,
    }
}

// How many of the changes are of outputs that are held no more.
fn gone_count(changes: &Changes<'_>) -> usize
    ensures { result ≡ gone_count (without_lines changes.now) }
{
    let mut count = 0;
    for change in changes.as_slice() {
        count += gone_by(change);
    }
    count
}

/// The line of the commit with this number in the statistics: how many files were read for it, permutations merged and
/// tokens evaluated, and how many of the changes are outputs that are written and outputs that are held no more.
pub fn stats_line(
    commit: u64,
    parsed: u64,
    merged: u64,
    evaluated: u64,
    changes: &Changes<'_>,
) -> Line
    ensures { result ≡ stats_line commit parsed merged evaluated (without_lines changes.now) }
{
    let gone = gone_count(changes);
    Line::Stats {
        commit,
        parsed,
        merged,
        evaluated,
        written: (changes.len() - gone) as u64,
        gone: gone as u64,
    }
}
