//! Laws of events and the files that they leave, for the crates above: functions that do nothing and are called for
//! what they ensure.

ghost use Rattle.std.specs.Prelude.{◌≡◌, ◌⊎◌, ℕ, suc, ◌+◌, ◌≤◌, List, [], ◌∷◌, ◌++◌, length, take};
ghost use Rattle.std.specs.Prelude.{Some};
ghost use Rattle.std.specs.FinMap as map;
ghost use Rattle.tk_io.specs.FilesData.{FilesData};
ghost use Rattle.edit_script.specs.Effect.{IsOutcome, OutcomeData, files_by, made_with};
ghost use Rattle.edit_script.specs.Effect.{outcome_of, unfit};
ghost use Rattle.edit_script.specs.Files.{AreFilesAfter, AreFilesAt, EveryFits, FitsAfter, IsUnfit};
ghost use Rattle.edit_script.specs.Files.{as_one_commit, commit_count, made_after, made_by};
ghost use Rattle.edit_script.specs.Files.{most_patched, patched, present_of, text_after, text_at};
ghost use Rattle.edit_script.specs.Files.{up_to};
ghost use Rattle.edit_script.specs.Script.{EventData, IsScriptOf, commit, del, move, patch, put};
ghost use Rattle.edit_script.specs.declared.version.Version.TheVariants.{First};

/// The files after no event, and after one event more; by the event, and by what comes of it where it fits.
pub fn one_more_event()
    ensures none { AreFilesAfter [] map.empty }
    ensures put { (es : List EventData) → (files : FilesData) → (path : List ℕ) → (text : List ℕ)
        → AreFilesAfter es files
        → AreFilesAfter (es ++ put path text ∷ []) (map.insert files path text) }
    ensures del { (es : List EventData) → (files : FilesData) → (path : List ℕ)
        → AreFilesAfter es files → AreFilesAfter (es ++ del path ∷ []) (map.remove files path) }
    ensures moved { (es : List EventData) → (files : FilesData) → (first : List ℕ)
        → (second : List ℕ) → (text : List ℕ) → AreFilesAfter es files
        → map.get files first ≡ Some text
        → AreFilesAfter (es ++ move first second ∷ [])
        (map.insert (map.remove files first) second text) }
    ensures patched { (es : List EventData) → (files : FilesData) → (path : List ℕ) → (start : ℕ)
        → (end : ℕ) → (bytes : List ℕ) → (text : List ℕ) → AreFilesAfter es files
        → map.get files path ≡ Some text
        → AreFilesAfter (es ++ patch path start end bytes ∷ [])
        (map.insert files path (patched text start end bytes)) }
    ensures commit { (es : List EventData) → (files : FilesData) → AreFilesAfter es files
        → AreFilesAfter (es ++ commit ∷ []) files }
    ensures outcome { (es : List EventData) → (files : FilesData) → (event : EventData)
        → AreFilesAfter es files → FitsAfter es event
        → AreFilesAfter (es ++ event ∷ [])
        (files_by (outcome_of event (present_of event (map.get files))) files) }
{}

/// What an outcome that `effect` tells says of the event and of what stands behind it, where these files stand after the
/// events before it: unless it is that the event does not fit, the event fits, the outcome gives the files after it, and
/// the sum of the lengths of patched texts grows by what was made.
pub fn one_more_outcome()
    ensures fits { (es : List EventData) → (files : FilesData) → (event : EventData)
        → (outcome : OutcomeData) → AreFilesAfter es files
        → IsOutcome event (present_of event (map.get files)) (made_after es) outcome
        → (outcome ≡ unfit → ⊥) → FitsAfter es event }
    ensures files { (es : List EventData) → (files : FilesData) → (event : EventData)
        → (outcome : OutcomeData) → AreFilesAfter es files
        → IsOutcome event (present_of event (map.get files)) (made_after es) outcome
        → (outcome ≡ unfit → ⊥) → AreFilesAfter (es ++ event ∷ []) (files_by outcome files) }
    ensures made { (es : List EventData) → (files : FilesData) → (event : EventData)
        → (outcome : OutcomeData) → AreFilesAfter es files
        → IsOutcome event (present_of event (map.get files)) (made_after es) outcome
        → (outcome ≡ unfit → ⊥)
        → made_after (es ++ event ∷ []) ≡ made_after es + made_with event outcome }
    ensures unfit { (es : List EventData) → (files : FilesData) → (event : EventData)
        → AreFilesAfter es files
        → IsOutcome event (present_of event (map.get files)) (made_after es) unfit
        → FitsAfter es event → ⊥ }
{}

/// An event looks at what the files have.
pub fn present_texts()
    ensures { (es : List EventData) → (files : FilesData) → (event : EventData)
        → AreFilesAfter es files
        → present_of event (map.get files) ≡ present_of event (text_after es) }
{}

/// The sum of the lengths of the texts that patches make: before the first event, after one event more, by what comes
/// of it too, and that it stays within its bound while every event fits.
pub fn made_lengths()
    ensures none { made_after [] ≡ 0 }
    ensures more { (es : List EventData) → (event : EventData)
        → made_after (es ++ event ∷ [])
        ≡ made_after es + made_by event (present_of event (text_after es)) }
    ensures outcome { (es : List EventData) → (event : EventData)
        → made_after (es ++ event ∷ []) ≡ made_after es
        + made_with event (outcome_of event (present_of event (text_after es))) }
    ensures bound { (es : List EventData) → EveryFits es → made_after es ≤ most_patched }
{}

/// The texts after the first n events are those after the events up to there.
pub fn first_texts()
    ensures { (es : List EventData) → (n : ℕ) → (path : List ℕ)
        → text_at es n path ≡ text_after (take n es) path }
{}

/// Whether events fit: no event, one event more that does or does not, and all events of a script of the first version.
pub fn fitting_events()
    ensures none { EveryFits [] }
    ensures first { (bytes : List ℕ) → (es : List EventData) → IsScriptOf First bytes es
        → EveryFits es }
    ensures more { (es : List EventData) → (event : EventData) → EveryFits es → FitsAfter es event
        → EveryFits (es ++ event ∷ []) }
    ensures unfit { (es : List EventData) → (event : EventData) → (rest : List EventData)
        → EveryFits es → (FitsAfter es event → ⊥)
        → IsUnfit (es ++ event ∷ rest) (suc (length es)) }
{}

/// Every event fits, or one of them is the first that does not; not both, and there is one such.
pub fn one_unfit()
    ensures some { (es : List EventData) → EveryFits es ⊎ ((n : ℕ) × IsUnfit es n) }
    ensures apart { (es : List EventData) → (n : ℕ) → EveryFits es → IsUnfit es n → ⊥ }
    ensures one { (es : List EventData) → (m : ℕ) → (n : ℕ) → IsUnfit es m → IsUnfit es n
        → m ≡ n }
{}

/// The files after events are one map.
pub fn one_map()
    ensures { (es : List EventData) → (files : FilesData) → (others : FilesData)
        → AreFilesAfter es files → AreFilesAfter es others → files ≡ others }
{}

/// The events up to a commit are those before it, and the commit.
pub fn up_to_commit()
    ensures { (before : List EventData) → (after : List EventData)
        → up_to (suc (commit_count before)) (before ++ commit ∷ after) ≡ before ++ commit ∷ [] }
{}

/// The events with their commits taken out and one at the end: what stands there, that it is the only commit, and that
/// every event fits where every event fits with the commits among them.
pub fn whole_events()
    ensures files { (es : List EventData) → (files : FilesData) → AreFilesAfter es files
        → AreFilesAt (as_one_commit es) 1 files }
    ensures count { (es : List EventData) → commit_count (as_one_commit es) ≡ 1 }
    ensures fits { (es : List EventData) → EveryFits es → EveryFits (as_one_commit es) }
{}

/// The commits of two lists of events are counted apart.
pub fn counted_commits()
    ensures { (xs : List EventData) → (ys : List EventData)
        → commit_count (xs ++ ys) ≡ commit_count xs + commit_count ys }
{}
