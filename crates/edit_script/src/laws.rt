//! Laws of scripts, changes and streams, for the crates above: functions that do nothing and are called for what they
//! ensure.

ghost use Rattle.std.specs.Prelude.{◌≡◌, ℕ, suc, ◌+◌, ◌≤◌, List, [], ◌∷◌, ◌++◌, length, take, Some};
ghost use Rattle.std.specs.Prelude.{map as map_list};
ghost use Rattle.std.specs.FinMap as map;
ghost use Rattle.std.specs.List.{concat, flat_map, slice_get};
ghost use Rattle.std.specs.Str.{IsUtf8};
ghost use Rattle.tk_io.specs.FilesData.{FilesData};
ghost use Rattle.edit_script.specs.Delta.{ChangeData, Delta, IsDelta, AreDeltas, applied, replayed};
ghost use Rattle.edit_script.specs.Delta.{held_at};
ghost use Rattle.edit_script.specs.Script.{EventData, IsScript, IsScriptOf, IsScriptStop};
ghost use Rattle.edit_script.specs.Script.{IsSpellable, event_text, header};
ghost use Rattle.edit_script.specs.declared.version.Version.TheVariants.{First, Second};
ghost use Rattle.edit_script.specs.declared.line.Line.TheVariants.{StreamHead};
ghost use Rattle.edit_script.specs.declared.line.Line.TheVariants.{Commit as CommitLine, Done};
ghost use Rattle.edit_script.specs.View.{Lined, with_line};
ghost use Rattle.edit_script.specs.Stream.{commits_text, line_text, pieces_of, record_of};
ghost use Rattle.edit_script.specs.Stream.{stream_of, stream_pieces};

/// A script has at most one reading.
pub fn one_reading()
    ensures { (bytes : List ℕ) → (es : List EventData) → (fs : List EventData) → IsScript bytes es
        → IsScript bytes fs → es ≡ fs }
{}

/// No spelling of an event begins as another's, of whatever version.
pub fn spellings_apart()
    ensures { (e : EventData) → (f : EventData) → (a : List ℕ) → (b : List ℕ) → IsSpellable e
        → IsSpellable f → event_text e ++ a ≡ event_text f ++ b → (e ≡ f) × (a ≡ b) }
{}

/// What stands behind the first line of a script of the first version reads as the same events behind that of the
/// second.
pub fn second_version()
    ensures { (rest : List ℕ) → (es : List EventData) → IsScriptOf First (header First ++ rest) es
        → IsScriptOf Second (header Second ++ rest) es }
{}

/// A script is text.
pub fn script_is_text()
    ensures { (bytes : List ℕ) → (es : List EventData) → IsScript bytes es → IsUtf8 bytes }
{}

/// Bytes that are no script are refused at one place.
pub fn one_stop()
    ensures { (bytes : List ℕ) → (m : ℕ) → (n : ℕ) → IsScriptStop bytes m → IsScriptStop bytes n
        → m ≡ n }
{}

/// There is one delta from some outputs to others.
pub fn one_delta()
    ensures { (old : FilesData) → (new : FilesData) → (d : Delta) → (e : Delta) → IsDelta old new d
        → IsDelta old new e → d ≡ e }
{}

/// A delta makes the new outputs of the old.
pub fn delta_applies()
    ensures { (old : FilesData) → (new : FilesData) → (d : Delta) → IsDelta old new d
        → applied (map.entries d) old ≡ new }
{}

/// The first k deltas make the k-th outputs of what was held before the first of them.
pub fn deltas_apply()
    ensures { (before : FilesData) → (held : List FilesData) → (ds : List Delta) → (k : ℕ)
        → AreDeltas before held ds → k ≤ length held
        → replayed (take k ds) before ≡ held_at before held k }
{}

/// Each change that `delta` lists carries its record's first line.
pub fn carried_lines()
    ensures { (cs : List ChangeData) → (i : ℕ) → (change : Lined)
        → slice_get (map_list with_line cs) i ≡ Some change → change ≡ with_line change.0 }
{}

/// One more delta.
pub fn one_more_delta()
    ensures { (before : FilesData) → (held : List FilesData) → (ds : List Delta)
        → (new : FilesData) → (d : Delta) → AreDeltas before held ds
        → IsDelta (held_at before held (length held)) new d
        → AreDeltas before (held ++ new ∷ []) (ds ++ d ∷ []) }
{}

/// A stream before its first commit, after one commit more, and at its end.
pub fn stream_parts()
    ensures none { (k : ℕ) → commits_text k [] ≡ [] }
    ensures more { (k : ℕ) → (ds : List Delta) → (d : Delta)
        → commits_text k (ds ++ d ∷ [])
        ≡ commits_text k ds ++ line_text (CommitLine (k + length ds))
        ++ flat_map record_of (map.entries d) }
    ensures end { (ds : List Delta)
        → stream_of ds ≡ line_text StreamHead ++ commits_text 1 ds ++ line_text (Done (length ds)) }
{}

/// The pieces of a record, and of a stream, one after another, are that record and that stream.
pub fn pieces_are_whole()
    ensures records { (c : ChangeData) → concat (pieces_of c) ≡ record_of c }
    ensures stream { (ds : List Delta) → concat (stream_pieces ds) ≡ stream_of ds }
{}
