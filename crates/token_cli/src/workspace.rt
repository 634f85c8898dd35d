//! What stands while a script is replayed, and what its events make of it.

ghost use Rattle.std.specs.Prelude.{◌≡◌, ◌<◌, ◌≤◌, ◌^◌, ◌-◌, ◌++◌, ℕ, Some, OnOk, OnErr, IfErr};
ghost use Rattle.std.specs.List.{slice_get};
ghost use Rattle.std.specs.Io.KnownBytes.{Appends};
ghost use Rattle.tk_io.specs.Causes.{HasCause};
ghost use Rattle.tk_io.specs.Writing.{AppendsPart};
ghost use Rattle.edit_script.specs.Delta.{Delta, IsDelta};
ghost use Rattle.edit_script.specs.Files.{most_patched};
ghost use Rattle.edit_script.specs.Stats.{stats_line, without_lines};
ghost use Rattle.edit_script.specs.Stream.{line_text};
ghost use Rattle.edit_script.specs.View.{Lined, event_view, with_line};
ghost use Rattle.edit_script.specs.declared.line.Line.TheVariants.{Commit as CommitLine};
ghost use Rattle.token_cli.specs.inner.Step.{CommitFails, Cuts, EditFails, Fails};
ghost use Rattle.token_cli.specs.inner.Step.{IsCommitTold, IsEdited, IsEventTold};
ghost use Rattle.token_cli.specs.inner.Step.{changes_text, first_state, records_of};
ghost use Rattle.token_cli.specs.Told.{commit_text};
ghost use Rattle.build_plain.specs.Out.{Builds};
ghost use Rattle.rebuild_core.specs.Engine.{counts_view};
ghost use Rattle.token_cli.specs.inner.View.{workspace_view};

use crate::committing::commit_files;
use crate::editing::take_event;
use crate::stop::Stop;
use crate::telling::Telling;
use bumpalo::Bump;
use edit_script::{Changes, Event, Line, delta, stats_line, write_change, write_line};
use rebuild_core::{Commit, Counts, Engine, work_laws};
use std::alloc::Global;
use tk_io::{Failed, Outputs, Sink};

/// What stands while a script is replayed.
#[derive(Drop)]
pub struct Workspace<'s> {
    /// The files that its events have left, the outputs of the last commit, and what is kept of it.
    pub engine: Engine<'s>,
    /// How many bytes the texts have that its patches made.
    pub made: u64,
    /// How many events were taken.
    pub taken: usize,
    /// How many commits there were.
    pub commits: u64,
}

// Writes the records of the changes.
fn write_changes<K: Sink>(out: &mut K, changes: &Changes<'_>) -> Result<(), Failed>
    requires { (i : ℕ) → (change : Lined) → slice_get changes.now i ≡ Some change
        → change ≡ with_line change.0 }
    ensures whole { OnOk result (Appends (K.written out.old)
        (K.written out.new) (records_of changes.now)) }
    ensures part { OnErr result (AppendsPart (K.written out.old)
        (K.written out.new) (records_of changes.now)) }
    ensures cause { HasCause (K.faults out.old) (K.faults out.new) result }
{
    for change in changes.as_slice() {
        write_change(out, change)?;
    }
    Ok(())
}

// Writes the line of the commit with this number, and the records of the changes.
fn write_records<K: Sink>(out: &mut K, number: u64, changes: &Changes<'_>) -> Result<(), Failed>
    requires { (i : ℕ) → (change : Lined) → slice_get changes.now i ≡ Some change
        → change ≡ with_line change.0 }
    ensures whole { OnOk result (Appends (K.written out.old) (K.written out.new)
        (line_text (CommitLine number) ++ records_of changes.now)) }
    ensures part { OnErr result (AppendsPart (K.written out.old) (K.written out.new)
        (line_text (CommitLine number) ++ records_of changes.now)) }
    ensures cause { HasCause (K.faults out.old) (K.faults out.new) result }
{
    write_line(out, &Line::Commit(number))?;
    write_changes(out, changes)
}

// The line of the commit with this number in the statistics, for which so much was done.
fn numbers_line(number: u64, counts: Counts, changes: &Changes<'_>) -> Line
    ensures { result ≡ stats_line number counts.parsed counts.merged counts.evaluated
        (without_lines changes.now) }
{
    let Counts {
        parsed,
        merged,
        evaluated,
    } = counts;
    stats_line(number, parsed, merged, evaluated, changes)
}

// Tells the changes of the commit with this number, for which so much was done.
fn tell<K: Sink>(
    out: &mut K,
    telling: Telling,
    number: u64,
    counts: Counts,
    changes: &Changes<'_>,
) -> Result<(), Failed>
    requires { (i : ℕ) → (change : Lined) → slice_get changes.now i ≡ Some change
        → change ≡ with_line change.0 }
    ensures whole { OnOk result (Appends (K.written out.old) (K.written out.new)
        (changes_text telling number (counts_view counts) changes.now)) }
    ensures part { OnErr result (AppendsPart (K.written out.old) (K.written out.new)
        (changes_text telling number (counts_view counts) changes.now)) }
    ensures cause { HasCause (K.faults out.old) (K.faults out.new) result }
{
    match telling {
        Telling::Records => write_records(out, number, changes),
        Telling::Numbers => write_line(out, &numbers_line(number, counts, changes)),
    }
}

// Tells what the commit with this number did, after which these outputs are held.
fn write_commit<K: Sink>(
    alloc: Global,
    telling: Telling,
    number: u64,
    done: &Commit,
    held: &Outputs,
    out: &mut K,
) -> Result<(), Stop>
    ensures ok { OnOk result ((d : Delta) × IsDelta done.now.before held.now d
        × Appends (K.written out.old) (K.written out.new)
        (commit_text telling number (counts_view done.now.counts) d)) }
    ensures err { IfErr result (λ stop. Cuts telling stop done.now.before held.now number
        (counts_view done.now.counts) (K.written out.old) (K.written out.new)
        (K.faults out.old) (K.faults out.new)) }
    ensures later { K.faults out.old ≤ K.faults out.new }
{
    let changes = delta(alloc, &done.before, held)?;
    tell(out, telling, number, done.counts, &changes)?;
    Ok(())
}

impl<'s> Workspace<'s> {
    /// No file, no event, no output and no commit.
    pub fn new(alloc: Global) -> Workspace<'s>
        ensures { workspace_view result ≡ first_state }
    {
        Workspace {
            engine: Engine::new(alloc),
            made: 0,
            taken: 0,
            commits: 0,
        }
    }

    /// Takes the next event into the files. A patched text is made in the arena.
    pub fn edit(&mut self, event: &Event<'s>, arena: &'s Bump) -> Result<(), Stop>
        requires room { self.now.taken < 2 ^ 64 - 1 }
        requires made { self.now.made ≤ most_patched }
        ensures ok { OnOk result (IsEdited (event_view event.now)
            (workspace_view self.old) (workspace_view self.new)) }
        ensures err { IfErr result (λ stop. EditFails stop (event_view event.now)
            (workspace_view self.old)) }
    {
        let number = self.taken + 1;
        let Some(made) = take_event(&mut self.engine, event, self.made, arena)? else {
            return Err(Stop::BadEvent(number));
        };
        self.made = made;
        self.taken = number;
        Ok(())
    }

    // Tells a commit of files that are built.
    fn commit_again<K: Sink>(
        &mut self,
        alloc: Global,
        telling: Telling,
        out: &mut K,
    ) -> Result<(), Stop>
        requires commits { self.now.commits < 2 ^ 64 - 1 }
        requires kept { self.now.engine.kept ≡ Some self.now.engine.files }
        requires held { Builds self.now.engine.files self.now.engine.held }
        ensures ok { OnOk result (IsCommitTold telling (workspace_view self.old)
            (workspace_view self.new) (K.written out.old) (K.written out.new)) }
        ensures err { IfErr result (λ stop. CommitFails telling stop
            (workspace_view self.old) (K.written out.old) (K.written out.new)
            (K.faults out.old) (K.faults out.new)) }
        ensures later { K.faults out.old ≤ K.faults out.new }
    {
        work_laws();
        let nothing = Counts {
            parsed: 0,
            merged: 0,
            evaluated: 0,
        };
        let none = Changes::new(alloc);
        let number = self.commits + 1;
        tell(out, telling, number, nothing, &none)?;
        self.commits = number;
        Ok(())
    }

    /// Builds the files, unless that is done, and tells the commit.
    pub fn commit<K: Sink>(
        &mut self,
        alloc: Global,
        telling: Telling,
        out: &mut K,
    ) -> Result<(), Stop>
        requires { self.now.commits < 2 ^ 64 - 1 }
        ensures ok { OnOk result (IsCommitTold telling (workspace_view self.old)
            (workspace_view self.new) (K.written out.old) (K.written out.new)) }
        ensures err { IfErr result (λ stop. CommitFails telling stop
            (workspace_view self.old) (K.written out.old) (K.written out.new)
            (K.faults out.old) (K.faults out.new)) }
        ensures later { K.faults out.old ≤ K.faults out.new }
    {
        let is_built = self.engine.is_built();
        if is_built {
            return self.commit_again(alloc, telling, out);
        }
        let done = commit_files(alloc, &mut self.engine)?;
        let number = self.commits + 1;
        write_commit(alloc, telling, number, &done, self.engine.held(), out)?;
        self.commits = number;
        Ok(())
    }

    /// Takes the next event into the files; where it is a commit, they are built, and the commit is told.
    pub fn take<K: Sink>(
        &mut self,
        alloc: Global,
        telling: Telling,
        event: &Event<'s>,
        arena: &'s Bump,
        out: &mut K,
    ) -> Result<(), Stop>
        requires room { self.now.taken < 2 ^ 64 - 1 }
        requires commits { self.now.commits < 2 ^ 64 - 1 }
        requires made { self.now.made ≤ most_patched }
        ensures ok { OnOk result (IsEventTold telling (event_view event.now)
            (workspace_view self.old) (workspace_view self.new)
            (K.written out.old) (K.written out.new)) }
        ensures err { IfErr result (λ stop. Fails telling stop (event_view event.now)
            (workspace_view self.old) (K.written out.old) (K.written out.new)
            (K.faults out.old) (K.faults out.new)) }
        ensures later { K.faults out.old ≤ K.faults out.new }
    {
        self.edit(event, arena)?;
        match event {
            Event::Commit => self.commit(alloc, telling, out),
            Event::Put(..) | Event::Del(_) | Event::Move(..) | Event::Patch(..) => Ok(()),
        }
    }
}
