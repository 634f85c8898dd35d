//! The engine.

ghost use Rattle.std.specs.Prelude.{◌≡◌, None, Some, false, true, IfOk, OnOk, OnErr};
ghost use Rattle.std.specs.FinMap as map;
ghost use Rattle.std.specs.Option.{option_map};
ghost use Rattle.build_plain.specs.Out.{Builds};
ghost use Rattle.build_plain.specs.Work.{RiseWithin, added, work};
ghost use Rattle.rebuild_core.specs.Engine.{committed, counts_view, edited, refused, state};
ghost use Rattle.rebuild_core.specs.Work.{IsWorkFrom};
ghost use Rattle.rebuild_core.specs.inner.Past.{IsPast};

use crate::commit::Commit;
use crate::kept::{Kept, opened};
use crate::renewing::{Renewed, renew};
use file_plan::Files;
use std::alloc::Global;
use std::marker::Model;
use std::mem::replace;
use std::sync::ledger::Ledger;
use tk_io::{NoMemory, Outputs, Steps};

/// Files under edits, and the outputs of the last commit that ended well; seen as the files, the outputs that are held, the
/// files that they are of, where that is known, and whether no file was put or taken away since. What was made of those is
/// kept with them, so that the next commit makes only what changed.
#[derive(Drop)]
pub struct Engine<'s> {
    files: Files<'s>,
    held: Outputs,
    kept: Option<Kept<'s>>,
    /// Whether no file was put or taken away since these were kept.
    is_built: bool,
}

impl<'s> Model for Engine<'s> {
    ghost use Rattle.std.specs.Coded.{codes};
    ghost use Rattle.rebuild_core.specs.Engine.{EngineState, HoldsKept, coded_files, state};
    ghost use Rattle.rebuild_core.specs.inner.Built.{IsBuilt};

    ghost Value = { EngineState };

    ghost coded = { Prim.hlevel (codes, coded_files) };

    ghost view = { λ e. state e.files e.held e.kept e.is_built };

    ghost invariant = { λ e. HoldsKept (state e.files e.held e.kept e.is_built)
        × IsBuilt e.is_built (state e.files e.held e.kept e.is_built) };
}

impl<'s> Engine<'s> {
    /// No file and no output, and nothing kept.
    pub fn new(alloc: Global) -> Engine<'s>
        ensures { result ≡ state map.empty map.empty None false }
    {
        Engine {
            files: Files::new(alloc),
            held: Outputs::new(alloc),
            kept: None,
            is_built: false,
        }
    }

    /// Adds the file, or replaces its text. What is held stays until the next commit.
    ///
    /// # Errors
    /// `NoMemory`. Nothing changes then.
    pub fn put(&mut self, path: &'s str, text: &'s str) -> Result<(), NoMemory>
        ensures ok { OnOk result (self.new
            ≡ edited self.old (map.insert self.old.files path.entry.now text.entry.now)) }
        ensures err { OnErr result (self.new ≡ self.old) }
    {
        self.files.put(path, text)?;
        self.is_built = false;
        Ok(())
    }

    /// Takes the file away. Where there is no such file nothing changes. What is held stays until the next commit.
    pub fn del(&mut self, path: &str)
        ensures { self.new ≡ edited self.old (map.remove self.old.files path.now) }
    {
        self.is_built = false;
        self.files.del(path)
    }

    /// The text of the file at the path, or none where there is no such file.
    pub fn text(&self, path: &str) -> Option<&'s str>
        ensures { option_map (λ t. t.now) result ≡ map.get self.now.files path.now }
    {
        self.files.get(path)
    }

    /// The outputs of the last commit that ended well; none before the first.
    pub fn held(&self) -> &Outputs
        ensures { result.now ≡ self.now.held }
    {
        &self.held
    }

    /// Whether no file was put or taken away since the last commit, and that one ended well: the outputs that are held are
    /// those of the files then, and a commit would do nothing.
    pub fn is_built(&self) -> bool
        ensures state { result ≡ self.now.is_built }
        ensures kept { result ≡ true → self.now.kept ≡ Some self.now.files }
        ensures held { result ≡ true → Builds self.now.files self.now.held }
    {
        self.is_built
    }

    /// Builds the files: from here on their outputs are held, and are those that a build from nothing gives. Each file in
    /// use that was not in use with an equal text when the outputs that are held were built is read, which is one step of
    /// `parses`. Each permutation without a break in a source whose sources hold other than they did is merged, which is
    /// one step of `merges`. Each token that a change since then reaches is evaluated, which is one step of `evals`; where
    /// nothing is kept, or under another configuration, these are all tokens.
    ///
    /// # Errors
    /// `NoMemory`. The files and what is held stay, and nothing is kept. Less may have been done then.
    pub fn commit<L: Ledger, M: Ledger, N: Ledger>(
        &mut self,
        alloc: Global,
        parses: &mut Steps<L>,
        merges: &mut Steps<M>,
        evals: &mut Steps<N>,
    ) -> Result<Commit, NoMemory>
        ensures held { OnOk result (Builds self.old.files self.new.held) }
        ensures kept { OnOk result (self.new ≡ committed self.old.files self.new.held) }
        ensures before { IfOk result (λ done. done.before ≡ self.old.held) }
        ensures counts { IfOk result (λ done.
            IsWorkFrom self.old.kept self.old.files (counts_view done.counts)) }
        // Each counter rose by exactly its number.
        ensures counted { IfOk result (λ done. work parses.new merges.new evals.new
            ≡ added (work parses.old merges.old evals.old) (counts_view done.counts)) }
        ensures err { OnErr result (self.new ≡ refused self.old) }
        // Where memory runs out, less may have been done.
        ensures at_most { RiseWithin (IsWorkFrom self.old.kept self.old.files)
            (work parses.old merges.old evals.old) (work parses.new merges.new evals.new) }
    {
        self.is_built = false;
        let past = opened(alloc, replace(&mut self.kept, None));
        match renew(alloc, &self.files, &past, parses, merges, evals) {
            Ok(made) => Ok(self.hold(made)),
            Err(NoMemory) => Err(NoMemory),
        }
    }

    // From here on what was made of files is kept, and its outputs are held.
    fn hold(&mut self, made: Renewed<'s>) -> Commit
        requires files { made.past.files ≡ self.now.files }
        requires past { IsPast (Some made.past.files) made.past }
        requires outputs { Builds made.past.files made.outputs }
        ensures state { self.new
            ≡ state self.old.files made.entry.outputs (Some made.entry.past.files) true }
        ensures before { result.before ≡ self.old.held }
        ensures counts { counts_view result.counts ≡ counts_view made.entry.counts }
    {
        let Renewed {
            past,
            outputs,
            counts,
        } = made;
        let before = replace(&mut self.held, outputs);
        self.kept = Some(Kept::new(past));
        self.is_built = true;
        Commit { counts, before }
    }
}
