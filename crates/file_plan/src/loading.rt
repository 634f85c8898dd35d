//! The files that the events of a script leave.

ghost use Rattle.std.specs.Prelude.{◌≡◌, ◌≤◌, ℕ, Err, IfOk, MatchOption, OnOk};
ghost use Rattle.std.specs.FinMap as map;
ghost use Rattle.std.specs.Option.{option_map};
ghost use Rattle.edit_script.specs.Effect.{files_by};
ghost use Rattle.edit_script.specs.Files.{AreFilesAfter, EveryFits, IsUnfit};
ghost use Rattle.edit_script.specs.Files.{most_patched, present_of};
ghost use Rattle.edit_script.specs.View.{event_view, outcome_view};
ghost use Rattle.file_plan.specs.Loading.{IsRefused, IsTaken};
ghost use Rattle.file_plan.specs.declared.loading.LoadStop.TheVariants.{NoMemory as OutOfMemory};

use crate::files::Files;
use bumpalo::Bump;
use edit_script::{Event, Events, Outcome, effect, made_length};
use std::alloc::Global;
use tk_io::NoMemory;

/// Why events leave no files.
#[derive(Clone, Copy, Debug, PartialEq, Eq)]
pub enum LoadStop {
    /// The event with this number, counted from 1 with the commits, is the first that does not fit what stands before it.
    Unfit(usize),
    /// Memory ran out.
    NoMemory,
}

impl<'s> Files<'s> {
    // The text that the event looks at: that of its path, and of a move's first path.
    fn present(&self, event: &Event<'_>) -> Option<&'s str>
        ensures { option_map (λ t. t.now) result
            ≡ present_of (event_view event.now) (map.get self.now) }
    {
        match event.path() {
            Some(path) => self.get(path),
            None => None,
        }
    }

    // Does what comes of an event.
    fn apply(&mut self, outcome: &Outcome<'s>) -> Result<(), NoMemory>
        ensures { OnOk result (self.new ≡ files_by (outcome_view outcome.now) self.old) }
    {
        match outcome {
            Outcome::Put(path, text) => self.put(path, text)?,
            Outcome::Del(path) => self.del(path),
            Outcome::Move(first, second, text) => {
                self.del(first);
                self.put(second, text)?;
            }
            Outcome::Commit | Outcome::Unfit => {}
        }
        Ok(())
    }

    /// Takes the next event of a script. `made` is the sum, in bytes, of the lengths of the texts that the patches before
    /// it made; the answer is that sum with what it made itself, or none where the event does not fit what stands. A
    /// patched text is made in the arena.
    ///
    /// # Errors
    /// `NoMemory`.
    pub fn take(
        &mut self,
        event: &Event<'s>,
        made: u64,
        arena: &'s Bump,
    ) -> Result<Option<u64>, NoMemory>
        requires { made ≤ most_patched }
        // An event is taken only where it fits, ..
        ensures taken { IfOk result (λ sum. MatchOption sum
            (IsRefused (event_view event.now) made self.old self.new)
            (λ next. IsTaken (event_view event.now) made self.old self.new next)) }
    {
        let outcome = effect(event, self.present(event), made, arena)?;
        if outcome == Outcome::Unfit {
            return Ok(None);
        }
        self.apply(&outcome)?;
        Ok(Some(made + made_length(event, &outcome)))
    }

    /// The files after all events of a script. Patched texts are made in the arena.
    ///
    /// # Errors
    /// `Unfit` exactly where an event does not fit what stands before it, with the number of the first; `NoMemory`.
    pub fn load(alloc: Global, events: &Events<'s>, arena: &'s Bump) -> Result<Files<'s>, LoadStop>
        ensures files { IfOk result (λ files. AreFilesAfter events.now files) }
        ensures fits { IfOk result (λ _. EveryFits events.now) }
        ensures unfit { (number : ℕ) → result ≡ Err (LoadStop.Unfit number)
            → IsUnfit events.now number }
    {
        let mut files = Files::new(alloc);
        let mut made = 0;
        let mut number = 0;
        for event in events.as_slice() {
            number += 1;
            let Some(sum) = files.take(event, made, arena)? else {
                return Err(LoadStop::Unfit(number));
            };
            made = sum;
        }
        Ok(files)
    }
}

impl From<NoMemory> for LoadStop {
    ghost from_gives = { λ _ e. e ≡ OutOfMemory };

    fn from(_: NoMemory) -> LoadStop {
        LoadStop::NoMemory
    }
}
