//! Copies of what groups say of themselves.

ghost use Rattle.std.specs.Prelude.{◌≡◌, IfOk};
ghost use Rattle.std.specs.Option.{option_copied};
ghost use Rattle.group_inherit.specs.inner.Outcomes.{IsSameTarget};

use tk_io::NoMemory;
use token_tree::{Extends, Mark};

/// The same mark, where one is given.
pub(crate) fn copy_mark<'s>(mark: Option<&Mark<'s>>) -> Result<Option<Mark<'s>>, NoMemory>
    ensures { IfOk result (λ m. m ≡ option_copied mark.entry) }
{
    match mark {
        None => Ok(None),
        Some(mark) => Ok(Some(mark.copy()?)),
    }
}

/// The same target, where one is given.
pub(crate) fn copy_target<'s>(
    extends: Option<&Extends<'s>>,
) -> Result<Option<Extends<'s>>, NoMemory>
    ensures { IfOk result (IsSameTarget (option_copied extends.entry)) }
{
    match extends {
        None => Ok(None),
        Some(extends) => Ok(Some(extends.copy()?)),
    }
}
