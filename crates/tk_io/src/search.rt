//! Looking through a list in order by halves.

ghost use Rattle.std.specs.Prelude.{◌≡◌};
ghost use Rattle.std.specs.List.{list_any};
ghost use Rattle.std.specs.List.Sorted.{IsSorted};
ghost use Rattle.std.specs.Ordering.{is_eq};

/// Whether the item is in a list whose items do not fall.
pub fn is_in<T: Ord>(list: &[T], item: &T) -> bool
    requires { IsSorted T.cmp list.now }
    ensures { result ≡ list_any (λ each. is_eq (T.cmp each item.now)) list.now }
{
    list.binary_search(item).is_ok()
}
