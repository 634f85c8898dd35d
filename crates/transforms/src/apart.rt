//! Whether names are apart.

ghost use Rattle.std.specs.Prelude.{◌≡◌, Decides, IfOk, map};
ghost use Rattle.ring.specs.Lists.{AreApart};
ghost use Rattle.transforms.specs.Rising.{rank, rises};

use tk_io::NoMemory;

// Where the byte stands among all, if what is put between the names of groups comes first.
fn rank(byte: u8) -> u8
    ensures { result ≡ rank byte }
{
    match byte {
        b'-' | b'_' => 0,
        _ => byte,
    }
}

/// Whether the next name stands behind the name in the order of these ranks.
pub(crate) fn rises(name: &[u8], next: &[u8]) -> bool
    ensures { result ≡ rises name.now next.now }
{
    for (byte, other) in name.iter().zip(next) {
        if byte != other && rank(*byte) != rank(*other) {
            return rank(*byte) < rank(*other);
        }
    }
    name.len() < next.len()
}

// Whether no name stands twice, by names in their order, where equal ones are neighbours.
fn are_apart_in_order(names: Vec<&[u8]>) -> Result<bool, NoMemory>
    ensures { IfOk result (λ answer. Decides answer
        (AreApart (map (λ name. name.now) names.entry.items))) }
{
    let mut sorted = names;
    sorted.sort()?;
    Ok(sorted.is_sorted_by(|name, next| name.cmp(next).is_lt()))
}

/// Whether no name stands twice. Names that rise, as those of tokens in path order mostly do, are gone over once. Others
/// are sorted.
pub fn are_apart(names: Vec<&[u8]>) -> Result<bool, NoMemory>
    ensures { IfOk result (λ answer. Decides answer
        (AreApart (map (λ name. name.now) names.entry.items))) }
{
    if names.is_sorted_by(|name, next| rises(name, next)) {
        return Ok(true);
    }
    are_apart_in_order(names)
}
