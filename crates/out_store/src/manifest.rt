//! Writing manifests, and the paths that they list.

ghost use Rattle.std.specs.Prelude.{◌≡◌, ◌||◌, ℕ, List, map, IfOk, OnOk};
ghost use Rattle.std.specs.FinMap as finite;
ghost use Rattle.std.specs.String.{string_bytes};
ghost use Rattle.out_store.specs.Manifest.{is_listed, manifest_text};

use std::alloc::Global;
use tk_io::{Bytes, NoMemory, Outputs, TextMap};

/// A set of paths, in byte order.
pub(crate) type Paths = TextMap<()>;

// Adds the paths of a list.
fn add_listed(paths: &mut Paths, listed: &[String]) -> Result<(), NoMemory>
    ensures { OnOk result ((q : List ℕ) → finite.contains_key paths.new q
        ≡ (finite.contains_key paths.old q || is_listed (map string_bytes listed.now) q)) }
{
    for path in listed {
        paths.put(path.as_str(), ())?;
    }
    Ok(())
}

// Adds the paths of outputs.
fn add_outputs(paths: &mut Paths, outputs: &Outputs) -> Result<(), NoMemory>
    ensures { OnOk result ((q : List ℕ) → finite.contains_key paths.new q
        ≡ (finite.contains_key paths.old q || finite.contains_key outputs.now q)) }
{
    for (path, _) in outputs.entries() {
        paths.put(path.as_str(), ())?;
    }
    Ok(())
}

/// The paths of a list and those of outputs together.
pub(crate) fn all_paths(
    alloc: Global,
    listed: &[String],
    outputs: &Outputs,
) -> Result<Paths, NoMemory>
    ensures { IfOk result (λ paths. (q : List ℕ) → finite.contains_key paths q
        ≡ (is_listed (map string_bytes listed.now) q || finite.contains_key outputs.now q)) }
{
    let mut paths = TextMap::new(alloc);
    add_listed(&mut paths, listed)?;
    add_outputs(&mut paths, outputs)?;
    Ok(paths)
}

/// The manifest of the entries' paths: a line for each.
pub(crate) fn manifest_of<V>(alloc: Global, entries: &[(String, V)]) -> Result<Bytes, NoMemory>
    ensures { IfOk result
        (λ text. text ≡ manifest_text (map (λ e. string_bytes e.0) entries.now)) }
{
    let mut text = Bytes::new(alloc);
    for (path, _) in entries {
        text.append(path.as_bytes())?;
        text.append(b"\n")?;
    }
    Ok(text)
}
