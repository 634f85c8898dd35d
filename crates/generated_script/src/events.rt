//! The events of the generated script.

ghost use Rattle.std.specs.Prelude.{◌≡◌, ◌<◌, ◌≤◌, ◌^◌, ◌++◌, OnOk};
ghost use Rattle.std.specs.List.{flat_map, range_with_len};
ghost use Rattle.edit_script.specs.Script.{commit, event_text, put};
ghost use Rattle.generated_script.specs.Script.{edit_count, edit_events, first_events, put_core};
ghost use Rattle.generated_script.specs.Script.{resolver_text};
ghost use Rattle.generated_script.specs.declared.script.TheConstants.{MOST_TOKENS};

use crate::core_file::{add_number, core_text};
use std::alloc::Global;
use tk_io::{Bytes, NoMemory};

/// How many times `core.json` is edited.
const EDITS: u64 = 20;

fn add_put(out: &mut Bytes, path: &str, text: &[u8]) -> Result<(), NoMemory>
    ensures { OnOk result (out.new ≡ out.old ++ event_text (put path.now text.now)) }
{
    out.append(b"put ")?;
    out.append(path.as_bytes())?;
    out.append(b" ")?;
    add_number(out, text.len() as u64)?;
    out.append(b"\n")?;
    out.append(text)?;
    out.append(b"\n")?;
    Ok(())
}

fn add_commit(out: &mut Bytes) -> Result<(), NoMemory>
    ensures { OnOk result (out.new ≡ out.old ++ event_text commit) }
{
    out.append(b"commit\n")?;
    Ok(())
}

// The file `resolver.json`: one set and two modifiers of two contexts each.
#[tactic(auto, unfolding(crate::specs::Script::resolver_text))]
fn resolver_text() -> &'static str
    ensures { result.now ≡ resolver_text }
{
    r##"{"version":"2025.10","sets":{"core":{"sources":[{"$ref":"core.json"}]}},"modifiers":{"theme":{"contexts":{"light":[{"$ref":"light.json"}],"dark":[{"$ref":"dark.json"}]},"default":"light"},"density":{"contexts":{"cozy":[{"$ref":"cozy.json"}],"compact":[{"$ref":"compact.json"}]}}},"resolutionOrder":[{"$ref":"#/sets/core"},{"$ref":"#/modifiers/theme"},{"$ref":"#/modifiers/density"}]}"##
}

// Adds the put of `core.json` after so many edits.
fn add_core(
    alloc: Global,
    out: &mut Bytes,
    seed: u64,
    size: u64,
    edits: u64,
) -> Result<(), NoMemory>
    requires { (seed < 2 ^ 32) × (1 ≤ size) × (size ≤ MOST_TOKENS) × (edits ≤ edit_count) }
    ensures { OnOk result (out.new ≡ out.old ++ event_text (put_core seed size edits)) }
{
    let text = core_text(alloc, seed, size, edits)?;
    add_put(out, "core.json", text.as_slice())?;
    Ok(())
}

/// Adds the puts of all files, and their commit.
pub(crate) fn add_first(
    alloc: Global,
    out: &mut Bytes,
    seed: u64,
    size: u64,
) -> Result<(), NoMemory>
    requires { (seed < 2 ^ 32) × (1 ≤ size) × (size ≤ MOST_TOKENS) }
    ensures { OnOk result (out.new ≡ out.old ++ flat_map event_text (first_events seed size)) }
{
    add_put(out, "resolver.json", resolver_text().as_bytes())?;
    add_core(alloc, out, seed, size, 0)?;
    add_put(
        out,
        "light.json",
        br#"{"theme":{"$type":"number","$value":1}}"#,
    )?;
    add_put(
        out,
        "dark.json",
        br#"{"theme":{"$type":"number","$value":2}}"#,
    )?;
    add_put(
        out,
        "cozy.json",
        br#"{"dens":{"$type":"number","$value":1}}"#,
    )?;
    add_put(
        out,
        "compact.json",
        br#"{"dens":{"$type":"number","$value":2}}"#,
    )?;
    add_commit(out)?;
    Ok(())
}

// Adds an edit of `core.json`, and its commit.
fn add_edit(alloc: Global, out: &mut Bytes, seed: u64, size: u64, edit: u64) -> Result<(), NoMemory>
    requires { (seed < 2 ^ 32) × (1 ≤ size) × (size ≤ MOST_TOKENS) × (edit ≤ edit_count) }
    ensures { OnOk result (out.new ≡ out.old ++ flat_map event_text (edit_events seed size edit)) }
{
    add_core(alloc, out, seed, size, edit)?;
    add_commit(out)
}

/// Adds all edits of `core.json`, each with its commit.
pub(crate) fn add_edits(
    alloc: Global,
    out: &mut Bytes,
    seed: u64,
    size: u64,
) -> Result<(), NoMemory>
    requires { (seed < 2 ^ 32) × (1 ≤ size) × (size ≤ MOST_TOKENS) }
    ensures { OnOk result (out.new ≡ out.old
        ++ flat_map event_text (flat_map (edit_events seed size) (range_with_len 1 edit_count))) }
{
    for edit in 1..EDITS + 1 {
        add_edit(alloc, out, seed, size, edit)?;
    }
    Ok(())
}
