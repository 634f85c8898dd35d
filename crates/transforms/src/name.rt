//! The names of tokens on platforms.

ghost use Rattle.std.specs.Prelude.{◌≡◌, [], ◌++◌, ◌∷◌, ◌<◌, true, length, codes, IfOk, OnOk};
ghost use Rattle.std.specs.Prelude.{OnErr};
ghost use Rattle.std.specs.List.{flat_map, list_all};
ghost use Rattle.std.specs.Str.{bytes_eq};
ghost use Rattle.name_path.specs.Names.{IsTokenPath, root_name};
ghost use Rattle.transforms.specs.Config.{is_prefix};
ghost use Rattle.transforms.specs.inner.Joined.{joined_names, HasFirst};
ghost use Rattle.transforms.specs.PlatformName.{joint, is_kept, spelled_char, spelled};
ghost use Rattle.transforms.specs.PlatformName.{without_root, joined, begins_with_digit};
ghost use Rattle.transforms.specs.PlatformName.{behind_mark, is_property, is_identifier, name_on};
ghost use Rattle.transforms.specs.PlatformName.{is_name_on};

use crate::hexadecimal::append_number;
use crate::{Config, Platform};
use name_path::Path;
use std::alloc::Global;
use tk_io::{Bytes, NoMemory, Text};

/// Most names have no more bytes than this, so that memory is asked for once.
const ROOM: usize = 32;

fn append_character(platform: Platform, c: char, out: &mut Bytes) -> Result<(), NoMemory>
    ensures { OnOk result (out.new ≡ out.old ++ spelled_char platform c) }
{
    let n = c as u32;
    if n >= 128 {
        return append_number(n, out);
    }
    let byte = n as u8;
    if platform.keeps(byte) {
        out.append(&[byte])
    } else {
        out.append(&[platform.joint()])
    }
}

fn append_characters(platform: Platform, name: &str, out: &mut Bytes) -> Result<(), NoMemory>
    ensures { OnOk result (out.new ≡ out.old ++ spelled platform name.now) }
{
    for c in name.chars() {
        append_character(platform, c, out)?;
    }
    Ok(())
}

// Whether the platform keeps each byte of a name, so that the name is its own spelling.
fn is_kept_whole(platform: Platform, name: &[u8]) -> bool
    ensures { result ≡ list_all (is_kept platform) name.now }
{
    name.iter().all(|byte| platform.keeps(*byte))
}

fn append_name(platform: Platform, name: &str, out: &mut Bytes) -> Result<(), NoMemory>
    ensures spelled { OnOk result (out.new ≡ out.old ++ spelled platform name.now) }
    ensures some { OnOk result (0 < length name.now → 0 < length (spelled platform name.now)) }
{
    if is_kept_whole(platform, name.as_bytes()) {
        out.append(name.as_bytes())?;
        return Ok(());
    }
    append_characters(platform, name, out)?;
    Ok(())
}

// Appends each name with what joins names on the platform before it.
fn append_behind_joints(
    platform: Platform,
    names: &[Text<'_>],
    out: &mut Bytes,
) -> Result<(), NoMemory>
    ensures { OnOk result (out.new
        ≡ out.old ++ flat_map (λ name. joint platform ∷ spelled platform name) names.now) }
{
    for name in names {
        out.append(&[platform.joint()])?;
        append_name(platform, name.as_str(), out)?;
    }
    Ok(())
}

fn is_root(name: &Text<'_>) -> bool
    ensures { result ≡ bytes_eq name.now root_name }
{
    name.as_str() == "$root"
}

/// The names without a last `$root`.
fn own_names<'p, 's>(names: &'p [Text<'s>]) -> &'p [Text<'s>]
    ensures { result.now ≡ without_root names.now }
{
    let Some((last, front)) = names.split_last() else {
        return names;
    };
    if is_root(last) {
        return front;
    }
    names
}

/// Appends the names, joined; `root` in place of no names.
fn append_names(platform: Platform, names: &[Text<'_>], out: &mut Bytes) -> Result<(), NoMemory>
    ensures joined { OnOk result (out.new ≡ out.old ++ joined_names platform names.now) }
    ensures some { OnOk result (HasFirst names.now → 0 < length (joined_names platform names.now)) }
{
    let Some((first, rest)) = names.split_first() else {
        out.append(b"root")?;
        return Ok(());
    };
    append_name(platform, first.as_str(), out)?;
    append_behind_joints(platform, rest, out)?;
    Ok(())
}

/// Appends the prefix and the path's names, joined.
fn append_joined(
    platform: Platform,
    prefix: &[u8],
    path: &Path<'_>,
    out: &mut Bytes,
) -> Result<(), NoMemory>
    ensures joined { OnOk result (out.new ≡ out.old ++ joined platform prefix.now path.now) }
    ensures some { OnOk result (IsTokenPath path.now
        → 0 < length (joined platform prefix.now path.now)) }
{
    let names = own_names(path.as_slice());
    if prefix.is_empty() {
        append_names(platform, names, out)?;
        return Ok(());
    }
    let joint = [platform.joint()];
    out.append(prefix)?;
    out.append(&joint)?;
    append_names(platform, names, out)?;
    Ok(())
}

fn write_property(prefix: &[u8], path: &Path<'_>, name: &mut Bytes) -> Result<(), NoMemory>
    ensures is { OnOk result (name.new
        ≡ codes "--" ++ joined Platform.Css prefix.now path.now) }
    ensures named { OnOk result (is_prefix prefix.now ≡ true → IsTokenPath path.now
        → is_property name.new ≡ true) }
{
    name.truncate(0);
    name.append(b"--")?;
    append_joined(Platform::Css, prefix, path, name)?;
    Ok(())
}

fn begins_with_digit(name: &[u8]) -> bool
    ensures { result ≡ begins_with_digit name.now }
{
    match name.first() {
        Some(first) => first.is_ascii_digit(),
        None => false,
    }
}

fn behind_mark(alloc: Global, name: &[u8]) -> Result<Bytes, NoMemory>
    ensures { IfOk result (λ marked. marked ≡ 95 ∷ name.now) }
{
    let mut marked = Bytes::new(alloc);
    marked.append(b"_")?;
    marked.append(name)?;
    Ok(marked)
}

fn write_identifier(
    alloc: Global,
    platform: Platform,
    prefix: &[u8],
    path: &Path<'_>,
    name: &mut Bytes,
) -> Result<(), NoMemory>
    ensures is { OnOk result (name.new ≡ behind_mark (joined platform prefix.now path.now)) }
    ensures named { joint platform ≡ joint Platform.Android → is_prefix prefix.now ≡ true
        → IsTokenPath path.now → OnOk result (is_identifier name.new ≡ true) }
{
    name.truncate(0);
    append_joined(platform, prefix, path, name)?;
    if begins_with_digit(name.as_slice()) {
        let marked = behind_mark(alloc, name.as_slice())?;
        *name = marked;
        return Ok(());
    }
    Ok(())
}

// Writes the name in place of what the buffer holds; on `NoMemory` the buffer holds anything.
fn name_in(
    alloc: Global,
    platform: Platform,
    path: &Path<'_>,
    cfg: &Config,
    name: &mut Bytes,
) -> Result<(), NoMemory>
    ensures is { OnOk result (name.new ≡ name_on platform cfg.now.prefix path.now) }
    ensures named { OnOk result (IsTokenPath path.now → is_name_on platform name.new ≡ true) }
{
    let prefix = cfg.prefix.as_slice();
    match platform {
        Platform::Css => write_property(prefix, path, name),
        Platform::Android => write_identifier(alloc, Platform::Android, prefix, path, name),
        Platform::Swift => write_identifier(alloc, Platform::Swift, prefix, path, name),
    }
}

/// Writes the name of the token at the path in place of what the buffer holds: the prefix and the path's names without a
/// last `$root`, character by character. On CSS they are joined by `-` after `--`, elsewhere by `_`, with a `_` before a
/// leading digit. The path `$root` alone has the name `root`. On `NoMemory` the buffer is empty.
pub fn write_name(
    alloc: Global,
    platform: Platform,
    path: &Path<'_>,
    cfg: &Config,
    name: &mut Bytes,
) -> Result<(), NoMemory>
    ensures is { OnOk result (name.new ≡ name_on platform cfg.now.prefix path.now) }
    // A path that a token can have gives a name of the platform's language.
    ensures named { OnOk result (IsTokenPath path.now → is_name_on platform name.new ≡ true) }
    ensures cleared { OnErr result (name.new ≡ []) }
{
    match name_in(alloc, platform, path, cfg, name) {
        Ok(()) => Ok(()),
        Err(NoMemory) => {
            name.truncate(0);
            Err(NoMemory)
        }
    }
}

/// The name of the token at the path, in a buffer of its own. Else as [`write_name`].
pub fn name_for(
    alloc: Global,
    platform: Platform,
    path: &Path<'_>,
    cfg: &Config,
) -> Result<Bytes, NoMemory>
    ensures is { IfOk result (λ name. name ≡ name_on platform cfg.now.prefix path.now) }
    // A path that a token can have gives a name of the platform's language.
    ensures named { IfOk result (λ name. IsTokenPath path.now → is_name_on platform name ≡ true) }
{
    let mut name = Bytes::with_room(alloc, ROOM)?;
    write_name(alloc, platform, path, cfg, &mut name)?;
    Ok(name)
}

/// The name with an ending, as the five values of a typography have it.
pub fn name_with_ending(alloc: Global, name: &[u8], ending: &str) -> Result<Bytes, NoMemory>
    ensures { IfOk result (λ ended. ended ≡ name.now ++ ending.now) }
{
    let mut ended = Bytes::with_room(alloc, ROOM)?;
    ended.append(name)?;
    ended.append(ending.as_bytes())?;
    Ok(ended)
}
