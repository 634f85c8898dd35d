//! Adding what a token gives to the files of platforms.

ghost use Rattle.std.specs.Prelude.{◌≡◌, IfOk};
ghost use Rattle.composite_rules.specs.Sound.{IsTyped};
ghost use Rattle.css_out.specs.Fragment.{css_name};
ghost use Rattle.css_out.specs.Sources as on_css;
ghost use Rattle.android_out.specs.Spelling.{android_name};
ghost use Rattle.android_out.specs.Sheets as on_android;
ghost use Rattle.ios_out.specs.Spelling.{swift_name};
ghost use Rattle.ios_out.specs.Sheets as in_swift;
ghost use Rattle.json_out.specs.Properties.{extras_view};
ghost use Rattle.token_cells.specs.Cell.{TokenPath, IsCssOf, IsAndroidOf, IsSwiftOf, IsJsonOf};
ghost use Rattle.token_cells.specs.inner.AddedToPages.{AddsNames, AreNamesAt};
ghost use Rattle.token_cells.specs.inner.Making.{Adds, AddsJson};

use crate::row::{Run, Shown};
use composite_rules::Typed;
use json_out::Extras;
use name_path::{Links, Path};
use std::alloc::Global;
use tk_io::{Bytes, NoMemory};
use transforms::{Config, Extent, Names, Sheet, Texts};

/// The place of a name, which is below 2^32.
pub(crate) fn place(len: usize) -> Result<u32, NoMemory>
    ensures { IfOk result (λ place. place ≡ len) }
{
    if len > 0xffff_ffff {
        return Err(NoMemory);
    }
    Ok(len as u32)
}

// Adds the names, and says where they stand.
fn push_names(all: &mut Texts, names: &Names<'_>) -> Result<Run, NoMemory>
    ensures { IfOk result (λ run. AddsNames all.old all.new run names.now) }
{
    let start = place(all.len())?;
    names.push_to(all)?;
    let end = place(all.len())?;
    Ok(Run { start, end })
}

// Adds the names of Swift, unless they are those of Android, and says where they stand.
fn push_swift(
    all: &mut Texts,
    swift: &Names<'_>,
    android: &Names<'_>,
    run: Run,
) -> Result<Run, NoMemory>
    requires { AreNamesAt all.old run android.now }
    ensures { IfOk result (λ own. AddsNames all.old all.new own swift.now) }
{
    if android.is_same(swift) {
        return Ok(run);
    }
    push_names(all, swift)
}

/// What was added, and its names.
#[derive(Debug, Drop)]
pub(crate) struct Added<'a> {
    pub(crate) shown: Shown,
    pub(crate) names: Names<'a>,
}

/// Adds the lines of CSS, and the names that they declare: this one, or those that are made of it. The lines are made in
/// a buffer, whatever it holds.
pub(crate) fn add_css<'a>(
    alloc: Global,
    lines: &mut Bytes,
    sheet: &mut Sheet,
    all: &mut Texts,
    name: &'a [u8],
    typed: &Typed<'_>,
    links: &Links<'_>,
    cfg: &Config,
) -> Result<Shown, NoMemory>
    requires { IsTyped typed.now }
    ensures { (path : TokenPath) → name.now ≡ css_name cfg.now.prefix path
        → on_css.IsNamed cfg.now path → IfOk result (Adds (IsCssOf cfg.now path typed.now links.now)
        sheet.old sheet.new all.old all.new) }
{
    let names = css_out::fragment(alloc, lines, name, typed, links, cfg)?;
    Ok(Shown {
        lines: sheet.add_body(lines.as_slice())?,
        names: push_names(all, &names)?,
    })
}

/// The same of Android.
pub(crate) fn add_android<'a>(
    alloc: Global,
    lines: &mut Bytes,
    sheet: &mut Sheet,
    all: &mut Texts,
    name: &'a [u8],
    typed: &Typed<'_>,
    cfg: &Config,
) -> Result<Added<'a>, NoMemory>
    requires { IsTyped typed.now }
    ensures added { (path : TokenPath) → name.now ≡ android_name cfg.now path
        → on_android.IsNamed cfg.now path → IfOk result
        (λ added. Adds (IsAndroidOf cfg.now path typed.now)
        sheet.old sheet.new all.old all.new added.shown) }
    ensures names { IfOk result (λ added. AreNamesAt all.new added.shown.names added.names) }
{
    let names = android_out::fragment(alloc, lines, name, typed, cfg)?;
    let shown = Shown {
        lines: sheet.add_body(lines.as_slice())?,
        names: push_names(all, &names)?,
    };
    Ok(Added { shown, names })
}

/// The same of Swift, where a token often has the names that it has on Android.
pub(crate) fn add_swift<'a>(
    alloc: Global,
    lines: &mut Bytes,
    sheet: &mut Sheet,
    all: &mut Texts,
    name: &'a [u8],
    android: &Added<'_>,
    typed: &Typed<'_>,
    cfg: &Config,
) -> Result<Shown, NoMemory>
    requires typed { IsTyped typed.now }
    requires android { AreNamesAt all.old android.now.shown.names android.now.names }
    ensures { (path : TokenPath) → name.now ≡ swift_name cfg.now path
        → in_swift.IsNamed cfg.now path → IfOk result (Adds (IsSwiftOf cfg.now path typed.now)
        sheet.old sheet.new all.old all.new) }
{
    let names = ios_out::fragment(alloc, lines, name, typed, cfg)?;
    Ok(Shown {
        lines: sheet.add_body(lines.as_slice())?,
        names: push_swift(all, &names, &android.names, android.shown.names)?,
    })
}

/// Adds the member of JSON, which declares no name.
pub(crate) fn add_json(
    lines: &mut Bytes,
    sheet: &mut Sheet,
    path: &Path<'_>,
    typed: &Typed<'_>,
    extras: &Extras<'_>,
) -> Result<Extent, NoMemory>
    ensures { IfOk result (AddsJson (IsJsonOf path.now typed.now (extras_view extras.now))
        sheet.old sheet.new) }
{
    json_out::fragment(lines, path, typed, extras)?;
    sheet.add_body(lines.as_slice())
}
