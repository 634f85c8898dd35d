//! The sheet for all permutations of files.

ghost use Rattle.std.specs.Prelude.{◌≡◌, ℕ, List, Option, Some, Err, IfOk, IfErr, map};
ghost use Rattle.std.specs.FinMap as finite;
ghost use Rattle.build_plain.specs.Out.{Builds};
ghost use Rattle.file_plan.specs.InUse.{resolver_path};
ghost use Rattle.tk_io.specs.FilesData.{FilesData};
ghost use Rattle.permutations.specs.Name.{name_of};
ghost use Rattle.resolver_doc.specs.Document.{ItemData};
ghost use Rattle.resolver_doc.specs.View.{order_view};
ghost use Rattle.file_plan.specs.Trees.{IsRead, IsTreeOf};
ghost use Rattle.json_span.specs.Answer.{IsAnswer, shows};
ghost use Rattle.json_span.specs.View.{node_view};
ghost use Rattle.permutations.specs.View.{perms_view};
ghost use Rattle.theme_css.specs.Themes.{HasBadName, HasRefusal, IsAnswered, IsSheetOf, IsThemeSheet};
ghost use Rattle.theme_css.specs.Themes.{IsThemeStop, Resolves, pages};
ghost use Rattle.theme_css.specs.inner.Order.{HasNoInitial};
ghost use Rattle.std.specs.List.{AllByRecursion};
ghost use Rattle.theme_css.specs.inner.Pages.{IsAnswerOf, IsBadName, IsSheetOfOrder, pages_view};

use crate::blocks::{blocks_of, themes_of};
use crate::building::{build_anew, resolver_tree};
use crate::choices::{rows_of, usual_of};
use crate::names::first_bad;
use crate::order::are_in_order;
use crate::pages::{Page, pages_of};
use crate::refusal::first_refused;
use crate::stop::ThemeStop;
use crate::table::all_names;
use crate::writing::sheet_of;
use build_plain::one_build;
use css_out::reading_laws;
use file_plan::{Files, Tree};
use json_span::{Node, json_laws};
use permutations::{Perm, list};
use resolver_doc::{Item, Resolver, read_resolver};
use std::alloc::Global;
use tk_io::{Bytes, NoMemory, Outputs};

// The bytes of a text.
fn bytes_of(alloc: Global, text: &str) -> Result<Bytes, NoMemory>
    ensures { IfOk result (λ bytes. bytes ≡ text.now) }
{
    let mut bytes = Bytes::new(alloc);
    bytes.append(text.as_bytes())?;
    Ok(bytes)
}

// The sheet of pages.
fn sheet_of_pages(alloc: Global, pages: &[Page<'_, '_, '_>]) -> Result<Bytes, NoMemory>
    requires { AllByRecursion HasNoInitial (pages_view pages.now) }
    ensures { IfOk result (IsSheetOf (pages_view pages.now)) }
{
    let names = all_names(alloc, pages)?;
    let themes = themes_of(alloc, &names, pages)?;
    if !are_in_order(themes.as_slice()) {
        return Err(NoMemory);
    }
    let blocks = blocks_of(alloc, names.len(), themes.as_slice())?;
    sheet_of(alloc, &names, blocks.as_slice())
}

// The sheet of the permutations of an order, by their names.
fn sheet_of_order(
    alloc: Global,
    outputs: &Outputs,
    order: &[Item<'_, '_>],
    names: &[&str],
) -> Result<Bytes, ThemeStop>
    requires { map (λ n. n.now) names.now ≡ map name_of (pages (order_view order.now)) }
    ensures sheet { IfOk result (λ sheet. IsSheetOfOrder outputs.now (order_view order.now) sheet) }
    ensures stop { IfErr result (IsBadName (order_view order.now)) }
{
    if let Some(name) = first_bad(order) {
        return Err(ThemeStop::Name(bytes_of(alloc, name)?));
    }
    let usual = usual_of(alloc, order)?;
    let rows = rows_of(alloc, order)?;
    let pages = pages_of(alloc, outputs, usual.as_slice(), names, rows.as_slice())?;
    Ok(sheet_of_pages(alloc, pages.as_slice())?)
}

// The names of permutations.
fn names_of<'p>(alloc: Global, perms: &'p [Perm<'_, '_>]) -> Result<Vec<&'p str>, NoMemory>
    ensures { IfOk result (λ names. map (λ n. n.now) names.items
        ≡ map (λ p. p.name) (perms_view perms.entry.now)) }
{
    let mut names = Vec::with_capacity(alloc, perms.len())?;
    for perm in perms {
        names.push(perm.name.as_str())?;
    }
    Ok(names)
}

// The sheet of the permutations of a resolver document.
fn sheet_of_resolver(
    alloc: Global,
    outputs: &Outputs,
    resolver: &Resolver<'_, '_>,
) -> Result<Bytes, ThemeStop>
    ensures sheet { IfOk result (λ sheet.
        IsSheetOfOrder outputs.now (order_view resolver.now.order) sheet) }
    ensures stop { IfErr result (IsBadName (order_view resolver.now.order)) }
{
    let Ok(perms) = list(alloc, resolver) else {
        return Err(ThemeStop::NoMemory);
    };
    let names = names_of(alloc, perms.as_slice())?;
    sheet_of_order(alloc, outputs, resolver.order.as_slice(), names.as_slice())
}

// The sheet of a resolver document's tree. The outputs hold no refusal, so that the document breaks no rule.
fn sheet_of_document(alloc: Global, outputs: &Outputs, root: &Node<'_>) -> Result<Bytes, ThemeStop>
    ensures { (text : List ℕ) → IsAnswer text (shows (node_view root.now))
        → IsAnswerOf outputs.now (Resolves (Some text)) result }
{
    let Ok(resolver) = read_resolver(alloc, root) else {
        return Err(ThemeStop::NoMemory);
    };
    sheet_of_resolver(alloc, outputs, &resolver)
}

// The sheet by what the text of the resolver document reads as.
fn sheet_of_tree(alloc: Global, outputs: &Outputs, tree: &Tree<'_>) -> Result<Bytes, ThemeStop>
    ensures { (text : List ℕ) → IsTreeOf text tree.now
        → IsAnswerOf outputs.now (Resolves (Some text)) result }
{
    match tree {
        Tree::Read(root) => sheet_of_document(alloc, outputs, root),
        Tree::Flawed(_) => Err(ThemeStop::NoMemory),
    }
}

// The sheet by the tree of the resolver document, where there is one.
fn sheet_by(alloc: Global, outputs: &Outputs, tree: &Option<Tree<'_>>) -> Result<Bytes, ThemeStop>
    ensures { (text : Option (List ℕ)) → IsRead text tree.now
        → IsAnswerOf outputs.now (Resolves text) result }
{
    match tree {
        Some(read) => sheet_of_tree(alloc, outputs, read),
        None => sheet_of_order(alloc, outputs, &[], &["default"]),
    }
}

// The sheet of files, or why there is none.
fn sheet_for(alloc: Global, files: &Files<'_>) -> Result<Bytes, ThemeStop>
    ensures sheet { IfOk result (IsThemeSheet files.now) }
    ensures stop { IfErr result (IsThemeStop files.now) }
{
    reading_laws();
    let outputs = build_anew(alloc, files)?;
    if let Some(path) = first_refused(&outputs) {
        return Err(ThemeStop::Refused(bytes_of(alloc, path)?));
    }
    let tree = resolver_tree(alloc, files)?;
    sheet_by(alloc, &outputs, &tree)
}

/// One style sheet for all permutations of files. The usual context of a modifier is its `default`, and else its first one.
/// There is a block for each permutation, ordered by the number of its contexts that are not the usual ones and then as
/// permutations are. Its selector is `:root` with `[data-MODIFIER="CONTEXT"]` for each of these contexts. It declares what the
/// blocks before it leave to be said: each name of the permutation's own `tokens.css` whose value on its page they don't give,
/// and `initial` for each name that they give a value and `tokens.css` does not. So on a page of a permutation's attributes
/// each name has the value that it has in the permutation's own sheet, and no other name has one. The sheet is UTF-8.
///
/// The files are built once. Time beyond that is linear in the sum of the permutations' sheets and, for each permutation, the
/// declarations of the blocks that match its page.
///
/// # Errors
/// [`ThemeStop::Refused`] exactly where an output is a refusal; else [`ThemeStop::Name`] exactly where a modifier or a context
/// has a name that no selector can hold: a modifier is named by a lower-case ASCII letter and then lower-case ASCII letters,
/// digits and `-`, and a context by printable characters. [`ThemeStop::NoMemory`].
pub fn themes(alloc: Global, files: &Files<'_>) -> Result<Bytes, ThemeStop>
    ensures sheet { IfOk result (IsThemeSheet files.now) }
    ensures stop { IfErr result (IsThemeStop files.now) }
    ensures refused { (path : List ℕ) → HasRefusal files.now path
        → IsAnswered (Err (ThemeStop.Refused path)) result }
    ensures named { (name : List ℕ) → HasBadName files.now name
        → IsAnswered (Err (ThemeStop.Name name)) result }
{
    one_build();
    json_laws();
    sheet_for(alloc, files)
}
