//! What tokens come to.

ghost use Rattle.std.specs.Prelude.{◌≡◌, ◌+◌, [], ◌∷◌, Ok, Some, IfOk, IfSome, unwrap_or, option_map};
ghost use Rattle.std.specs.FinMap as map;
ghost use Rattle.std.specs.List.{slice_get};
ghost use Rattle.json_span.specs.PlainView.{plain_view};
ghost use Rattle.group_inherit.specs.Flattening.{Flattened};
ghost use Rattle.group_inherit.specs.Merging.{either};
ghost use Rattle.json_out.specs.Properties.{extras_view};
ghost use Rattle.alias_ref.specs.Answer.{IsResolved, IsRefBreak, MeansAsAt};
ghost use Rattle.composite_rules.specs.Value.{value_of};
ghost use Rattle.alias_ref.specs.Laws.{Flat as FlatTree};
ghost use Rattle.alias_ref.specs.declared.resolved.Resolved.{Resolved as Resolution};
ghost use Rattle.type_rules.specs.Answer.{IsBreak};
ghost use Rattle.transforms.specs.Config.{Settings};
ghost use Rattle.token_cells.specs.Cell.{IsCell, IsJsonOf, TokenPath, extras_of};
ghost use Rattle.token_cells.specs.declared.pages.OpenPages.{OpenPages};
ghost use Rattle.token_cells.specs.TokenCell.{TokenCell, Refused};
ghost use Rattle.token_cells.specs.inner.Kept.{PageTexts, row_view};
ghost use Rattle.token_cells.specs.inner.Making.{AddsJson, IsMadeOf, ComesTo};
ghost use Rattle.token_cells.specs.inner.Typing.{AreTyped};

use crate::adding::{add_android, add_css, add_json, add_swift};
use crate::cells::Cells;
use crate::drafts::Drafts;
use crate::pages::{OpenPages, Room};
use crate::row::{Fragments, Refusal, Row};
use crate::typing::{Workbench, typed_value};
use alias_ref::{Evaluator, RefFault, Resolved, evaluate_entry};
use composite_rules::{Typed, check, value_laws};
use group_inherit::{Entry, Flat};
use json_out::Extras;
use name_path::{Path, Place, Ring, Trail};
use refusals::CellRule;
use std::alloc::Global;
use std::rc::Rc;
use std::sync::ledger::Ledger;
use tk_io::{Bytes, NoMemory, Steps};
use token_tree::Mark;
use transforms::{Config, Extent, Sheet};
use type_rules::{ValueFault, ValueRule};

// The row of a token that breaks the rule.
fn refused<'s>(alloc: Global, refusal: Refusal<'s>) -> Result<Row<'s>, NoMemory>
    ensures { IfOk result (λ row. (pages : PageTexts) → row_view pages row
        ≡ Refused refusal.entry.rule refusal.entry.place refusal.entry.ring) }
{
    let refusal = Rc::new(alloc, refusal)?;
    Ok(Row::Broken(refusal))
}

// The row of a token whose value breaks a rule, at the place to which the trail leads.
fn refused_value<'s>(
    alloc: Global,
    path: &Path<'s>,
    rule: ValueRule,
    trail: Trail<'s>,
) -> Result<Row<'s>, NoMemory>
    ensures { IfOk result (λ row. (pages : PageTexts) → row_view pages row
        ≡ Refused (CellRule.Value rule) (record { token = path.now; trail = trail.entry }) []) }
{
    let token = path.copy()?;
    let refusal = Refusal {
        rule: CellRule::Value(rule),
        place: Place { token, trail },
        ring: Ring::new(alloc),
    };
    refused(alloc, refusal)
}

// The mark that holds for the token: its own, else that of the nearest group upwards that has one.
fn mark_of<'s>(entry: &Entry<'s>) -> Result<Mark<'s>, NoMemory>
    ensures { IfOk result (λ m. m
        ≡ unwrap_or (either entry.now.def.deprecated entry.now.group_mark) Mark.No) }
{
    if let Some(mark) = &entry.def.deprecated {
        return mark.copy();
    }
    match &entry.group_mark {
        Some(mark) => mark.copy(),
        None => Ok(Mark::No),
    }
}

// What the token says of itself, where it does.
fn description<'a>(entry: &'a Entry<'_>) -> Option<&'a str>
    ensures { option_map (λ t. t.now) result ≡ entry.now.def.description }
{
    match &entry.def.description {
        Some(text) => Some(text.as_str()),
        None => None,
    }
}

// What JSON shows of the token beside its value.
fn extras<'a, 's: 'a>(entry: &'a Entry<'s>) -> Result<Extras<'a>, NoMemory>
    ensures { IfOk result (λ e. extras_view e ≡ extras_of entry.now) }
{
    Ok(Extras {
        description: description(entry),
        extensions: entry.def.extensions,
        mark: mark_of(entry)?,
    })
}

// Adds the member of JSON, with what the token says of itself.
fn add_member<'s>(
    lines: &mut Bytes,
    sheet: &mut Sheet,
    path: &Path<'s>,
    entry: &Entry<'s>,
    typed: &Typed<'s>,
) -> Result<Extent, NoMemory>
    ensures { IfOk result (AddsJson (IsJsonOf path.now typed.now (extras_of entry.now))
        sheet.old sheet.new) }
{
    let extras = extras(entry)?;
    add_json(lines, sheet, path, typed, &extras)
}

// Adds what the token gives to each platform, which has this value.
fn made<'s>(
    alloc: Global,
    drafts: &mut Drafts,
    pages: &mut OpenPages,
    path: &Path<'s>,
    entry: &Entry<'s>,
    resolved: &Resolved<'s>,
    typed: &Typed<'s>,
    cfg: &Config,
) -> Result<Row<'s>, NoMemory>
    requires { value_of cfg.now.legacy resolved.now.kind (plain_view resolved.now.plain.value)
        ≡ Ok typed.now }
    ensures { IfOk result (ComesTo
        (IsMadeOf cfg.now path.now entry.now resolved.now.links typed.now)
        pages.old pages.new) }
{
    value_laws();
    drafts.write_names(alloc, path, cfg)?;
    let property = drafts.property.as_slice();
    let identifier = drafts.identifier.as_slice();
    let lines = &mut drafts.lines;
    let links = &resolved.links;
    let all = &mut pages.names;
    let css = add_css(
        alloc,
        lines,
        &mut pages.css,
        all,
        property,
        typed,
        links,
        cfg,
    )?;
    let android = add_android(
        alloc,
        lines,
        &mut pages.android,
        all,
        identifier,
        typed,
        cfg,
    )?;
    let swift = add_swift(
        alloc,
        lines,
        &mut pages.swift,
        all,
        identifier,
        &android,
        typed,
        cfg,
    )?;
    let json = add_member(lines, &mut pages.json, path, entry, typed)?;
    Ok(Row::Unbroken(Fragments {
        css,
        android: android.shown,
        swift,
        json,
    }))
}

// The row of a token whose value breaks a rule.
fn value_row<'s>(alloc: Global, path: &Path<'s>, fault: ValueFault<'s>) -> Result<Row<'s>, NoMemory>
    ensures { (flat : FlatTree) (settings : Settings) (r : Resolution) (pages : OpenPages)
        → IsBreak (value_of settings.legacy r.kind (plain_view r.plain.value)) fault.entry
        → IsResolved flat path.now r
        → IfOk result (ComesTo (IsCell flat settings path.now) pages pages) }
{
    match fault {
        ValueFault::Broken { rule, trail } => refused_value(alloc, path, rule, trail),
        ValueFault::NoMemory => Err(NoMemory),
    }
}

// What a token comes to whose references break no rule.
fn own_row<'s>(
    alloc: Global,
    drafts: &mut Drafts,
    pages: &mut OpenPages,
    path: &Path<'s>,
    entry: &Entry<'s>,
    resolved: &Resolved<'s>,
    cfg: &Config,
) -> Result<Row<'s>, NoMemory>
    ensures { (flat : FlatTree) → map.get flat path.now ≡ Some entry.now
        → IsResolved flat path.now resolved.now
        → IfOk result (ComesTo (IsCell flat cfg.now path.now) pages.old pages.new) }
{
    match check(alloc, resolved.kind, &resolved.plain, cfg.legacy) {
        Ok(typed) => made(alloc, drafts, pages, path, entry, resolved, &typed, cfg),
        Err(fault) => value_row(alloc, path, fault),
    }
}

// The same of a token that means what the one at the place means, whose value may be known.
fn shared_row<'s>(
    alloc: Global,
    bench: &mut Workbench<'s>,
    pages: &mut OpenPages,
    path: &Path<'s>,
    entry: &Entry<'s>,
    resolved: &Resolved<'s>,
    place: usize,
    cfg: &Config,
) -> Result<Row<'s>, NoMemory>
    requires { (flat : FlatTree) × IsResolved flat path.now resolved.now
        × MeansAsAt flat path.now place
        × AreTyped flat cfg.now bench.old.values.known.items }
    ensures row { (flat : FlatTree) → map.get flat path.now ≡ Some entry.now
        → IsResolved flat path.now resolved.now
        → IfOk result (ComesTo (IsCell flat cfg.now path.now) pages.old pages.new) }
    ensures typed { (flat : FlatTree) → IsResolved flat path.now resolved.now
        → MeansAsAt flat path.now place
        → AreTyped flat cfg.now bench.old.values.known.items
        → AreTyped flat cfg.now bench.new.values.known.items }
{
    let drafts = &mut bench.drafts;
    match typed_value(alloc, &mut bench.values, path, resolved, place, cfg) {
        Ok(typed) => made(alloc, drafts, pages, path, entry, resolved, &typed, cfg),
        Err(fault) => value_row(alloc, path, fault),
    }
}

// The same of a token that means what the one at the place means, where one is told.
fn resolved_row<'s>(
    alloc: Global,
    bench: &mut Workbench<'s>,
    pages: &mut OpenPages,
    path: &Path<'s>,
    entry: &Entry<'s>,
    resolved: &Resolved<'s>,
    place: Option<usize>,
    cfg: &Config,
) -> Result<Row<'s>, NoMemory>
    requires { (flat : FlatTree) × IsResolved flat path.now resolved.now
        × IfSome place (MeansAsAt flat path.now)
        × AreTyped flat cfg.now bench.old.values.known.items }
    ensures row { (flat : FlatTree) → map.get flat path.now ≡ Some entry.now
        → IsResolved flat path.now resolved.now
        → IfOk result (ComesTo (IsCell flat cfg.now path.now) pages.old pages.new) }
    ensures typed { (flat : FlatTree) → IsResolved flat path.now resolved.now
        → IfSome place (MeansAsAt flat path.now)
        → AreTyped flat cfg.now bench.old.values.known.items
        → AreTyped flat cfg.now bench.new.values.known.items }
{
    match place {
        Some(i) => shared_row(alloc, bench, pages, path, entry, resolved, i, cfg),
        None => own_row(alloc, &mut bench.drafts, pages, path, entry, resolved, cfg),
    }
}

// The row of a token whose references break a rule.
fn fault_row<'s>(alloc: Global, fault: RefFault<'s>) -> Result<Row<'s>, NoMemory>
    ensures { (flat : FlatTree) (settings : Settings) (path : TokenPath) (pages : OpenPages)
        → IsRefBreak flat path fault.entry
        → IfOk result (ComesTo (IsCell flat settings path) pages pages) }
{
    match fault {
        RefFault::Broken { rule, place, ring } => {
            let rule = CellRule::Ref(rule);
            refused(alloc, Refusal { rule, place, ring })
        }
        RefFault::NoMemory => Err(NoMemory),
    }
}

/// What the i-th token of the flat tree comes to. What it gives is added to the pages; its lines are made on the bench,
/// whatever its drafts hold. Else as [`cell`].
pub(crate) fn evaluated_row<'s, N: Ledger>(
    alloc: Global,
    bench: &mut Workbench<'s>,
    pages: &mut OpenPages,
    evaluator: &mut Evaluator<'_, 's>,
    i: usize,
    token: &(Path<'s>, Entry<'s>),
    cfg: &Config,
    evals: &mut Steps<N>,
) -> Result<Row<'s>, NoMemory>
    requires token { slice_get (map.entries evaluator.old) i ≡ Some token.now }
    requires typed { AreTyped evaluator.old cfg.now bench.old.values.known.items }
    ensures tree { evaluator.new ≡ evaluator.old }
    ensures step { evals.new ≡ evals.old + 1 }
    ensures row { IfOk result
        (ComesTo (IsCell evaluator.old cfg.now token.now.0) pages.old pages.new) }
    ensures typed { AreTyped evaluator.old cfg.now bench.new.values.known.items }
{
    match evaluator.evaluate(alloc, i, token, evals) {
        Ok(resolved) => {
            let place = evaluator.end_of(i);
            resolved_row(
                alloc, bench, pages, &token.0, &token.1, &resolved, place, cfg,
            )
        }
        Err(fault) => fault_row(alloc, fault),
    }
}

// What a token comes to that is at hand: the flat tree holds it under the path.
fn row_of_entry<'s, N: Ledger>(
    alloc: Global,
    pages: &mut OpenPages,
    flat: &Flat<'s>,
    path: &Path<'s>,
    entry: &Entry<'s>,
    cfg: &Config,
    evals: &mut Steps<N>,
) -> Result<Row<'s>, NoMemory>
    requires token { map.get flat.now path.now ≡ Some entry.now }
    ensures step { evals.new ≡ evals.old + 1 }
    ensures row { IfOk result (ComesTo (IsCell flat.now cfg.now path.now) pages.old pages.new) }
{
    let mut drafts = Drafts::new(alloc);
    match evaluate_entry(alloc, flat, path, entry, evals) {
        Ok(resolved) => own_row(alloc, &mut drafts, pages, path, entry, &resolved, cfg),
        Err(fault) => fault_row(alloc, fault),
    }
}

/// What the token of a path comes to under a configuration, alone: what it gives to each platform, or the first rule that
/// it breaks, of its references, then of its kind, then of its value. The flat tree holds the path. One step of `evals`.
pub fn cell<'s, N: Ledger>(
    alloc: Global,
    flat: &Flat<'s>,
    path: &Path<'s>,
    cfg: &Config,
    evals: &mut Steps<N>,
) -> Result<Cells<'s>, NoMemory>
    requires token { (f : Flattened) × (map.get flat.now path.now ≡ Some f) }
    ensures step { evals.new ≡ evals.old + 1 }
    ensures cell { IfOk result (λ cells. (c : TokenCell)
        × (cells ≡ c ∷ []) × IsCell flat.now cfg.now path.now c) }
{
    let Some(entry) = flat.get(path) else {
        unreachable!();
    };
    let Ok(mut pages) = OpenPages::new(alloc, 1, Room::USUAL) else {
        evals.tick();
        return Err(NoMemory);
    };
    let mut rows = Vec::new(alloc);
    let row = row_of_entry(alloc, &mut pages, flat, path, entry, cfg, evals)?;
    rows.push(row)?;
    Cells::new(pages, rows)
}
