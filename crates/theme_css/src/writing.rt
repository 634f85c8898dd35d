//! Writing blocks.

ghost use Rattle.std.specs.Prelude.{◌≡◌, ◌++◌, ◌<◌, IfOk, OnOk, length};
ghost use Rattle.std.specs.List.{flat_map};
ghost use Rattle.theme_css.specs.Sheet.{attribute_text, block_text, later_text, line_text, selector_text, sheet_text};
ghost use Rattle.theme_css.specs.inner.Offers.{AreAllRanked, AreRanked};
ghost use Rattle.theme_css.specs.inner.Views.{block_view, blocks_view, choice_view, choices_view, declaration_at, declarations_at, names_view};

use crate::choice::Choice;
use crate::offers::{Declared, ThemeBlock};
use crate::table::Names;
use std::alloc::Global;
use tk_io::{Bytes, NoMemory};
use transforms::append_escaped;

// Adds an attribute as a selector has it.
fn add_attribute(out: &mut Bytes, choice: &Choice<'_>) -> Result<(), NoMemory>
    ensures { OnOk result (out.new ≡ out.old ++ attribute_text (choice_view choice.now)) }
{
    out.append(b"[data-")?;
    out.append(choice.modifier.as_bytes())?;
    out.append(b"=\"")?;
    append_escaped(out, choice.context.as_bytes())?;
    out.append(b"\"]")?;
    Ok(())
}

// Adds the selector of attributes.
fn add_selector(out: &mut Bytes, asked: &[Choice<'_>]) -> Result<(), NoMemory>
    ensures { OnOk result (out.new ≡ out.old ++ selector_text (choices_view asked.now)) }
{
    out.append(b":root")?;
    for choice in asked {
        add_attribute(out, choice)?;
    }
    Ok(())
}

// Adds the line of a declaration.
fn add_line(out: &mut Bytes, names: &Names<'_>, declared: &Declared<'_>) -> Result<(), NoMemory>
    requires { declared.now.rank < length names.now.items }
    ensures { OnOk result (out.new ≡ out.old
        ++ line_text (declaration_at (names_view names.now.items) declared.now)) }
{
    out.append(b"  ")?;
    out.append(names[declared.rank])?;
    out.append(b": ")?;
    out.append(declared.value)?;
    out.append(b";\n")?;
    Ok(())
}

// Adds the lines of declarations.
fn add_lines(out: &mut Bytes, names: &Names<'_>, declared: &[Declared<'_>]) -> Result<(), NoMemory>
    requires { AreRanked (length names.now.items) declared.now }
    ensures { OnOk result (out.new ≡ out.old
        ++ flat_map line_text (declarations_at (names_view names.now.items) declared.now)) }
{
    for each in declared {
        add_line(out, names, each)?;
    }
    Ok(())
}

// Adds a block.
fn add_block(
    out: &mut Bytes,
    names: &Names<'_>,
    block: &ThemeBlock<'_, '_, '_>,
) -> Result<(), NoMemory>
    requires { AreRanked (length names.now.items) block.now.declared.items }
    ensures { OnOk result (out.new ≡ out.old
        ++ block_text (block_view (names_view names.now.items) block.now)) }
{
    add_selector(out, block.odd)?;
    out.append(b" {\n")?;
    add_lines(out, names, block.declared.as_slice())?;
    out.append(b"}\n")?;
    Ok(())
}

// Adds a block that is not the first.
fn add_later_block(
    out: &mut Bytes,
    names: &Names<'_>,
    block: &ThemeBlock<'_, '_, '_>,
) -> Result<(), NoMemory>
    requires { AreRanked (length names.now.items) block.now.declared.items }
    ensures { OnOk result (out.new ≡ out.old
        ++ later_text (block_view (names_view names.now.items) block.now)) }
{
    if block.declared.is_empty() {
        return Ok(());
    }
    add_block(out, names, block)
}

// Adds blocks that are not the first.
fn add_later_blocks(
    out: &mut Bytes,
    names: &Names<'_>,
    blocks: &[ThemeBlock<'_, '_, '_>],
) -> Result<(), NoMemory>
    requires { AreAllRanked (length names.now.items) blocks.now }
    ensures { OnOk result (out.new ≡ out.old
        ++ flat_map later_text (blocks_view (names_view names.now.items) blocks.now)) }
{
    for block in blocks {
        add_later_block(out, names, block)?;
    }
    Ok(())
}

/// The sheet of blocks.
pub(crate) fn sheet_of(
    alloc: Global,
    names: &Names<'_>,
    blocks: &[ThemeBlock<'_, '_, '_>],
) -> Result<Bytes, NoMemory>
    requires { AreAllRanked (length names.now.items) blocks.now }
    ensures { IfOk result
        (λ sheet. sheet ≡ sheet_text (blocks_view (names_view names.now.items) blocks.now)) }
{
    let mut out = Bytes::new(alloc);
    let Some((first, later)) = blocks.split_first() else {
        return Ok(out);
    };
    add_block(&mut out, names, first)?;
    add_later_blocks(&mut out, names, later)?;
    Ok(out)
}
