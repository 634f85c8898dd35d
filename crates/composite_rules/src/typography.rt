//! Typographic styles.

ghost use Rattle.composite_rules.specs.Value.{typography_in};

use dec_fix::Dec;
use json_span::Plain;
use std::alloc::Global;
use std::fmt;
use type_rules::{Families, Part, Size, ValueFault, Weight, members_of, part_under};

/// How text is set (Format Module 2025.10, typography).
#[derive(Drop)]
pub struct Typography<'s> {
    pub family: Families<'s>,
    pub size: Size,
    /// Within 1 to 1000.
    pub weight: Dec,
    /// The space between letters.
    pub spacing: Size,
    /// The height of a line over the size of the font.
    pub line_height: Dec,
}

impl fmt::Debug for Typography<'_> {
    fn fmt<W: fmt::Write>(&self, f: &mut fmt::Formatter<W>) -> fmt::Result {
        f.write_str("Typography")
    }
}

/// An object of a `fontFamily`, a length `fontSize`, a `fontWeight`, a length `letterSpacing` and a
/// number `lineHeight`, checked in this order.
impl<'s> Part<'s> for Typography<'s> {
    type Typed = Typography<'s>;

    ghost part_in = { typography_in };

    fn check(
        alloc: Global,
        plain: &Plain<'s>,
        legacy: bool,
    ) -> Result<Typography<'s>, ValueFault<'s>> {
        let members = members_of(alloc, plain)?;
        let family = part_under::<Families<'s>>(alloc, members, "fontFamily", legacy)?;
        let size = part_under::<Size>(alloc, members, "fontSize", legacy)?;
        let weight = part_under::<Weight>(alloc, members, "fontWeight", legacy)?;
        let spacing = part_under::<Size>(alloc, members, "letterSpacing", legacy)?;
        let line_height = part_under::<Dec>(alloc, members, "lineHeight", legacy)?;
        Ok(Typography {
            family,
            size,
            weight,
            spacing,
            line_height,
        })
    }
}
