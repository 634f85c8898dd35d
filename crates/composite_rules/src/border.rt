//! Borders.

ghost use Rattle.composite_rules.specs.Value.{border_in};

use crate::stroke::Stroke;
use json_span::Plain;
use std::alloc::Global;
use std::fmt;
use type_rules::{Color, Part, Size, ValueFault, members_of, part_under};

/// A border (Format Module 2025.10, border).
#[derive(Drop)]
pub struct Border {
    pub color: Color,
    pub width: Size,
    pub style: Stroke,
}

impl fmt::Debug for Border {
    fn fmt<W: fmt::Write>(&self, f: &mut fmt::Formatter<W>) -> fmt::Result {
        f.write_str("Border")
    }
}

/// An object of a `color`, a length `width` and a stroke style `style`, checked in this order.
impl<'s> Part<'s> for Border {
    type Typed = Border;

    ghost part_in = { border_in };

    fn check(alloc: Global, plain: &Plain<'s>, legacy: bool) -> Result<Border, ValueFault<'s>> {
        let members = members_of(alloc, plain)?;
        let color = part_under::<Color>(alloc, members, "color", legacy)?;
        let width = part_under::<Size>(alloc, members, "width", legacy)?;
        let style = part_under::<Stroke>(alloc, members, "style", legacy)?;
        Ok(Border {
            color,
            width,
            style,
        })
    }
}
