//! Values in parts, each by itself or by the name of the token to which a link at the part leads.

ghost use Rattle.std.specs.Prelude.{◌≡◌, Bool, List, ℕ, drop, option_map, OnOk};
ghost use Rattle.std.specs.List.{AllByRecursion};
ghost use Rattle.name_path.specs.declared.link.Link.{Link};
ghost use Rattle.composite_rules.specs.Sound.{IsTyped, IsShadowItem, IsColorStop};
ghost use Rattle.css_out.specs.Piece.{var};
ghost use Rattle.css_out.specs.Links.{item_link};
ghost use Rattle.css_out.specs.Parts.{Part, shown_part, shown};
ghost use Rattle.css_out.specs.Fragment.{css_name, linked_or_plain, behind_commas, listed_parts, member_part};
ghost use Rattle.css_out.specs.Fragment.{border_parts, transition_parts, shadow_parts, stop_parts};
ghost use Rattle.css_out.specs.Fragment.{is_only, value_parts};
ghost use Rattle.css_out.specs.inner.Added.{with_piece, with_pieces};

use crate::line::Line;
use crate::links::{item_link, link_for};
use crate::spelling::{Spell, spell_inset};
use composite_rules::{Border, ColorStop, ShadowItem, Transition, Typed};
use itoa::Buffer;
use name_path::{Kind, Link, Path};
use std::alloc::Global;
use tk_io::NoMemory;
use transforms::{Config, Platform, name_for};

/// A token's links that are spelled as references, and how names are made.
#[derive(Clone, Copy)]
pub(crate) struct Token<'a, 's> {
    pub(crate) alloc: Global,
    pub(crate) cfg: &'a Config,
    pub(crate) links: &'a [Link<'s>],
}

impl<'a, 's> Token<'a, 's> {
    /// `var()` of the target's name.
    pub(crate) fn target(&self, line: &mut Line, target: &Path<'_>) -> Result<(), NoMemory>
        ensures { OnOk result (line.new
            ≡ with_piece line.old (var (css_name self.now.cfg.now.prefix target.now))) }
    {
        let name = name_for(self.alloc, Platform::Css, target, self.cfg)?;
        line.var(name.as_slice())?;
        Ok(())
    }

    /// A part by itself, or by its target's name.
    #[tactic(auto, using(crate::proofs::PiecesAddUp::added_marks))]
    pub(crate) fn part<T: Spell>(
        &self,
        line: &mut Line,
        target: Option<&Path<'_>>,
        value: &T,
    ) -> Result<(), NoMemory>
        ensures { OnOk result (line.new ≡ with_pieces line.old (shown_part (linked_or_plain
            self.now.cfg.now.prefix (option_map (λ p. p.now) target.entry)
            (T.marks value.now)))) }
    {
        match target {
            Some(target) => self.target(line, target),
            None => value.spell(line),
        }
    }

    // A member of the value: `var()` of the token that it refers to, or its own pieces.
    fn member<T: Spell>(
        &self,
        line: &mut Line,
        name: &str,
        kind: Kind,
        value: &T,
    ) -> Result<(), NoMemory>
        ensures { OnOk result (line.new ≡ with_pieces line.old (shown_part (member_part
            self.now.cfg.now.prefix self.now.links.now name.now kind (T.marks value.now)))) }
    {
        self.part(line, link_for(self.links, &[name], kind), value)
    }

    pub(crate) fn border(&self, line: &mut Line, border: &Border) -> Result<(), NoMemory>
        ensures { OnOk result (line.new ≡ with_pieces line.old (shown (border_parts
            self.now.cfg.now.prefix self.now.links.now border.now))) }
    {
        self.member(line, "width", Kind::Dimension, &border.width)?;
        self.member(line, "style", Kind::StrokeStyle, &border.style)?;
        self.member(line, "color", Kind::Color, &border.color)?;
        Ok(())
    }

    pub(crate) fn transition(
        &self,
        line: &mut Line,
        transition: &Transition,
    ) -> Result<(), NoMemory>
        ensures { OnOk result (line.new ≡ with_pieces line.old (shown (transition_parts
            self.now.cfg.now.prefix self.now.links.now transition.now))) }
    {
        self.member(line, "duration", Kind::Duration, &transition.duration)?;
        self.member(
            line,
            "timingFunction",
            Kind::CubicBezier,
            &transition.timing,
        )?;
        self.member(line, "delay", Kind::Duration, &transition.delay)?;
        Ok(())
    }

    /// A member of an item of a list.
    fn item<T: Spell>(
        &self,
        line: &mut Line,
        place: &Place<'_>,
        name: &str,
        kind: Kind,
        value: &T,
    ) -> Result<(), NoMemory>
        ensures { OnOk result (line.new ≡ with_pieces line.old (shown_part (linked_or_plain
            self.now.cfg.now.prefix
            (item_link self.now.links.now place.now.is_only place.now.index.now name.now kind)
            (T.marks value.now)))) }
    {
        let target = item_link(self.links, place.is_only, place.index, name, kind);
        self.part(line, target, value)
    }

    /// Items with commas between.
    pub(crate) fn listed<T: Item>(&self, line: &mut Line, items: &[T]) -> Result<(), NoMemory>
        requires { AllByRecursion T.is_item items.now }
        ensures { OnOk result (line.new ≡ with_pieces line.old (shown (listed_parts
            (T.item_parts self.now.cfg.now.prefix self.now.links.now (is_only items.now))
            items.now))) }
    {
        let Some(first) = items.first() else {
            return Ok(());
        };
        let is_only = items.len() == 1;
        first.spell_item(self, line, is_only, 0)?;
        self.behind_commas(line, is_only, items)?;
        Ok(())
    }

    // The items from the second on, each after a comma.
    fn behind_commas<T: Item>(
        &self,
        line: &mut Line,
        is_only: bool,
        items: &[T],
    ) -> Result<(), NoMemory>
        requires { AllByRecursion T.is_item items.now }
        ensures { OnOk result (line.new ≡ with_pieces line.old (shown (behind_commas
            (T.item_parts self.now.cfg.now.prefix self.now.links.now is_only)
            1 (drop 1 items.now)))) }
    {
        for i in 1..items.len() {
            line.comma()?;
            items[i].spell_item(self, line, is_only, i)?;
        }
        Ok(())
    }

    /// A value that stands in one line.
    pub(crate) fn value(
        &self,
        line: &mut Line,
        whole: Option<&Path<'_>>,
        typed: &Typed<'_>,
    ) -> Result<(), NoMemory>
        requires { IsTyped typed.now }
        ensures { OnOk result (line.new ≡ with_pieces line.old (shown (value_parts
            self.now.cfg.now.prefix self.now.links.now (option_map (λ p. p.now) whole.entry)
            typed.now))) }
    {
        match typed {
            Typed::Simple(simple) => self.part(line, whole, simple),
            Typed::StrokeStyle(stroke) => self.part(line, whole, stroke),
            Typed::Border(border) => match whole {
                Some(target) => self.target(line, target),
                None => self.border(line, border),
            },
            Typed::Transition(transition) => match whole {
                Some(target) => self.target(line, target),
                None => self.transition(line, transition),
            },
            Typed::Shadow(items) => match whole {
                Some(target) => self.target(line, target),
                None => self.listed(line, items.as_slice()),
            },
            Typed::Gradient(stops) => match whole {
                Some(target) => self.target(line, target),
                None => self.listed(line, stops.as_slice()),
            },
            Typed::Typography(_) => Ok(()),
        }
    }
}

/// Where an item stands: whether it is the only one, and its index in decimal digits.
#[derive(Clone, Copy)]
pub(crate) struct Place<'a> {
    is_only: bool,
    index: &'a str,
}

/// What stands in a list with commas between.
pub(crate) trait Item {
    ghost is_item: { Self → Type 0 };

    ghost item_parts: { List ℕ → List Link → Bool → ℕ → Self → List Part };

    /// Adds the i-th item's parts to the line.
    fn spell_item(
        &self,
        token: &Token<'_, '_>,
        line: &mut Line,
        is_only: bool,
        i: usize,
    ) -> Result<(), NoMemory>
        requires { is_item self.now }
        ensures { OnOk result (line.new ≡ with_pieces line.old (shown (item_parts
            token.now.cfg.now.prefix token.now.links.now is_only i self.now))) };
}

impl Item for ShadowItem {
    ghost is_item = { IsShadowItem };

    ghost item_parts = { shadow_parts };

    fn spell_item(
        &self,
        token: &Token<'_, '_>,
        line: &mut Line,
        is_only: bool,
        i: usize,
    ) -> Result<(), NoMemory> {
        let mut buffer = Buffer::new();
        let place = Place {
            is_only,
            index: buffer.format(i),
        };
        spell_inset(line, self.inset)?;
        token.item(line, &place, "offsetX", Kind::Dimension, &self.offset_x)?;
        token.item(line, &place, "offsetY", Kind::Dimension, &self.offset_y)?;
        token.item(line, &place, "blur", Kind::Dimension, &self.blur)?;
        token.item(line, &place, "spread", Kind::Dimension, &self.spread)?;
        token.item(line, &place, "color", Kind::Color, &self.color)?;
        Ok(())
    }
}

impl Item for ColorStop {
    ghost is_item = { IsColorStop };

    ghost item_parts = { stop_parts };

    fn spell_item(
        &self,
        token: &Token<'_, '_>,
        line: &mut Line,
        _is_only: bool,
        i: usize,
    ) -> Result<(), NoMemory> {
        let mut buffer = Buffer::new();
        let place = Place {
            is_only: false,
            index: buffer.format(i),
        };
        token.item(line, &place, "color", Kind::Color, &self.color)?;
        line.percent(&self.position.times_100())?;
        Ok(())
    }
}
