//! The five lines of a typography.

ghost use Rattle.std.specs.Prelude.{◌≡◌, [], ◌∷◌, ◌++◌, map, option_map, OnOk, IfOk};
ghost use Rattle.std.specs.List.{flat_map};
ghost use Rattle.css_out.specs.Parts.{shown_part, declaration};
ghost use Rattle.css_out.specs.Fragment.{css_name, typography_part, typography_line};
ghost use Rattle.css_out.specs.Fragment.{typography_lines};
ghost use Rattle.css_out.specs.Spelling.{line_text};
ghost use Rattle.css_out.specs.inner.Added.{with_pieces};
ghost use Rattle.css_out.specs.inner.Written.{IsFragment, fragment_of};

use crate::line::Line;
use crate::links::link_for;
use crate::spelling::Spell;
use crate::token::Token;
use composite_rules::Typography;
use name_path::{Kind, Path};
use std::alloc::Global;
use tk_io::{Bytes, NoMemory, Sequence};
use transforms::{Names, Platform, name_for, name_with_ending};

/// The names and lines so far.
#[derive(Drop)]
struct Lines {
    names: Sequence<Bytes>,
    line: Line,
}

/// What a line of a typography is about: a member and its kind, and the ending of the line's name.
struct Member {
    name: &'static str,
    kind: Kind,
    ending: &'static str,
}

const FAMILY: Member = Member {
    name: "fontFamily",
    kind: Kind::FontFamily,
    ending: "-font-family",
};

const SIZE: Member = Member {
    name: "fontSize",
    kind: Kind::Dimension,
    ending: "-font-size",
};

const WEIGHT: Member = Member {
    name: "fontWeight",
    kind: Kind::FontWeight,
    ending: "-font-weight",
};

const SPACING: Member = Member {
    name: "letterSpacing",
    kind: Kind::Dimension,
    ending: "-letter-spacing",
};

const HEIGHT: Member = Member {
    name: "lineHeight",
    kind: Kind::Number,
    ending: "-line-height",
};

impl<'a, 's> Token<'a, 's> {
    // The name of the typography that the whole value refers to, where it refers to one.
    fn whole_name(&self, whole: Option<&Path<'_>>) -> Result<Option<Bytes>, NoMemory>
        ensures { IfOk result (λ name. name
            ≡ option_map (λ p. css_name self.now.cfg.now.prefix p.now) whole.entry) }
    {
        match whole {
            Some(target) => {
                let name = name_for(self.alloc, Platform::Css, target, self.cfg)?;
                Ok(Some(name))
            }
            None => Ok(None),
        }
    }

    // One of the five values: that of the typography that the whole value refers to, else `var()` of the token
    // that it refers to, or its own pieces.
    fn typography_part<T: Spell>(
        &self,
        line: &mut Line,
        whole: &Option<Bytes>,
        member: &Member,
        value: &T,
    ) -> Result<(), NoMemory>
        ensures { OnOk result (line.new ≡ with_pieces line.old (shown_part (typography_part
            self.now.cfg.now.prefix self.now.links.now whole.now
            member.now.name.now member.now.kind member.now.ending.now (T.marks value.now)))) }
    {
        match whole {
            Some(name) => line.ended_var(name.as_slice(), member.ending),
            None => self.part(
                line,
                link_for(self.links, &[member.name], member.kind),
                value,
            ),
        }
    }

    // The line of one of the five values, and its name among those that are declared.
    fn typography_line<T: Spell>(
        &self,
        lines: &mut Lines,
        name: &[u8],
        whole: &Option<Bytes>,
        member: &Member,
        value: &T,
    ) -> Result<(), NoMemory>
        ensures names { OnOk result (lines.new.names
            ≡ lines.old.names ++ (name.now ++ member.now.ending.now) ∷ []) }
        ensures text { OnOk result (lines.new.line.text
            ≡ lines.old.line.text ++ line_text (declaration (typography_line
            self.now.cfg.now.prefix self.now.links.now name.now whole.now
            member.now.name.now member.now.kind member.now.ending.now (T.marks value.now)))) }
    {
        let name = name_with_ending(self.alloc, name, member.ending)?;
        lines.line.start(name.as_slice())?;
        self.typography_part(&mut lines.line, whole, member, value)?;
        lines.line.end()?;
        lines.names.push(name)?;
        Ok(())
    }

    // The five lines, one after the other.
    fn typography_lines(
        &self,
        lines: &mut Lines,
        name: &[u8],
        whole: &Option<Bytes>,
        value: &Typography<'_>,
    ) -> Result<(), NoMemory>
        ensures names { OnOk result (lines.new.names ≡ lines.old.names
            ++ map (λ e. e.name) (typography_lines self.now.cfg.now.prefix
            self.now.links.now name.now whole.now value.now)) }
        ensures text { OnOk result (lines.new.line.text ≡ lines.old.line.text
            ++ flat_map line_text (map declaration (typography_lines self.now.cfg.now.prefix
            self.now.links.now name.now whole.now value.now))) }
    {
        self.typography_line(lines, name, whole, &FAMILY, &value.family)?;
        self.typography_line(lines, name, whole, &SIZE, &value.size)?;
        self.typography_line(lines, name, whole, &WEIGHT, &value.weight)?;
        self.typography_line(lines, name, whole, &SPACING, &value.spacing)?;
        self.typography_line(lines, name, whole, &HEIGHT, &value.line_height)?;
        Ok(())
    }

    /// The five names, and in the draft the five lines.
    pub(crate) fn typography<'n>(
        &self,
        draft: &mut Bytes,
        name: &'n [u8],
        whole: Option<&Path<'_>>,
        value: &Typography<'_>,
    ) -> Result<Names<'n>, NoMemory>
        ensures { IfOk result (λ names. IsFragment name.now (typography_lines
            self.now.cfg.now.prefix self.now.links.now name.now
            (option_map (λ p. css_name self.now.cfg.now.prefix p.now) whole.entry) value.now)
            (fragment_of names draft.new)) }
    {
        let whole = self.whole_name(whole)?;
        let mut lines = Lines {
            names: Sequence::new(self.alloc),
            line: Line::over(self.alloc, draft),
        };
        self.typography_lines(&mut lines, name, &whole, value)?;
        *draft = lines.line.text;
        Ok(Names::several(lines.names))
    }
}
