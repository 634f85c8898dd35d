//! The fragment of a token.

ghost use Rattle.std.specs.Prelude.{◌≡◌, [], ◌∷◌, option_map, IfOk, OnOk, OnErr};
ghost use Rattle.transforms.specs.View.{frame_view};
ghost use Rattle.composite_rules.specs.Sound.{IsTyped, kind_of};
ghost use Rattle.css_out.specs.PlatformValue.{can_spell};
ghost use Rattle.css_out.specs.Spelling.{names_under, text_under};
ghost use Rattle.css_out.specs.Fragment.{spelled_links, line, value_parts, lines_of};
ghost use Rattle.css_out.specs.Fragment.{entries_under};
ghost use Rattle.css_out.specs.Sources.{IsReadUnder, HasRoom};
ghost use Rattle.css_out.specs.Sheets.{css_frame};
ghost use Rattle.css_out.specs.Links.{link_for};
ghost use Rattle.css_out.specs.inner.Written.{IsFragment, fragment_of};

use crate::line::Line;
use crate::links::link_for;
use crate::spellable::can_spell;
use crate::token::Token;
use composite_rules::Typed;
use name_path::{Link, Links, Path};
use std::alloc::Global;
use tk_io::{Bytes, NoMemory};
use transforms::{Config, Frame, Names};

/// What stands around the fragments of a style sheet: one rule for the root, of which they are the declarations (CSS Custom
/// Properties 1).
pub const FRAME: Frame = Frame {
    head: b":root {\n",
    glue: b"",
    last: b"",
    tail: b"}\n",
};

/// The frame, in which sheets are read.
pub fn frame() -> Frame
    ensures { frame_view result ≡ css_frame }
{
    FRAME
}

// Makes the comment that stands for a value which CSS can't spell, and no name.
fn omitted<'a>(draft: &mut Bytes, name: &'a [u8]) -> Result<Names<'a>, NoMemory>
    ensures { IfOk result (λ names. IsFragment name.now [] (fragment_of names draft.new)) }
{
    draft.truncate(0);
    draft.append(b"  /* omitted ")?;
    draft.append(name)?;
    draft.append(b" */\n")?;
    Ok(Names::none())
}

impl<'a, 's> Token<'a, 's> {
    // Makes the one line of a value that has one.
    fn one_line<'n>(
        &self,
        draft: &mut Bytes,
        name: &'n [u8],
        whole: Option<&Path<'_>>,
        typed: &Typed<'_>,
    ) -> Result<Names<'n>, NoMemory>
        requires { IsTyped typed.now }
        ensures { IfOk result (λ names. IsFragment name.now (line name.now (value_parts
            self.now.cfg.now.prefix self.now.links.now
            (option_map (λ p. p.now) whole.entry) typed.now) ∷ [])
            (fragment_of names draft.new)) }
    {
        let mut line = Line::over(self.alloc, draft);
        line.start(name)?;
        self.value(&mut line, whole, typed)?;
        line.end()?;
        *draft = line.text;
        Ok(Names::one(name))
    }

    // Makes the lines of a value that CSS can spell: five of a typography, else one.
    fn lines<'n>(
        &self,
        draft: &mut Bytes,
        name: &'n [u8],
        typed: &Typed<'_>,
    ) -> Result<Names<'n>, NoMemory>
        requires { IsTyped typed.now }
        ensures { IfOk result (λ names. IsFragment name.now (lines_of
            self.now.cfg.now.prefix self.now.links.now name.now
            (link_for self.now.links.now [] (kind_of typed.now)) typed.now)
            (fragment_of names draft.new)) }
    {
        let whole = link_for(self.links, &[], typed.kind());
        match typed {
            Typed::Typography(typography) => self.typography(draft, name, whole, typography),
            Typed::Simple(_)
            | Typed::StrokeStyle(_)
            | Typed::Border(_)
            | Typed::Transition(_)
            | Typed::Shadow(_)
            | Typed::Gradient(_) => self.one_line(draft, name, whole, typed),
        }
    }
}

// The items of lists in memory are no more than its places.
fn has_room(typed: &Typed<'_>)
    ensures { HasRoom typed.now }
{
    match typed {
        Typed::Shadow(items) => {
            let _items = items.len();
        }
        Typed::Gradient(stops) => {
            let _stops = stops.len();
        }
        Typed::Simple(_)
        | Typed::StrokeStyle(_)
        | Typed::Border(_)
        | Typed::Transition(_)
        | Typed::Typography(_) => {}
    }
}

// The links that are spelled as `var()`: all of them, or none where the configuration says so.
fn spelled_links<'a, 's>(cfg: &Config, links: &'a Links<'s>) -> &'a [Link<'s>]
    ensures { result.now ≡ spelled_links cfg.now links.now }
{
    if cfg.references {
        links.as_slice()
    } else {
        &[]
    }
}

// Makes the lines of a value, or the comment where CSS can't spell it.
fn written<'a>(
    alloc: Global,
    draft: &mut Bytes,
    name: &'a [u8],
    typed: &Typed<'_>,
    links: &Links<'_>,
    cfg: &Config,
) -> Result<Names<'a>, NoMemory>
    requires { IsTyped typed.now }
    ensures { IfOk result (λ names. IsFragment name.now
        (entries_under cfg.now name.now links.now typed.now) (fragment_of names draft.new)) }
{
    if !can_spell(typed) {
        return omitted(draft, name);
    }
    let token = Token {
        alloc,
        cfg,
        links: spelled_links(cfg, links),
    };
    token.lines(draft, name, typed)
}

/// The names of the token of this name in a style sheet; its lines are left in the draft. A part of its value at which a
/// link of the part's kind stands is spelled as `var()` of the link's token, where references are spelled as such. A value
/// that CSS can't spell, dashes and families with a character that is not printable, gives no name and a comment.
///
/// The draft holds the lines and nothing else, whatever it held before; on `NoMemory` it is empty. The value is one that a token can have. The text is
/// read as the declarations of the names where the name and those of the links' targets are names of CSS, as tokens have
/// them.
pub fn fragment<'a>(
    alloc: Global,
    draft: &mut Bytes,
    name: &'a [u8],
    typed: &Typed<'_>,
    links: &Links<'_>,
    cfg: &Config,
) -> Result<Names<'a>, NoMemory>
    requires typed { IsTyped typed.now }
    ensures room { HasRoom typed.now }
    ensures names { IfOk result (λ names. names ≡ names_under name.now typed.now) }
    ensures body { OnOk result (draft.new ≡ text_under cfg.now name.now links.now typed.now) }
    ensures reads { OnOk result (IsReadUnder cfg.now name.now links.now typed.now draft.new) }
    ensures cleared { OnErr result (draft.new ≡ []) }
{
    has_room(typed);
    match written(alloc, draft, name, typed, links, cfg) {
        Ok(names) => Ok(names),
        Err(NoMemory) => {
            draft.truncate(0);
            Err(NoMemory)
        }
    }
}
