//! Where sources are named, and the rules that they break.

/// The file that names the sources, and its text.
#[derive(Clone, Copy, Debug)]
pub struct Home<'s> {
    pub file: &'s str,
    pub text: &'s str,
}

/// The rule that a source breaks.
#[derive(Clone, Copy, Debug, PartialEq, Eq)]
pub enum SourceFault {
    /// The file is not there.
    Missing,
    /// The file is no JSON text (RFC 8259).
    Syntax,
    /// Two members of one object have equal names.
    Duplicate,
    /// More than 64 brackets are open at once.
    Depth,
    /// The file, or the object, is no tree of groups and tokens (Format Module 2025.10).
    Shape(token_tree::Rule),
}

/// A rule that a source breaks, and the file and the byte offsets of the span where it is broken.
#[derive(Clone, Copy, Debug)]
pub struct SourceBreak<'s> {
    pub fault: SourceFault,
    pub file: &'s str,
    pub start: usize,
    pub end: usize,
}
