//! What a certificate holds.

use name_path::Place;
use tk_io::{Sequence, Text};

/// A place, and where it stands: the path of its file, and the byte offsets there at which it starts and ends.
#[derive(Drop)]
pub struct Spot<'s> {
    /// The place.
    pub place: Place<'s>,
    /// The path of the file of the place's token.
    pub file: Text<'s>,
    /// The first byte of its span.
    pub start: usize,
    /// The byte after its span.
    pub end: usize,
}

/// A reference, and the place that it leads to.
#[derive(Drop)]
pub struct Hop<'s> {
    /// The reference.
    pub spot: Spot<'s>,
    /// Where it leads.
    pub target: Place<'s>,
}

/// Some hops, in an order of their own.
pub type Hops<'s> = Sequence<Hop<'s>>;

/// How a place gets its value: the references on the way, each behind those that it rests on, and where they end.
#[derive(Drop)]
pub struct Cert<'s> {
    /// The place that is explained.
    pub from: Place<'s>,
    /// The references.
    pub hops: Hops<'s>,
    /// The place whose value it is.
    pub last: Spot<'s>,
}

/// A certificate that was read, with the name of the permutation that it speaks of.
#[derive(Drop)]
pub struct Named<'s> {
    /// The permutation.
    pub perm: &'s str,
    /// The certificate.
    pub cert: Cert<'s>,
}
