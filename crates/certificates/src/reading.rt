//! Reading a certificate.

ghost use Rattle.std.specs.Prelude.{◌≡◌, ◌≢◌, ◌≤◌, ◌↔◌, ◌++◌, ◌∷◌, ℕ, List, true, length, codes};
ghost use Rattle.std.specs.Prelude.{MatchOption, IfOk, IfSome, IsErrOf};
ghost use Rattle.std.specs.List.{flat_map, AllByRecursion, list_all};
ghost use Rattle.name_path.specs.Names.{IsTokenPath};
ghost use Rattle.certificates.specs.Certificate.{CertFits, HopFits, IsCertificate, SpotFits};
ghost use Rattle.certificates.specs.Certificate.{cert_text, end_line, end_words, hop_line, hop_words};
ghost use Rattle.certificates.specs.Certificate.{place_string, span_words, way_text};
ghost use Rattle.certificates.specs.Certificate.{is_permutation_byte, is_permutation_name};
ghost use Rattle.certificates.specs.declared.certificate.Cert.{Cert};
ghost use Rattle.certificates.specs.declared.certificate.Hop.{Hop};
ghost use Rattle.certificates.specs.declared.certificate.Spot.{Spot};
ghost use Rattle.certificates.specs.declared.reading.CertStop.TheVariants.{NoMemory as OutOfMemory};
ghost use Rattle.certificates.specs.inner.Fronts.{Finds};

use crate::cut::{cut, past};
use crate::front::{front_place, front_span};
use crate::{Cert, Hop, Hops, Named, Spot, print_cert};
use name_path::Place;
use std::alloc::Global;
use tk_io::{Bytes, NoMemory};

/// Why a text gives no certificate.
#[derive(Clone, Copy, Debug, PartialEq, Eq)]
pub enum CertStop {
    /// The text spells none.
    BadCert,
    /// Memory ran out.
    NoMemory,
}

impl From<NoMemory> for CertStop {
    ghost from_gives = { λ _ e. e ≡ OutOfMemory };

    fn from(_: NoMemory) -> CertStop {
        CertStop::NoMemory
    }
}

/// The name of the permutation in the first lines, and what follows the word before the place that is explained.
fn front_name(text: &str) -> Option<(&str, &str)>
    ensures found { (perm rest : List ℕ) → is_permutation_name perm ≡ true
        → text.now ≡ codes "tokc-explain 1\npermutation " ++ (perm ++ (codes "\nfrom " ++ rest))
        → MatchOption result ⊥ (λ p. (p.0.now ≡ perm) × (p.1.now ≡ rest)) }
    ensures name { IfSome result (λ p. is_permutation_name p.0.now ≡ true) }
{
    let Some(words) = past(text, "tokc-explain 1\npermutation ") else {
        return None;
    };
    let (perm, left) = cut(words, '\n')?;
    if !is_permutation_name(perm) {
        return None;
    }
    let Some(rest) = past(left, "from ") else {
        return None;
    };
    Some((perm, rest))
}

fn is_permutation_name(name: &str) -> bool
    ensures { result ≡ is_permutation_name name.now }
{
    !name.is_empty() && has_permutation_bytes(name)
}

fn has_permutation_bytes(name: &str) -> bool
    ensures { result ≡ list_all is_permutation_byte name.now }
{
    name.bytes().all(is_permutation_byte)
}

fn is_permutation_byte(byte: u8) -> bool
    ensures { result ≡ is_permutation_byte byte }
{
    byte.is_ascii_alphanumeric() || matches!(byte, b'_' | b'-' | b'%' | b'=' | b'+')
}

/// The hop to its target, whose span stands at the front of the text, and what follows the line.
fn hop_to<'s>(
    place: Place<'s>,
    target: Place<'s>,
    text: &'s str,
) -> Result<(Hop<'s>, &'s str), CertStop>
    requires place { IsTokenPath place.token }
    requires target { IsTokenPath target.token }
    ensures found { (hop : Hop) (rest : List ℕ) → HopFits hop → place.entry ≡ hop.spot.place
        → target.entry ≡ hop.target → text.entry.now ≡ span_words hop.spot ++ 10 ∷ rest
        → Finds result (λ r. (r.0 ≡ hop) × (r.1.now ≡ rest)) }
    ensures fits { IfOk result (λ r. HopFits r.0) }
    ensures left { IfOk result (λ r. length r.1.now ≤ length text.entry.now) }
{
    match front_span(place, text) {
        Some((spot, rest)) => Ok((Hop { spot, target }, rest)),
        None => Err(CertStop::BadCert),
    }
}

/// The hop from its place, whose target stands at the front of the text, and what follows the line.
fn hop_from<'s>(
    alloc: Global,
    place: Place<'s>,
    text: &'s str,
) -> Result<(Hop<'s>, &'s str), CertStop>
    requires { IsTokenPath place.token }
    ensures found { (hop : Hop) (rest : List ℕ) → HopFits hop → place.entry ≡ hop.spot.place
        → text.entry.now ≡ place_string hop.target ++ 32 ∷ (span_words hop.spot ++ 10 ∷ rest)
        → Finds result (λ r. (r.0 ≡ hop) × (r.1.now ≡ rest)) }
    ensures fits { IfOk result (λ r. HopFits r.0) }
    ensures left { IfOk result (λ r. length r.1.now ≤ length text.entry.now) }
{
    match front_place(alloc, text, " ") {
        Ok((target, left)) => hop_to(place, target, left),
        Err(stop) => Err(stop),
    }
}

/// The hop behind the first word of its line, and what follows the line.
fn front_hop<'s>(alloc: Global, text: &'s str) -> Result<(Hop<'s>, &'s str), CertStop>
    ensures found { (hop : Hop) (rest : List ℕ) → HopFits hop
        → text.entry.now ≡ hop_words hop ++ rest
        → Finds result (λ r. (r.0 ≡ hop) × (r.1.now ≡ rest)) }
    ensures fits { IfOk result (λ r. HopFits r.0) }
    ensures left { IfOk result (λ r. length r.1.now ≤ length text.entry.now) }
{
    match front_place(alloc, text, " ") {
        Ok((place, left)) => hop_from(alloc, place, left),
        Err(stop) => Err(stop),
    }
}

/// The hops whose lines stand at the front of the text, and what follows them.
fn front_hops<'s>(alloc: Global, text: &'s str) -> Result<(Hops<'s>, &'s str), CertStop>
    ensures found { (hops : List Hop) (last : Spot) → AllByRecursion HopFits hops
        → text.entry.now ≡ flat_map hop_line hops ++ end_line last
        → Finds result (λ r. (r.0 ≡ hops) × (r.1.now ≡ end_line last)) }
    ensures fits { IfOk result (λ r. AllByRecursion HopFits r.0) }
{
    let mut hops = Hops::new(alloc);
    let mut left = text;
    while let Some(words) = past(left, "hop ") {
        match front_hop(alloc, words) {
            Ok((hop, rest)) => {
                hops.push(hop)?;
                left = rest;
            }
            Err(stop) => return Err(stop),
        }
    }
    Ok((hops, left))
}

/// The place at the end and its span, behind the first word of its line.
fn end_spot<'s>(alloc: Global, text: &'s str) -> Result<Spot<'s>, CertStop>
    ensures found { (last : Spot) → SpotFits last → text.entry.now ≡ end_words last
        → Finds result (λ s. s ≡ last) }
    ensures fits { IfOk result (λ s. SpotFits s) }
{
    match front_place(alloc, text, " ") {
        Ok((place, left)) => match front_span(place, left) {
            Some((spot, _)) => Ok(spot),
            None => Err(CertStop::BadCert),
        },
        Err(stop) => Err(stop),
    }
}

/// The place at the end, whose line the text is.
fn last_spot<'s>(alloc: Global, text: &'s str) -> Result<Spot<'s>, CertStop>
    ensures found { (last : Spot) → SpotFits last → text.entry.now ≡ end_line last
        → Finds result (λ s. s ≡ last) }
    ensures fits { IfOk result (λ s. SpotFits s) }
{
    match past(text, "end ") {
        Some(words) => end_spot(alloc, words),
        None => Err(CertStop::BadCert),
    }
}

/// The certificate of a place, whose lines of hops and of the end the text is.
fn cert_from<'s>(alloc: Global, from: Place<'s>, text: &'s str) -> Result<Cert<'s>, CertStop>
    requires { IsTokenPath from.token }
    ensures found { (cert : Cert) → CertFits cert → from.entry ≡ cert.from
        → text.entry.now ≡ way_text cert → Finds result (λ c. c ≡ cert) }
    ensures fits { IfOk result (λ c. CertFits c) }
{
    match front_hops(alloc, text) {
        Ok((hops, left)) => {
            let last = last_spot(alloc, left)?;
            Ok(Cert { from, hops, last })
        }
        Err(stop) => Err(stop),
    }
}

/// The certificate behind the first word of the line of the place that is explained.
fn cert_of<'s>(alloc: Global, text: &'s str) -> Result<Cert<'s>, CertStop>
    ensures found { (cert : Cert) → CertFits cert
        → text.entry.now ≡ place_string cert.from ++ (codes "\n" ++ way_text cert)
        → Finds result (λ c. c ≡ cert) }
    ensures fits { IfOk result (λ c. CertFits c) }
{
    match front_place(alloc, text, "\n") {
        Ok((from, left)) => cert_from(alloc, from, left),
        Err(stop) => Err(stop),
    }
}

/// The certificate that the text spells, where it spells one. Of other texts the answer may be a certificate that is
/// spelled otherwise.
fn guessed<'s>(alloc: Global, text: &'s str) -> Result<Named<'s>, CertStop>
    ensures found { (perm : List ℕ) (cert : Cert) → IsCertificate text.entry.now perm cert
        → Finds result (λ n. (n.perm.now ≡ perm) × (n.cert ≡ cert)) }
    ensures name { IfOk result (λ n. is_permutation_name n.perm.now ≡ true) }
    ensures fits { IfOk result (λ n. CertFits n.cert) }
{
    match front_name(text) {
        Some((perm, left)) => match cert_of(alloc, left) {
            Ok(cert) => Ok(Named { perm, cert }),
            Err(stop) => Err(stop),
        },
        None => Err(CertStop::BadCert),
    }
}

/// Whether the text is the one that spells the certificate.
fn is_text_of(alloc: Global, text: &str, named: &Named<'_>) -> Result<bool, NoMemory>
    ensures { IfOk result (λ is. (is ≡ true) ↔ (text.now ≡ cert_text named.now.perm.now named.now.cert)) }
{
    let mut printed = Bytes::with_room(alloc, text.len())?;
    print_cert(named.perm, &named.cert, &mut printed)?;
    Ok(printed.as_slice() == text.as_bytes())
}

/// The certificate, where the text is the one that spells it.
fn checked<'s>(alloc: Global, text: &str, named: Named<'s>) -> Result<Named<'s>, CertStop>
    ensures spelled { IfOk result (λ n. (n ≡ named.entry)
        × (text.now ≡ cert_text named.entry.perm.now named.entry.cert)) }
    ensures bad { IsErrOf result CertStop.BadCert
        → text.now ≢ cert_text named.entry.perm.now named.entry.cert }
{
    if !is_text_of(alloc, text, &named)? {
        return Err(CertStop::BadCert);
    }
    Ok(named)
}

/// Reads a certificate: the line `tokc-explain 1`; `permutation` and its name; `from` and a place; a line `hop` for each hop
/// with its place, its target, its file and its span; and last `end` with a place, its file and its span. Places are JSON
/// strings of pointers as `print_place` and `write_string` spell them, offsets are below 4,294,967,296 and have no leading
/// zero, words have one blank between them, and each line ends in one byte 0x0A. So a certificate has one spelling.
///
/// # Errors
/// `BadCert` exactly where the text spells no certificate; `NoMemory`.
pub fn read_cert<'s>(alloc: Global, text: &'s str) -> Result<Named<'s>, CertStop>
    ensures spelled { IfOk result (λ n. IsCertificate text.entry.now n.perm.now n.cert) }
    ensures alone { IfOk result (λ n. (perm : List ℕ) (cert : Cert)
        → IsCertificate text.entry.now perm cert → (n.perm.now ≡ perm) × (n.cert ≡ cert)) }
    ensures bad { IsErrOf result CertStop.BadCert → (perm : List ℕ) (cert : Cert)
        → ¬ IsCertificate text.entry.now perm cert }
{
    match guessed(alloc, text) {
        Ok(named) => checked(alloc, text, named),
        Err(stop) => Err(stop),
    }
}
