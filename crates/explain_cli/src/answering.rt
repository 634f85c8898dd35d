//! Answering a question from files.

ghost use Rattle.std.specs.Prelude.{◌≡◌, ℕ, List, Some, codes, IfOk};
ghost use Rattle.std.specs.FinMap as map;
ghost use Rattle.certificates.specs.Certificate.{cert_text};
ghost use Rattle.explain_cli.specs.Answered.{IsAnswer, IsChecking, IsOnlyOf, IsShowing};
ghost use Rattle.explain_cli.specs.inner.Judging.{AreShort, IsFit, IsShownIn, IsVerified};

use crate::answer::Refusal;
use crate::asking::Question;
use crate::judging::judged;
use certificates::{Cert, CertStop, Named, print_cert, read_cert};
use explain::{show, valid_explains, verify, written};
use file_plan::Files;
use group_inherit::Flat;
use name_path::Place;
use std::alloc::Global;
use tk_io::{Bytes, NoMemory, Text};

// The text of a certificate.
fn printed(alloc: Global, perm: &str, cert: &Cert<'_>) -> Result<Bytes, NoMemory>
    ensures { IfOk result (λ b. b ≡ cert_text perm.now cert.now) }
{
    let mut text = Bytes::new(alloc);
    print_cert(perm, cert, &mut text)?;
    Ok(text)
}

// The certificate of a place of the tree.
fn shown_in<'s>(
    alloc: Global,
    flat: &Flat<'s>,
    perm: &Text<'_>,
    place: &Place<'s>,
) -> Result<Result<Bytes, Refusal>, NoMemory>
    requires { IsFit perm.now flat.now }
    ensures { IfOk result (IsShownIn flat.now perm.now place.now) }
{
    valid_explains();
    if !written(flat, place) {
        return Ok(Err(Refusal::NoPlace));
    }
    let cert = show(alloc, flat, place)?;
    let text = printed(alloc, perm.as_str(), &cert)?;
    Ok(Ok(text))
}

// The certificate of a place in the permutation of the name.
fn shown<'s>(
    alloc: Global,
    files: &Files<'s>,
    perm: &Text<'_>,
    place: &Place<'s>,
) -> Result<Result<Bytes, Refusal>, NoMemory>
    requires { AreShort files.now }
    ensures { IfOk result (IsShowing files.now perm.now place.now) }
{
    match judged(alloc, files, perm)? {
        Ok(flat) => shown_in(alloc, &flat, perm, place),
        Err(why) => Ok(Err(why)),
    }
}

// What is written of a certificate that holds.
fn valid_line(alloc: Global) -> Result<Bytes, NoMemory>
    ensures { IfOk result (λ b. b ≡ codes "valid\n") }
{
    let mut text = Bytes::new(alloc);
    text.append(b"valid\n")?;
    Ok(text)
}

// Whether the certificate holds of the tree.
fn verified<'s>(
    alloc: Global,
    flat: &Flat<'s>,
    cert: &Cert<'s>,
) -> Result<Result<Bytes, Refusal>, NoMemory>
    ensures { IfOk result (IsVerified flat.now cert.now) }
{
    valid_explains();
    if !verify(alloc, flat, cert)? {
        return Ok(Err(Refusal::BadCertificate));
    }
    Ok(Ok(valid_line(alloc)?))
}

// Whether the certificate holds of the permutation that it names.
fn checked_in<'s>(
    alloc: Global,
    files: &Files<'s>,
    named: &Named<'s>,
) -> Result<Result<Bytes, Refusal>, NoMemory>
    ensures { (text : List ℕ) → IsOnlyOf text named.now.perm.now named.now.cert
        → IfOk result (IsChecking files.now (Some text)) }
{
    match judged(alloc, files, &Text::of(named.perm))? {
        Ok(flat) => verified(alloc, &flat, &named.cert),
        Err(why) => Ok(Err(why)),
    }
}

// Whether a certificate that holds stands in the file.
fn checked(
    alloc: Global,
    files: &Files<'_>,
    path: &Text<'_>,
) -> Result<Result<Bytes, Refusal>, NoMemory>
    ensures { IfOk result (IsChecking files.now (map.get files.now path.now)) }
{
    let Some(text) = files.get(path.as_str()) else {
        return Ok(Err(Refusal::NoFile));
    };
    match read_cert(alloc, text) {
        Ok(named) => checked_in(alloc, files, &named),
        Err(CertStop::BadCert) => Ok(Err(Refusal::BadCertificate)),
        Err(CertStop::NoMemory) => Err(NoMemory),
    }
}

/// The answer to a question: what is written, or why nothing is.
pub(crate) fn answer<'s>(
    alloc: Global,
    files: &Files<'s>,
    question: &Question<'s>,
) -> Result<Result<Bytes, Refusal>, NoMemory>
    requires { AreShort files.now }
    ensures { IfOk result (IsAnswer files.now question.now) }
{
    match question {
        Question::Show(perm, place) => shown(alloc, files, perm, place),
        Question::Check(path) => checked(alloc, files, path),
    }
}
