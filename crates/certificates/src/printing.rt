//! The text of a certificate.

ghost use Rattle.std.specs.Prelude.{◌≡◌, ◌++◌, OnOk, OnErr};
ghost use Rattle.std.specs.Fmt.{decimal};
ghost use Rattle.std.specs.List.{flat_map};
ghost use Rattle.tk_io.specs.Writing.{Extends};
ghost use Rattle.certificates.specs.Certificate.{cert_text, end_line, hop_line, place_string};
ghost use Rattle.certificates.specs.Certificate.{span_words, way_text};

use crate::{Cert, Hop, Spot};
use itoa::Buffer;
use json_span::write_string_bytes;
use name_path::{Place, print_place};
use tk_io::{Bytes, NoMemory};

fn append_place(place: &Place<'_>, out: &mut Bytes) -> Result<(), NoMemory>
    ensures ok { OnOk result (out.new ≡ out.old ++ place_string place.now) }
    ensures err { OnErr result (out.new ≡ out.old) }
{
    let mut pointer = out.fresh();
    print_place(place, &mut pointer)?;
    write_string_bytes(pointer.as_slice(), out)
}

fn append_number(number: usize, out: &mut Bytes) -> Result<(), NoMemory>
    ensures ok { OnOk result (out.new ≡ out.old ++ decimal number) }
    ensures err { OnErr result (out.new ≡ out.old) }
{
    let mut buffer = Buffer::new();
    out.append(buffer.format(number).as_bytes())
}

fn append_span(spot: &Spot<'_>, out: &mut Bytes) -> Result<(), NoMemory>
    ensures ok { OnOk result (out.new ≡ out.old ++ span_words spot.now) }
    ensures err { OnErr result (Extends out.old out.new) }
{
    out.append(spot.file.as_str().as_bytes())?;
    out.append(b" ")?;
    append_number(spot.start, out)?;
    out.append(b" ")?;
    append_number(spot.end, out)
}

fn append_hop(hop: &Hop<'_>, out: &mut Bytes) -> Result<(), NoMemory>
    ensures ok { OnOk result (out.new ≡ out.old ++ hop_line hop.now) }
    ensures err { OnErr result (Extends out.old out.new) }
{
    out.append(b"hop ")?;
    append_place(&hop.spot.place, out)?;
    out.append(b" ")?;
    append_place(&hop.target, out)?;
    out.append(b" ")?;
    append_span(&hop.spot, out)?;
    out.append(b"\n")
}

fn append_hops(hops: &[Hop<'_>], out: &mut Bytes) -> Result<(), NoMemory>
    ensures ok { OnOk result (out.new ≡ out.old ++ flat_map hop_line hops.now) }
    ensures err { OnErr result (Extends out.old out.new) }
{
    for hop in hops {
        append_hop(hop, out)?;
    }
    Ok(())
}

fn append_end(last: &Spot<'_>, out: &mut Bytes) -> Result<(), NoMemory>
    ensures ok { OnOk result (out.new ≡ out.old ++ end_line last.now) }
    ensures err { OnErr result (Extends out.old out.new) }
{
    out.append(b"end ")?;
    append_place(&last.place, out)?;
    out.append(b" ")?;
    append_span(last, out)?;
    out.append(b"\n")
}

fn append_way(cert: &Cert<'_>, out: &mut Bytes) -> Result<(), NoMemory>
    ensures ok { OnOk result (out.new ≡ out.old ++ way_text cert.now) }
    ensures err { OnErr result (Extends out.old out.new) }
{
    append_hops(cert.hops.as_slice(), out)?;
    append_end(&cert.last, out)?;
    Ok(())
}

fn append_cert(perm: &str, cert: &Cert<'_>, out: &mut Bytes) -> Result<(), NoMemory>
    ensures ok { OnOk result (out.new ≡ out.old ++ cert_text perm.now cert.now) }
    ensures err { OnErr result (Extends out.old out.new) }
{
    out.append(b"tokc-explain 1\n")?;
    out.append(b"permutation ")?;
    out.append(perm.as_bytes())?;
    out.append(b"\n")?;
    out.append(b"from ")?;
    append_place(&cert.from, out)?;
    out.append(b"\n")?;
    append_way(cert, out)?;
    Ok(())
}

/// Appends the lines of the certificate, which speaks of the permutation of this name. Where memory runs out nothing is
/// appended.
pub fn print_cert(perm: &str, cert: &Cert<'_>, out: &mut Bytes) -> Result<(), NoMemory>
    ensures ok { OnOk result (out.new ≡ out.old ++ cert_text perm.now cert.now) }
    ensures err { OnErr result (out.new ≡ out.old) }
{
    let start = out.len();
    let appended = append_cert(perm, cert, out);
    out.all_or_nothing(start, appended)
}
