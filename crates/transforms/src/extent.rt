//! Where texts stand in a buffer.

ghost use Rattle.std.specs.Prelude.{◌≡◌, ◌+◌, IfSome};
ghost use Rattle.transforms.specs.Extent.{text_in};

/// Where a text stands in a buffer: the offsets of its first byte and of the one behind its last. Buffers whose texts
/// are looked up have less than 4 GiB.
#[derive(Clone, Copy, Debug)]
pub struct Extent {
    pub start: u32,
    pub end: u32,
}

impl Extent {
    /// So many bytes from an offset on; none where it ends behind 4 GiB.
    pub(crate) fn from(start: usize, len: usize) -> Option<Extent>
        ensures start { IfSome result (λ extent. extent.start ≡ start) }
        ensures end { IfSome result (λ extent. extent.end ≡ start + len) }
    {
        let end = start.checked_add(len)?;
        if end > 0xffff_ffff {
            return None;
        }
        Some(Extent {
            start: start as u32,
            end: end as u32,
        })
    }

    /// The text that stands there in the bytes, as far as they go.
    pub fn text(self, bytes: &[u8]) -> &[u8]
        ensures { result.now ≡ text_in bytes.now self }
    {
        let start = self.start as usize;
        let end = self.end as usize;
        if start >= end || start >= bytes.len() {
            return &[];
        }
        if end >= bytes.len() {
            return &bytes[start..];
        }
        &bytes[start..end]
    }
}
