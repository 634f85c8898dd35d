//! The two places of a manifest.

ghost use Rattle.std.specs.Prelude.{◌≡◌};
ghost use Rattle.out_store.specs.Paths.{gate_place, manifest_place, other_slot};

/// One of the two places where a manifest may stand, each with a gate: an empty file that says that the manifest counts.
#[derive(Clone, Copy, PartialEq, Eq)]
pub enum Slot {
    /// `meta/0`, with the gate `meta/0.ok`.
    Zero,
    /// `meta/1`, with the gate `meta/1.ok`.
    One,
}

impl Slot {
    /// The other slot.
    pub fn other(self) -> Slot
        ensures { result ≡ other_slot self }
    {
        match self {
            Slot::Zero => Slot::One,
            Slot::One => Slot::Zero,
        }
    }

    /// The path of the manifest in the store.
    pub fn manifest(self) -> &'static str
        ensures { result.now ≡ manifest_place self }
    {
        match self {
            Slot::Zero => "meta/0",
            Slot::One => "meta/1",
        }
    }

    /// The path of the gate in the store.
    pub fn gate(self) -> &'static str
        ensures { result.now ≡ gate_place self }
    {
        match self {
            Slot::Zero => "meta/0.ok",
            Slot::One => "meta/1.ok",
        }
    }
}
