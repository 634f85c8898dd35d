//! The types of values.

ghost use Rattle.std.specs.Prelude.{◌≡◌};
ghost use Rattle.json_span.specs.Types.{type_of_byte};

/// The types of values (RFC 8259 section 3).
#[derive(Clone, Copy, Debug, PartialEq, Eq)]
pub enum ValueType {
    Null,
    Boolean,
    Number,
    String,
    Array,
    Object,
}

/// The type of a value that begins with this byte.
pub(crate) fn type_of_byte(byte: u8) -> ValueType
    ensures { result ≡ type_of_byte byte }
{
    match byte {
        b'n' => ValueType::Null,
        b't' | b'f' => ValueType::Boolean,
        b'"' => ValueType::String,
        b'[' => ValueType::Array,
        b'{' => ValueType::Object,
        _ => ValueType::Number,
    }
}
