//! Which kind of JSON value begins at a byte: RFC 8259's alternatives of a value differ in their first byte.

ghost use Rattle.std.specs.Prelude.{◌≡◌, ◌<◌, ◌≤◌, length, drop, true, false, IfSome, IfNone};
ghost use Rattle.grammar.specs.Predict.{first, begins};
ghost use Rattle.json_span.specs.Grammar.{value};
ghost use Rattle.json_span.specs.Predictive.{ahead, rules};
ghost use Rattle.json_span.specs.inner.Alternatives.{alternative_of, rule_of_alternative};

/// The two kinds of values that hold others, each between brackets of its own: arrays and objects.
#[derive(Clone, Copy)]
pub(crate) enum Bracket {
    Square,
    Curly,
}

/// The kinds of values that hold no others.
#[derive(Clone, Copy)]
pub(crate) enum Scalar {
    False,
    Null,
    True,
    Number,
    String,
}

/// The kinds of values that are told apart by the first byte.
#[derive(Clone, Copy)]
pub(crate) enum Alternative {
    Scalar(Scalar),
    List(Bracket),
}

// The kind of value whose texts begin with this byte, or none where no value does.
fn alternative_of(byte: u8) -> Option<Alternative>
    ensures { result ≡ alternative_of byte }
{
    match byte {
        b'f' => Some(Alternative::Scalar(Scalar::False)),
        b'n' => Some(Alternative::Scalar(Scalar::Null)),
        b't' => Some(Alternative::Scalar(Scalar::True)),
        b'{' => Some(Alternative::List(Bracket::Curly)),
        b'[' => Some(Alternative::List(Bracket::Square)),
        b'-' | b'0'..=b'9' => Some(Alternative::Scalar(Scalar::Number)),
        b'"' => Some(Alternative::Scalar(Scalar::String)),
        _ => None,
    }
}

/// The kind of value that begins at an offset of the text, or none where the byte there begins no value, or none stands
/// there.
pub(crate) fn alternative_at(text: &str, at: usize) -> Option<Alternative>
    requires { at ≤ length text.now }
    ensures found { IfSome result (λ k.
        begins (first ahead (rule_of_alternative k)) (drop at text.now) ≡ true) }
    ensures bound { IfSome result (λ k. at < length text.now) }
    ensures none { IfNone result (begins (first ahead (rules value)) (drop at text.now) ≡ false) }
{
    match text.as_bytes().get(at) {
        Some(byte) => alternative_of(*byte),
        None => None,
    }
}
