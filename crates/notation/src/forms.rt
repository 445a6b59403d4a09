//! The fixed bytes of a line: openers, marks and styles.
ghost use Rattle.std.specs.Prelude.{◌≡◌, not};
ghost use Rattle.notation.specs.Lines.{opener, extra, shape_of, name_mark, style_byte, kind_of, style_of, fitting, is_name};

use crate::parts::Shape;
use events::kinds::{EventKind, ScalarStyle};

const KINDS: [EventKind; 10] = [
    EventKind::StreamStart,
    EventKind::StreamEnd,
    EventKind::DocumentStart,
    EventKind::DocumentEnd,
    EventKind::Alias,
    EventKind::Scalar,
    EventKind::SequenceStart,
    EventKind::SequenceEnd,
    EventKind::MappingStart,
    EventKind::MappingEnd,
];

/// The four bytes that a line of a kind begins with.
pub(crate) fn opener_of(kind: EventKind) -> &'static [u8]
    ensures value { result.now ≡ opener kind }
{
    match kind {
        EventKind::StreamStart => b"+STR",
        EventKind::StreamEnd => b"-STR",
        EventKind::DocumentStart => b"+DOC",
        EventKind::DocumentEnd => b"-DOC",
        EventKind::Alias => b"=ALI",
        EventKind::Scalar => b"=VAL",
        EventKind::SequenceStart => b"+SEQ",
        EventKind::SequenceEnd => b"-SEQ",
        EventKind::MappingStart => b"+MAP",
        EventKind::MappingEnd => b"-MAP",
    }
}

/// The kind whose opener the bytes are, if there is one.
pub(crate) fn kind_of(bytes: &[u8]) -> Option<EventKind>
    ensures value { result ≡ kind_of bytes.now }
{
    KINDS.iter().copied().find(|&kind| bytes == opener_of(kind))
}

/// What may stand right behind the opener and says nothing.
pub(crate) fn extra_of(kind: EventKind) -> &'static [u8]
    ensures value { result.now ≡ extra kind }
{
    match kind {
        EventKind::DocumentStart => b" ---",
        EventKind::DocumentEnd => b" ...",
        EventKind::SequenceStart => b" []",
        EventKind::MappingStart => b" {}",
        _ => b"",
    }
}

/// What stands behind the opener of a kind.
pub(crate) fn shape_of(kind: EventKind) -> Shape
    ensures value { result ≡ shape_of kind }
{
    match kind {
        EventKind::Alias => Shape::Name,
        EventKind::Scalar => Shape::Value,
        EventKind::SequenceStart | EventKind::MappingStart => Shape::Start,
        _ => Shape::Bare,
    }
}

/// The byte before a name: `*` on an alias, else `&`.
pub(crate) fn name_mark(shape: Shape) -> u8
    ensures value { result ≡ name_mark shape }
{
    match shape {
        Shape::Name => b'*',
        _ => b'&',
    }
}

/// Whether a line of this kind names an anchor and sets none.
pub(crate) fn is_alias(kind: EventKind) -> bool
    ensures value { result ≡ is_name (shape_of kind) }
{
    kind == EventKind::Alias
}

/// The byte of a style.
pub(crate) fn style_byte(style: ScalarStyle) -> u8
    ensures value { result ≡ style_byte style }
{
    match style {
        ScalarStyle::Plain => b':',
        ScalarStyle::SingleQuoted => b'\'',
        ScalarStyle::DoubleQuoted => b'"',
        ScalarStyle::Literal => b'|',
        ScalarStyle::Folded => b'>',
    }
}

/// The style of a byte, if there is one.
pub(crate) fn style_of(byte: u8) -> Option<ScalarStyle>
    ensures value { result ≡ style_of byte }
{
    match byte {
        b':' => Some(ScalarStyle::Plain),
        b'\'' => Some(ScalarStyle::SingleQuoted),
        b'"' => Some(ScalarStyle::DoubleQuoted),
        b'|' => Some(ScalarStyle::Literal),
        b'>' => Some(ScalarStyle::Folded),
        _ => None,
    }
}

/// Whether a line of this shape may have this anchor and this tag.
pub(crate) fn fits(shape: Shape, anchor: &[u8], tag: &[u8]) -> bool
    ensures value { result ≡ fitting shape anchor.now tag.now }
{
    match shape {
        Shape::Bare => anchor.is_empty() && tag.is_empty(),
        Shape::Name => !anchor.is_empty() && tag.is_empty(),
        _ => true,
    }
}
