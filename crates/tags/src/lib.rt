//! Reads include tags: which scalars are inserts, and the path and anchor that an insert names.
//!
//! A tag is an include tag if it is one of the include words alone, or one followed by `#` and any bytes.
//! Under a word alone the value holds path and anchor, before and after its first `#`.
//! Under a word with `#` the whole value is the path, and what follows the tag's first `#` is the anchor.
#![tactic(auto)]

ghost use Rattle.std.specs.Prelude.{◌≡◌, ◌==◌, None, Ok, Decides, ◌≢◌};
ghost use Rattle.std.specs.List.{position};
ghost use Rattle.events.specs.declared.kinds.EventKind.TheVariants.{Scalar};
ghost use Rattle.tags.specs.Hashes.{hashed, split_at_hash, told_parts};
ghost use Rattle.tags.specs.Words.{include_words, is_word};
ghost use Rattle.tags.specs.Includes.{form_of, told_form, is_include_form, complete, from_value, from_fragment, told, spec_of, is_insert, insert_of, refusal_number};
ghost use Rattle.tags.specs.Causes.{NamesInclude, FormLaw, AnswerLaw};

pub mod answers;

pub use answers::{IncludeSpec, IncludeTag, TagError};
use events::kinds::EventKind;

// The include words. None has a `#`: what follows a tag's first `#` is never part of its word.
const INCLUDE_WORDS: [&[u8]; 3] = [
    b"!include",
    b"tag:yaml.org,2002:include",
    b"tag:yaml.org,2002:!include",
];

// The place of the first `#`, if there is one.
fn hash_place(text: &[u8]) -> Option<usize>
    ensures place { result ≡ position (λ x. x == 35) text.now }
{
    text.iter().position(|byte| *byte == b'#')
}

// What stands before and after the first `#`, if there is one.
fn split_at_hash<'a>(text: &'a [u8]) -> Option<(&'a [u8], &'a [u8])>
    ensures split { told_parts result ≡ split_at_hash text.now }
{
    let place = hash_place(text)?;
    Some((&text[..place], &text[place + 1..]))
}

// Whether a `#` stands in the text.
fn has_hash(text: &[u8]) -> bool
    ensures hash { result ≡ hashed text.now }
{
    text.contains(&b'#')
}

// Whether a text is one of the include words.
fn is_include_word(text: &[u8]) -> bool
    ensures word { result ≡ is_word include_words text.now }
{
    INCLUDE_WORDS.iter().any(|word| text == *word)
}

/// The number that a refusal goes by.
impl From<TagError> for u32 {
    ghost from_gives = { λ error number. number ≡ refusal_number error };

    fn from(error: TagError) -> u32 {
        match error {
            TagError::EmptyFragment => 4,
            TagError::HashInValue => 5,
            TagError::IncompleteSpec => 6,
        }
    }
}

/// The form of a tag: no include tag, an include word alone, or a word with a fragment behind its `#`.
/// A tag of no bytes is no include tag.
pub fn parse_include_tag<'a>(tag: &'a [u8]) -> IncludeTag<'a>
    ensures is_the_form { told_form result ≡ form_of include_words tag.now }
    ensures keeps_the_laws { FormLaw include_words tag.now (told_form result) }
{
    let Some((word, fragment)) = split_at_hash(tag) else {
        return if is_include_word(tag) {
            IncludeTag::Plain
        } else {
            IncludeTag::NotInclude
        };
    };
    if !is_include_word(word) {
        return IncludeTag::NotInclude;
    }
    if fragment.is_empty() {
        return IncludeTag::InvalidFragment;
    }
    IncludeTag::WithFragment(fragment)
}

// A spec with both parts, or the refusal.
fn complete_spec<'a>(path: &'a [u8], anchor: &'a [u8]) -> Result<Option<IncludeSpec<'a>>, TagError>
    ensures completed { told result ≡ complete path.now anchor.now }
{
    if path.is_empty() || anchor.is_empty() {
        return Err(TagError::IncompleteSpec);
    }
    Ok(Some(IncludeSpec { path, anchor }))
}

// Under a word alone: path and anchor are the two sides of the value's first `#`.
fn spec_from_value<'a>(value: &'a [u8]) -> Result<Option<IncludeSpec<'a>>, TagError>
    ensures from_value { told result ≡ from_value (split_at_hash value.now) }
{
    let (path, anchor) = split_at_hash(value).ok_or(TagError::IncompleteSpec)?;
    complete_spec(path, anchor)
}

// Under a word with `#`: the value is the path, and the fragment is the anchor.
fn spec_with_fragment<'a>(
    value: &'a [u8],
    fragment: &'a [u8],
) -> Result<Option<IncludeSpec<'a>>, TagError>
    ensures with_fragment { told result ≡ from_fragment value.now fragment.now }
{
    if has_hash(value) {
        return Err(TagError::HashInValue);
    }
    complete_spec(value, fragment)
}

// Whether a tag is an include tag, also one that is then refused.
fn is_include_tag(tag: &[u8]) -> bool
    ensures includes { result ≡ is_include_form (form_of include_words tag.now) }
{
    !matches!(parse_include_tag(tag), IncludeTag::NotInclude)
}

/// The path and anchor that a tag and a value name; `None` where the tag is no include tag.
/// Refuses, in this order: a tag with nothing behind its `#`; a `#` in the tag and in the value; a word alone and no `#` in
/// the value, or an empty path or anchor.
pub fn include_spec_from_tag_and_value<'a>(
    tag: &'a [u8],
    value: &'a [u8],
) -> Result<Option<IncludeSpec<'a>>, TagError>
    ensures is_the_spec { told result ≡ spec_of include_words tag.now value.now }
    ensures keeps_the_laws { AnswerLaw include_words tag.now value.now (told result) }
{
    match parse_include_tag(tag) {
        IncludeTag::NotInclude => Ok(None),
        IncludeTag::InvalidFragment => Err(TagError::EmptyFragment),
        IncludeTag::Plain => spec_from_value(value),
        IncludeTag::WithFragment(fragment) => spec_with_fragment(value, fragment),
    }
}

/// Whether an event is an insert: a scalar with an include tag.
pub fn is_insert(kind: EventKind, tag: &[u8]) -> bool
    ensures is_the_test { result ≡ is_insert include_words kind tag.now }
    ensures scalar_with_an_include_tag { Decides result ((kind ≡ Scalar) × NamesInclude include_words tag.now) }
{
    kind == EventKind::Scalar && is_include_tag(tag)
}

/// The path and anchor that an event names; `None` where it is no insert.
pub fn insert<'a>(
    kind: EventKind,
    tag: &'a [u8],
    value: &'a [u8],
) -> Result<Option<IncludeSpec<'a>>, TagError>
    ensures is_the_insert { told result ≡ insert_of include_words kind tag.now value.now }
    ensures answers_exactly_inserts { Decides (is_insert include_words kind tag.now) (told result ≢ Ok None) }
{
    if kind != EventKind::Scalar {
        return Ok(None);
    }
    include_spec_from_tag_and_value(tag, value)
}
