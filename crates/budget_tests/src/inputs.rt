//! Reads what the enforcer is to observe.
use anyhow::{Context, bail};
use budget::observed::{AnchorNumber, ObservedEvent};
use events::kinds::{EventKind, ScalarStyle};
use std::alloc::Global;

/// A word of the list: an input for each anchor from the first to the last, each some times.
#[derive(Drop)]
pub struct Word {
    /// Absent for an alias reference.
    pub kind: Option<EventKind>,
    pub first_anchor: u32,
    pub last_anchor: u32,
    value: Vec<u8>,
    tag: Vec<u8>,
    style: ScalarStyle,
    pub times: u32,
}

impl Word {
    /// The event of a kind with an anchor.
    pub fn event(&self, kind: EventKind, anchor: AnchorNumber) -> ObservedEvent<'_> {
        ObservedEvent {
            kind,
            anchor,
            value: self.value.as_slice(),
            tag: self.tag.as_slice(),
            style: self.style,
        }
    }
}

/// What stands before a sign, and what stands after it; nothing if it is not there.
fn cut<'a>(text: &'a str, sign: &str) -> (&'a str, &'a str) {
    text.split_once(sign).unwrap_or((text, ""))
}

fn number_or(digits: &str, missing: u32) -> anyhow::Result<u32> {
    if digits.is_empty() {
        return Ok(missing);
    }
    Ok(digits.parse::<u32>()?)
}

fn read_digit(byte: u8) -> anyhow::Result<u8> {
    match byte {
        b'0'..=b'9' => Ok(byte - b'0'),
        b'a'..=b'f' => Ok(byte - b'a' + 10),
        _ => bail!("no hexadecimal digit"),
    }
}

/// The bytes that are written with two digits each.
fn read_hex(heap: Global, digits: &str) -> anyhow::Result<Vec<u8>> {
    let mut bytes = Vec::new(heap);
    let mut digits = digits.bytes();
    while let Some(high) = digits.next() {
        let high = read_digit(high)?;
        let low = read_digit(digits.next().context("half a byte")?)?;
        bytes.push(high << 4 | low)?;
    }
    Ok(bytes)
}

fn read_kind(text: &str) -> anyhow::Result<Option<EventKind>> {
    if text == "r" {
        return Ok(None);
    }
    let kind = EventKind::try_from(text.parse::<u32>()?).context("there are ten kinds")?;
    Ok(Some(kind))
}

fn read_style(digits: &str) -> anyhow::Result<ScalarStyle> {
    ScalarStyle::try_from(number_or(digits, 0)?).context("there are five styles")
}

/// Reads a word of the list.
pub fn read_word(heap: Global, word: &str) -> anyhow::Result<Word> {
    let (word, count) = cut(word, "x");
    let (word, style) = cut(word, "y");
    let (word, tag) = cut(word, "t");
    let (word, value) = cut(word, "v");
    let (kind, anchors) = cut(word, "&");
    let (first, last) = cut(anchors, "..");
    let first_anchor = number_or(first, 0)?;
    Ok(Word {
        kind: read_kind(kind)?,
        first_anchor,
        last_anchor: number_or(last, first_anchor)?,
        value: read_hex(heap, value)?,
        tag: read_hex(heap, tag)?,
        style: read_style(style)?,
        times: number_or(count, 1)?,
    })
}
