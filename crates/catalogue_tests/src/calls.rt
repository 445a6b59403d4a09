//! The calls that lines say.
use crate::items::{pack_many, push_item, read_item};
use anyhow::{Context, bail};
use events::score::{Piece, Run};
use std::alloc::Global;

/// A call that a line says.
#[derive(Drop)]
pub enum Call {
    Copy,
    Shelf,
    Binder,
    Shelve {
        path: Vec<u8>,
        number: u32,
        piece: Piece,
    },
    ShelveMany(u16),
    Bind(Vec<u8>),
    Resolve(Vec<u8>),
    Withdraw(u32),
}

fn read_run(text: &str) -> anyhow::Result<Run> {
    let (start, len) = text.split_once('+').context("no run")?;
    Ok(Run {
        start: start.parse::<u32>()?,
        len: len.parse::<u32>()?,
    })
}

fn read_shelve(heap: Global, words: &str) -> anyhow::Result<Call> {
    let mut words = words.split(' ');
    let path = read_item(heap, words.next().context("no path")?)?;
    let number = words.next().context("no number")?.parse::<u32>()?;
    let marks = read_run(words.next().context("no marks")?)?;
    let events = read_run(words.next().context("no events")?)?;
    let text_len = words.next().context("no length")?.parse::<u32>()?;
    let piece = Piece {
        marks,
        events,
        text_len,
    };
    Ok(Call::Shelve {
        path,
        number,
        piece,
    })
}

fn read_bind(heap: Global, items: &str) -> anyhow::Result<Call> {
    let mut bytes = Vec::new(heap);
    for item in items.split(' ') {
        if !item.is_empty() {
            push_item(&mut bytes, item)?;
        }
    }
    Ok(Call::Bind(bytes))
}

/// Reads the call of a line.
pub fn read_call(heap: Global, line: &str) -> anyhow::Result<Call> {
    if line.is_empty() || line.starts_with('#') {
        return Ok(Call::Copy);
    }
    let (name, rest) = line.split_once(' ').unwrap_or((line, ""));
    match name {
        "shelf" => Ok(Call::Shelf),
        "binder" => Ok(Call::Binder),
        "shelve" => read_shelve(heap, rest),
        "shelvemany" => Ok(Call::ShelveMany(rest.parse::<u16>()?)),
        "bind" => read_bind(heap, rest),
        "bindmany" => Ok(Call::Bind(pack_many(heap, rest.parse::<u16>()?)?)),
        "resolve" => Ok(Call::Resolve(read_item(heap, rest)?)),
        "withdraw" => Ok(Call::Withdraw(rest.parse::<u32>()?)),
        _ => bail!("no call"),
    }
}
