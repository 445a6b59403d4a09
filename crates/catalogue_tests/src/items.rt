//! Bytes as they are written in a line.
use anyhow::Context;
use std::alloc::Global;

// The last bytes of a number, the highest first.
fn push_number(bytes: &mut Vec<u8>, number: u64, width: usize) -> anyhow::Result<()> {
    let all = number.to_be_bytes();
    bytes.extend_from_slice(&all[all.len().saturating_sub(width)..])?;
    Ok(())
}

fn push_once(bytes: &mut Vec<u8>, item: &str) -> anyhow::Result<()> {
    if let Some(quoted) = item.strip_prefix('"') {
        let text = quoted.strip_suffix('"').context("no closing mark")?;
        bytes.extend_from_slice(text.as_bytes())?;
        return Ok(());
    }
    let (number, width) = item.split_once('/').context("no width")?;
    push_number(bytes, number.parse::<u64>()?, width.parse::<usize>()?)
}

/// Adds the bytes of an item.
pub fn push_item(bytes: &mut Vec<u8>, item: &str) -> anyhow::Result<()> {
    let (once, times) = item.split_once('x').unwrap_or((item, "1"));
    for _ in 0..times.parse::<u32>()? {
        push_once(bytes, once)?;
    }
    Ok(())
}

/// The bytes of one item.
pub fn read_item(heap: Global, item: &str) -> anyhow::Result<Vec<u8>> {
    let mut bytes = Vec::new(heap);
    push_item(&mut bytes, item)?;
    Ok(bytes)
}

/// The path of an entry of many.
pub fn path_of_many(number: u16) -> [u8; 2] {
    number.to_be_bytes()
}

/// Packed bytes with many entries.
pub fn pack_many(heap: Global, count: u16) -> anyhow::Result<Vec<u8>> {
    let mut bytes = Vec::new(heap);
    bytes.extend_from_slice(b"PBK\x00\x01")?;
    bytes.extend_from_slice(&count.to_be_bytes())?;
    for i in 0..count {
        let number = u32::from(i) + 1;
        bytes.push(2)?;
        bytes.extend_from_slice(&path_of_many(i))?;
        bytes.extend_from_slice(&number.to_be_bytes())?;
        bytes.extend_from_slice(&[0; 16])?;
    }
    Ok(bytes)
}
