//! Numbers at the front of packed bytes, big-endian. A byte past the end reads as 0.
ghost use Rattle.std.specs.Prelude.{◌≡◌};
ghost use Rattle.binder.specs.Fields.{be16, be32};

use slices::byte_at;

/// The number that the first two bytes write.
pub(crate) fn u16_of(s: &[u8]) -> u16
    ensures is_big_endian { result ≡ be16 s.now }
{
    u16::from_be_bytes([byte_at(s, 0), byte_at(s, 1)])
}

/// The number that the first four bytes write.
pub(crate) fn u32_of(s: &[u8]) -> u32
    ensures is_big_endian { result ≡ be32 s.now }
{
    u32::from_be_bytes([byte_at(s, 0), byte_at(s, 1), byte_at(s, 2), byte_at(s, 3)])
}
