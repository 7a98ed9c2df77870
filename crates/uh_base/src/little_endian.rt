//! Numbers as bytes, the least significant first.
#![tactic(auto)]

ghost use Rattle.std.specs.Prelude.{◌≡◌, ◌≤◌, ◌⊎◌, ℕ, length, IsTrue};
ghost use Rattle.uh_base.specs.Bytes.{is_width};
ghost use Rattle.uh_base.specs.LittleEndian.{little_endian, low_bytes};

/// The number that 1, 2, 4 or 8 bytes make, the least significant first.
#[inline(always)]
#[tactic(auto, unfolding(crate::specs::LittleEndian::little_endian))]
pub fn number_in(bytes: &[u8]) -> u64
    requires { IsTrue (is_width (length bytes.now)) }
    ensures { result ≡ little_endian bytes.now }
{
    match bytes {
        [a] => u64::from(*a),
        [a, b] => u64::from(u16::from_le_bytes([*a, *b])),
        [a, b, c, d] => u64::from(u32::from_le_bytes([*a, *b, *c, *d])),
        [a, b, c, d, e, f, g, h] => u64::from_le_bytes([*a, *b, *c, *d, *e, *f, *g, *h]),
        _ => 0,
    }
}

/// The number that two bytes make, the least significant first.
#[inline(always)]
#[tactic(auto, unfolding(crate::specs::LittleEndian::little_endian))]
pub fn half_in(bytes: &[u8]) -> u16
    requires { length bytes.now ≡ 2 }
    ensures { result ≡ little_endian bytes.now }
{
    match bytes {
        [a, b] => u16::from_le_bytes([*a, *b]),
        _ => 0,
    }
}

/// Writes as many low bytes of a number as there are, at most 8, the least significant first.
#[inline(always)]
pub fn write_number(bytes: &mut [u8], value: u64)
    requires { length bytes.old ≤ 8 }
    ensures { bytes.new ≡ low_bytes (length bytes.old) value }
{
    let count = bytes.len();
    bytes.copy_from_slice(&value.to_le_bytes()[..count]);
}
