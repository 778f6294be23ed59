//! Numbers in bytes, high byte first. Two functions, since a function over the width would give bytes, and each use would turn
//! them into a number.

ghost use Rattle.std.specs.Prelude.{◌≡◌, ◌+◌, ◌<◌, length};
ghost use Rattle.rcm.specs.Format.{u16_at, u32_at};

pub(crate) fn u16_at(bytes: &[u8], i: usize) -> u16
    requires { i + 1 < length bytes.now }
    ensures { result ≡ u16_at bytes.now i }
{
    u16::from_be_bytes([bytes[i], bytes[i + 1]])
}

pub(crate) fn u32_at(bytes: &[u8], i: usize) -> u32
    requires { i + 3 < length bytes.now }
    ensures { result ≡ u32_at bytes.now i }
{
    u32::from_be_bytes([bytes[i], bytes[i + 1], bytes[i + 2], bytes[i + 3]])
}
