// Bytes and little-endian numbers, read where they stand. Those whose names end in _at answer as the model does past the end: with 0.
ghost use Rattle.std.specs.Prelude.{◌+◌, ◌≤◌, ◌≡◌, length};
ghost use Rattle.model.specs.Words.{byte, word16, word32, blank};

fn byte_at(t: &[u8], at: usize) -> u8
    ensures { result ≡ byte t.now at }
{
    t.get(at).copied().unwrap_or(0)
}

pub fn word16_at(t: &[u8], at: usize) -> u32
    ensures { result ≡ word16 t.now at }
{
    // both bytes are there but at the very end: one test for the two, since the ends of channels are read by the thousand
    if 2 <= t.len().saturating_sub(at) {
        word16(t, at)
    } else {
        u32::from(byte_at(t, at))
    }
}

pub fn word16(t: &[u8], at: usize) -> u32
    requires { at + 2 ≤ length t.now }
    ensures { result ≡ word16 t.now at }
{
    u32::from(u16::from_le_bytes([t[at], t[at + 1]]))
}

pub fn word32(t: &[u8], at: usize) -> u32
    requires { at + 4 ≤ length t.now }
    ensures { result ≡ word32 t.now at }
{
    u32::from_le_bytes([t[at], t[at + 1], t[at + 2], t[at + 3]])
}

// The n bytes from a place on are zero.
pub fn blank(t: &[u8], n: usize, at: usize) -> bool
    requires { at + n ≤ length t.now }
    ensures { result ≡ blank t.now n at }
{
    t[at..at + n].iter().all(|b| *b == 0)
}
