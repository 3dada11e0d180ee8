// Steps that every part of the unpacker takes: a running index brought back into range, and words of several bytes.
#![tactic(auto)]

ghost use Rattle.std.specs.Prelude.{◌≡◌, ◌+◌, ◌<◌, get_or, ℕ};
ghost use Rattle.crn_format.specs.Level.{limited};
ghost use Rattle.crn_format.specs.Header.{field};
ghost use Rattle.crn_utils.specs.Little.{little_at};

// An index "loses the palette size once if it isn't below it" (document 01, Chunks): never by remainder.
pub fn limit(x: u64, n: u64) -> u64
    ensures { result ≡ limited n x }
{
    if x < n { x } else { x - n }
}

// A byte. One past the end counts as 0, here and in all the words below.
pub fn byte(s: &[u8], at: usize) -> u32
    ensures { (result ≡ get_or s.now at 0) × (result < 256) }
{
    u32::from(s.get(at).copied().unwrap_or(0))
}

// The N bytes from `at` on, of which the words below are made.
fn bytes<const N: usize>(s: &[u8], at: u32) -> [u8; N]
    ensures { (k : ℕ) → k < N → get_or result k 0 ≡ get_or s.now (at + k) 0 }
{
    let mut bytes = [0; N];
    for (k, b) in bytes.iter_mut().enumerate() {
        *b = byte(s, at as usize + k) as u8;
    }
    bytes
}

// Big-endian numbers of two, three and four bytes.
pub fn big16(s: &[u8], at: u32) -> u32
    ensures { (result ≡ field s.now at 2) × (result < 65536) }
{
    u32::from(u16::from_be_bytes(bytes(s, at)))
}

pub fn big24(s: &[u8], at: u32) -> u32
    ensures { (result ≡ field s.now at 3) × (result < 16777216) }
{
    let [first, second, third] = bytes::<3>(s, at);
    u32::from_be_bytes([0, first, second, third])
}

pub fn big32(s: &[u8], at: u32) -> u32
    ensures { result ≡ field s.now at 4 }
{
    u32::from_be_bytes(bytes(s, at))
}

// Little-endian numbers of four and eight bytes.
pub fn little32(s: &[u8], at: u32) -> u32
    ensures { result ≡ little_at s.now at 4 }
{
    u32::from_le_bytes(bytes(s, at))
}

pub fn little64(s: &[u8], at: u32) -> u64
    ensures { result ≡ little_at s.now at 8 }
{
    u64::from_le_bytes(bytes(s, at))
}
