// Bytes as one number: the first lowest, or, for a segment's bits, which come most significant first, the first highest.
#![tactic(auto)]

ghost use Rattle.std.specs.Prelude.{◌≡◌, ◌+◌, ◌*◌, ◌<◌, ◌≤◌, length};
ghost use Rattle.crn_format.specs.Bits.{spelled};
ghost use Rattle.crn_utils.specs.Little.{little_at};

// Eight bytes, the first lowest.
pub fn eight_low(s: &[u8], i: usize) -> u64
    requires { i + 8 ≤ length s.now }
    ensures { result ≡ little_at s.now i 8 }
{
    u64::from_le_bytes([
        s[i],
        s[i + 1],
        s[i + 2],
        s[i + 3],
        s[i + 4],
        s[i + 5],
        s[i + 6],
        s[i + 7],
    ])
}

// Eight bytes, the first highest: the number that their bits spell.
pub fn eight_bytes(s: &[u8], i: usize) -> u64
    requires { i + 8 ≤ length s.now }
    ensures { result ≡ spelled s.now (8 * i) 64 }
{
    u64::from_be_bytes([
        s[i],
        s[i + 1],
        s[i + 2],
        s[i + 3],
        s[i + 4],
        s[i + 5],
        s[i + 6],
        s[i + 7],
    ])
}

// The last bytes, of which there are fewer than eight, with 0 after them. (A loop, and no eight guarded bytes: the compiler leaves
// a caller that is long out of line.)
pub fn last_bytes(s: &[u8], i: usize) -> u64
    requires { (i ≤ length s.now) × (length s.now < i + 8) }
    ensures { result ≡ spelled s.now (8 * i) 64 }
{
    if i == s.len() {
        return 0;
    }
    let mut w: u64 = 0;
    for k in i..s.len() {
        w = w * 256 + u64::from(s[k]);
    }
    w << (8 * (8 - (s.len() - i)))
}
