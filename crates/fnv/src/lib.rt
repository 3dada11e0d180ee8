// FNV-1a with 64 bits, by which the programs say what a buffer holds.
#![tactic(auto)]

ghost use Rattle.std.specs.Prelude.{◌≡◌};
ghost use Rattle.fnv.specs.Hash.{stepped};

// The hash of no bytes.
pub const OFFSET: u64 = 14695981039346656037;

// 2^40 + 435.
const PRIME: u64 = 1099511628211;

// The hash with one byte more.
pub fn step(h: u64, byte: u32) -> u64
    ensures { result ≡ stepped h byte }
{
    (h ^ u64::from(byte)).wrapping_mul(PRIME)
}
