// The levels of a block: its two ends, and what its selectors choose between them, each at once where it belongs in a texel's number: so
// many times the level, and more.
#![tactic(auto)]

ghost use Rattle.std.specs.Prelude.{ℕ, ◌≡◌, ◌⊎◌, ◌+◌, ◌*◌, ◌/◌, ◌≤◌, ◌<◌, get_or};
ghost use Rattle.bcn_format.specs.Channels.{byte, weighed};
ghost use Rattle.bcn_format.specs.Blocks.{level};
ghost use Rattle.bcn_levels.specs.Levels.{Levels};

// So many of TOP parts of the way up, rounded down. A seventh is 9363 parts of 65536 and a fifth 13108: near enough, since no level is
// rounded another way by it.
fn partway<const TOP: u32>(low: u32, high: u32, parts: u32) -> u32
    requires top { (TOP ≡ 5) ⊎ (TOP ≡ 7) }
    requires parts_in { parts ≤ TOP }
    requires low_in { low ≤ high }
    requires high_in { high < 256 }
    ensures { result ≡ weighed TOP parts low high / TOP }
{
    (low * 65536 + parts * ((high - low) * (65536 / TOP + 1))) / 65536
}

// Two ends and six between them, or two ends, four between them, 0 and 255.
fn bytes(a: u32, b: u32) -> [u32; 8]
    requires a_in { a < 256 }
    requires b_in { b < 256 }
    ensures { (i : ℕ) → i < 8 → get_or result i 0 ≡ byte (level a b i) }
{
    if b < a {
        return [
            a,
            b,
            partway::<7>(b, a, 6),
            partway::<7>(b, a, 5),
            partway::<7>(b, a, 4),
            partway::<7>(b, a, 3),
            partway::<7>(b, a, 2),
            partway::<7>(b, a, 1),
        ];
    }
    [
        a,
        b,
        partway::<5>(a, b, 1),
        partway::<5>(a, b, 2),
        partway::<5>(a, b, 3),
        partway::<5>(a, b, 4),
        0,
        255,
    ]
}

pub fn levels(a: u32, b: u32, scale: u32, more: u32) -> [u32; 8]
    requires a_in { a < 256 }
    requires b_in { b < 256 }
    requires sum_fits { 255 * scale + more < 4294967296 }
    ensures { Levels a b scale more result }
{
    let mut levels = bytes(a, b);
    for level in &mut levels {
        *level = *level * scale + more;
    }
    levels
}
