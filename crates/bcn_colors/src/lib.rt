// The four colours that a block's selectors choose among. The two ends, and the two colours between them, are worked on together: a number
// of 64 bits holds a channel of the one in its lower half and of the other in its upper half.
#![tactic(auto)]

ghost use Rattle.std.specs.Prelude.{ℕ, ◌+◌, ◌*◌, ◌/◌, ◌%◌, ◌≤◌, ◌<◌, true, ◌≡◌, ltb};
ghost use Rattle.crn_format.specs.Choice.{pick};
ghost use Rattle.bcn_format.specs.Blocks.{Part};
ghost use Rattle.bcn_colors.specs.Colors.{Palette, covered, bare, Alpha, twice, end, lowest, TwoBytes, TwoColors, top_of, partway, mix};

// A channel of two colours in each number.
#[derive(Clone, Copy)]
struct Both {
    red: u64,
    green: u64,
    blue: u64,
}

// The lowest bits of both halves, by how many numbers they have.
fn low_bits<const COUNT: u64>(x: u64) -> u64
    requires some { 0 < COUNT }
    requires few { COUNT ≤ 4294967296 }
    ensures { result ≡ lowest COUNT x }
{
    x % COUNT + x / 4294967296 % COUNT * 4294967296
}

// Two words of 5 bits red, 6 green and 5 blue. A channel's bits are written twice, and the upper eight of them kept.
fn ends(v: u32, w: u32) -> Both
    ensures { TwoColors (end v) (end w) result }
{
    let e = u64::from(v) + 4294967296 * u64::from(w);
    Both {
        red: low_bits::<256>(low_bits::<32>(e / 2048) * 33 / 4),
        green: low_bits::<256>(low_bits::<64>(e / 32) * 65 / 16),
        blue: low_bits::<256>(low_bits::<32>(e) * 33 / 4),
    }
}

// So many parts of the nearer end as there is one of the other, and the share of one part: a third is 21846 parts of 65536, and a half
// 32768.
fn share(four: bool) -> (u64, u64)
    ensures { (result.0 ≡ pick four 2 1) × (result.1 ≡ pick four 21846 32768) }
{
    if four { (2, 21846) } else { (1, 32768) }
}

// A third or a half of the way from the one to the other, both ways round.
fn between(x: u64, four: bool) -> u64
    requires { ((a b : ℕ) × TwoBytes a b x) }
    ensures { (a b : ℕ) → TwoBytes a b x → TwoBytes (partway (top_of four) a b) (partway (top_of four) b a) result }
{
    let (parts, share) = share(four);
    low_bits::<256>((parts * x + x.rotate_left(32)) * share / 65536)
}

fn mixed(e: Both, four: bool) -> Both
    requires { ((a b : Part → ℕ) × TwoColors a b e) }
    ensures { (a b : Part → ℕ) → TwoColors a b e → TwoColors (mix (top_of four) a b) (mix (top_of four) b a) result }
{
    Both {
        red: between(e.red, four),
        green: between(e.green, four),
        blue: between(e.blue, four),
    }
}

// Two colours, with the same alpha.
fn packed(c: Both, alpha: u64) -> u64
    requires colors_in { ((a b : Part → ℕ) × TwoColors a b c) }
    requires alpha_in { alpha < 256 }
    ensures { result ≡ c.red + 256 * c.green + 65536 * c.blue + twice (16777216 * alpha) (16777216 * alpha) }
{
    c.red + 256 * c.green + 65536 * c.blue + 72057594054705152 * alpha
}

// The one and the other of two numbers in one.
fn split(x: u64) -> (u32, u32)
    ensures { (result.0 ≡ x % 4294967296) × (result.1 ≡ x / 4294967296) }
{
    ((x % 4294967296) as u32, (x / 4294967296) as u32)
}

// The four colours of a mode, with an alpha that all have but the transparent one: the last colour of three-colour mode is transparent
// black.
fn table<const ALPHA: u64>(v: u32, w: u32, four: bool) -> [u32; 4]
    requires { ALPHA < 256 }
    ensures { (alpha : ℕ → ℕ) → Alpha four ALPHA alpha → Palette four alpha v w result }
{
    let e = ends(v, w);
    let c = packed(e, ALPHA);
    let m = packed(mixed(e, four), ALPHA);
    let n = if four { m } else { m % 4294967296 };
    let (first, second) = split(c);
    let (third, fourth) = split(n);
    [first, second, third, fourth]
}

// The four colours of a BC3 block, which has no other mode, with alpha 0.
pub fn four_colors(v: u32, w: u32) -> [u32; 4]
    ensures { Palette true bare v w result }
{
    table::<0>(v, w, true)
}

// The four colours of a BC1 block: its words' order has the mode.
pub fn palette(v: u32, w: u32) -> [u32; 4]
    ensures { Palette (ltb w v) (covered (ltb w v)) v w result }
{
    table::<255>(v, w, w < v)
}
