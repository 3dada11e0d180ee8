// What the eight bytes of half a block say: two ends, and sixteen selectors.
ghost use Rattle.std.specs.Prelude.{◌≡◌, ◌+◌, ◌≤◌, ◌<◌, length, get_or};
ghost use Rattle.crn_utils.specs.Little.{little_at};
ghost use Rattle.bcn_blocks.specs.Texels.{ColorsAt, LevelsAt};

// Two colours and selectors of two bits, or two levels and selectors of three.
#[derive(Clone, Copy)]
pub struct Half {
    pub first: u32,
    pub second: u32,
    pub selectors: u64,
}

// The number of two bytes, the first the lower; of four, and of six.
fn pair(bytes: &[u8], at: usize) -> u32
    requires { at + 2 ≤ length bytes.now }
    ensures { (result ≡ little_at bytes.now at 2) × (result < 65536) }
{
    u32::from(bytes[at]) + 256 * u32::from(bytes[at + 1])
}

fn quad(bytes: &[u8], at: usize) -> u64
    requires { at + 4 ≤ length bytes.now }
    ensures { (result ≡ little_at bytes.now at 4) × (result < 4294967296) }
{
    u64::from(pair(bytes, at)) + 65536 * u64::from(pair(bytes, at + 2))
}

fn six(bytes: &[u8], at: usize) -> u64
    requires { at + 6 ≤ length bytes.now }
    ensures { result ≡ little_at bytes.now at 6 }
{
    quad(bytes, at) + 4294967296 * u64::from(pair(bytes, at + 4))
}

pub fn color_half(blocks: &[u8], at: usize) -> Half
    requires { at + 8 ≤ length blocks.now }
    ensures { ColorsAt blocks.now at result }
{
    Half {
        first: pair(blocks, at),
        second: pair(blocks, at + 2),
        selectors: quad(blocks, at + 4),
    }
}

pub fn level_half(blocks: &[u8], at: usize) -> Half
    requires { at + 8 ≤ length blocks.now }
    ensures { LevelsAt blocks.now at result }
{
    Half {
        first: u32::from(blocks[at]),
        second: u32::from(blocks[at + 1]),
        selectors: six(blocks, at + 2),
    }
}
