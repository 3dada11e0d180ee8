// What all CRN files have in common: the constant tables (document 01, Codes, Palettes and Chunks), each read by a function, and the order
// in which a block writes selectors.
#![tactic(auto)]

ghost use Rattle.std.specs.Prelude.{◌≡◌, ◌<◌, ◌≤◌, get_or};
ghost use Rattle.crn_format.specs.Level.{tile_counts};
ghost use Rattle.crn_format.specs.Palettes.{from_linear};
ghost use Rattle.crn_format.specs.Tables.{length_order};
ghost use Rattle.crn_consts.specs.Entries.{Entry};
ghost use Rattle.crn_consts.specs.Tiles.{Tiles};
ghost use Rattle.crn_consts.specs.AlphaDeltas.{AlphaDeltas, AllDeltas};

mod tables;

// What an alpha selector symbol adds to two running values, each raised by 8 so that it is not negative.
#[derive(Clone, Copy)]
pub struct Deltas {
    pub first: u32,
    pub second: u32,
}

// A table's entry, 0 past its end.
fn entry(table: &[u8], at: usize) -> u32
    ensures { Entry table.now at result }
{
    u32::from(table.get(at).copied().unwrap_or(0))
}

// How many tiles a chunk of this encoding has.
pub fn tile_count(encoding: u32) -> u32
    ensures { (result ≡ get_or tile_counts encoding 0) × (result ≤ 4) }
{
    entry(&tables::CHUNK_ENCODING_NUM_TILES, encoding as usize)
}

// The tiles at the positions of a chunk, left-top, right-top, left-bottom, right-bottom: two bits each, the first lowest.
pub fn tiles(encoding: u32) -> u32
    requires { encoding < 8 }
    ensures { Tiles encoding result }
{
    entry(&tables::CHUNK_ENCODING_TILES, encoding as usize)
}

// How a block writes a selector's value. The value goes from 0, the block's first end, to top, its second; a block numbers the two ends
// first, then what lies between. So zero stays, the top value becomes 1, anything between moves up by one. No value is above the top.
pub fn from_linear(top: u32, value: u32) -> u32
    ensures { result ≡ from_linear top value }
{
    if value == 0 {
        return 0;
    }
    if value < top {
        return value + 1;
    }
    1
}

// The i-th of the 21 length symbols, in the order in which their own lengths are sent.
pub fn length_symbol(i: usize) -> usize
    ensures { (result ≡ get_or length_order i 0) × (result < 21) }
{
    entry(&tables::MOST_PROBABLE_CODELENGTH_CODES, i) as usize
}

// The pairs of all alpha selector symbols. A constant is written out anew wherever it is named, so a caller keeps them for its many symbols.
pub fn alpha_delta_pairs() -> [u8; 450]
    ensures { AllDeltas result }
{
    tables::ALPHA_DELTA_PAIRS
}

// The deltas of an alpha selector symbol, 0 and 0 from 225 on.
pub fn alpha_deltas(pairs: &[u8], symbol: u32) -> Deltas
    requires { AllDeltas pairs.now }
    ensures { AlphaDeltas symbol result }
{
    let start = 2 * symbol as usize;
    Deltas {
        first: entry(pairs, start),
        second: entry(pairs, start + 1),
    }
}
