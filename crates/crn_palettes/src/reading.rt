// The parts that every palette is read by: its code tables.
ghost use Rattle.std.specs.Prelude.{◌≡◌, ◌+◌, ◌^◌, ◌<◌, ◌≤◌, length, take, replicate};
ghost use Rattle.crn_format.specs.Limits.{too_long, max_symbols};
ghost use Rattle.crn_symbol_codec.specs.Cursors.{Holds};
ghost use Rattle.crn_symbol_codec.specs.Decoders.{Decodes};
ghost use Rattle.crn_palettes.specs.Reaching.{Codes, few_of, Lengths};

use crn_code_tables::{Received, receive};
use crn_static_huffman_data_model::build;
use crn_symbol_codec::Cursor;

// A code table is received into lengths that are all zero; those behind it stay so, and all of them where it is refused.
pub fn receive_lengths(seg: &[u8], c: Cursor, lengths: &mut [u8; 8192]) -> Received
    requires holds { Holds seg.now c }
    requires seg_long { length seg.now < too_long }
    requires lengths_zero { lengths.old ≡ replicate max_symbols 0 }
    ensures { Lengths seg.now c lengths.new result }
{
    receive(seg, c, lengths)
}

// The decoder table of the first `count` lengths; at most `most` first bits of a code are looked up.
pub fn build_decoder(
    lengths: &[u8],
    count: usize,
    most: u64,
    lookup: &mut [u32],
    sorted: &mut [u16],
)
    requires codes { Codes lengths.now count }
    requires tables_fit { (0 < most) × (most ≤ 13) × (32 + 2 ^ most ≤ length lookup.old) × (count ≤ length sorted.old) }
    ensures { Decodes (take count lengths.now) lookup.new sorted.new }
{
    build(&lengths[..count], most, lookup, sorted);
}

// Whether small arrays do for a palette of so many entries, read by two tables of so many symbols: room for 256, and for 9 first bits to
// look up.
#[tactic(auto, unfolding(crate::specs::Reaching::few_of))]
pub fn few(symbols: usize, others: usize, entries: usize) -> bool
    ensures { result ≡ few_of symbols others entries }
{
    symbols <= 256 && others <= 256 && entries < 1000
}
