// Many draws, for the benchmark in bench/.
#![tactic(auto)]

ghost use Rattle.std.specs.Prelude.{◌≡◌};
ghost use Rattle.crn_symbol_codec.specs.Decoders.{Decodes};
ghost use Rattle.draw_bench.specs.Tally.{total as total_of, sum_of_draws as sum_of_draws};

use crn_symbol_codec::Decoder;

// The lengths are there for the contract alone.
fn total(lengths: &[u8], code: Decoder, seg: &[u8], n: usize) -> u64
    requires { Decodes lengths.now code.lookup.now code.sorted.now }
    ensures { result ≡ total_of lengths.now seg.now n }
{
    let mut c = crn_symbol_codec::start(seg);
    let mut sum: u64 = 0;
    for _ in 0..n {
        let Ok((symbol, next)) = crn_symbol_codec::draw(code, seg, c) else {
            return 0;
        };
        sum = sum.wrapping_add(u64::from(symbol));
        c = next;
    }
    sum
}

// The sum of n symbols drawn from the segment, modulo 2^64; 0 where the lengths make no code or a draw fails.
pub fn sum_of_draws(lengths: &[u8], seg: &[u8], n: usize) -> u64
    ensures { result ≡ sum_of_draws lengths.now seg.now n }
{
    if 8192 < lengths.len() {
        return 0;
    }
    if !crn_static_huffman_data_model::is_code(lengths) {
        return 0;
    }
    let mut lookup = [0u32; 8224];
    let mut sorted = [0u16; 8192];
    crn_static_huffman_data_model::build(lengths, 13, &mut lookup, &mut sorted);
    let code = Decoder {
        lookup: &lookup,
        sorted: &sorted,
    };
    total(lengths, code, seg, n)
}
