// What the benchmark links of `draw_bench`: its function under its own name, by the C calling convention and with the same clause.
#![tactic(auto)]

ghost use Rattle.std.specs.Prelude.{◌≡◌};
ghost use Rattle.draw_bench.specs.Tally.{sum_of_draws};

// The sum of n symbols drawn from the segment, modulo 2^64; 0 where the lengths make no code or a draw fails.
#[unsafe(no_mangle)]
pub extern "C" fn sum_of_draws(lengths: &[u8], seg: &[u8], n: usize) -> u64
    ensures { result ≡ sum_of_draws lengths.now seg.now n }
{
    draw_bench::sum_of_draws(lengths, seg, n)
}
