// The decoder tables of a level, one after another in two lent arrays: the chunk symbols', the alpha plane's two, the colour plane's two.
ghost use Rattle.std.specs.Prelude.{◌≡◌, List, ℕ, ◌+◌, ◌<◌, length, take};
ghost use Rattle.crn_formats.specs.Records.{tables_sliced};
ghost use Rattle.crn_decoders.specs.Tables.{Fair, AllFair, Able, CodedTo, all_few, wide_for, sizes_for, codes_of, tables_in};

use crn_formats::{Counts, TableSlices};
use crn_static_huffman_data_model::build;

// How many first bits of a code are looked up, and how far apart two lookups are and the sorted symbols of two tables.
#[derive(Clone, Copy)]
pub struct Sizes {
    pub most: u64,
    pub lookup_step: usize,
    pub sorted_step: usize,
}

impl Sizes {
    fn new(most: u64, lookup_step: usize, sorted_step: usize) -> Sizes
        ensures { result ≡ record { most = most; lookup_step = lookup_step; sorted_step = sorted_step } }
    {
        Sizes {
            most,
            lookup_step,
            sorted_step,
        }
    }
}

// The decoder tables of a level, made in two lent arrays.
#[derive(Clone, Copy)]
pub struct Decoders<'a> {
    pub sizes: Sizes,
    pub lookup: &'a [u32],
    pub sorted: &'a [u16],
}

// No table is for more than 1,024 symbols.
fn few(counts: Counts) -> bool
    ensures { result ≡ all_few counts }
{
    [
        counts.chunk,
        counts.color_ends,
        counts.color_sels,
        counts.alpha_ends,
        counts.alpha_sels,
    ]
    .iter()
    .all(|count| *count <= 1024)
}

// Whether one plane's tables serve a large level: three lookups of 12 bits stay near the processor, five would not.
fn wide(counts: Counts, columns: usize, rows: usize) -> bool
    ensures { result ≡ wide_for counts columns rows }
{
    ((counts.color_ends == 0) | (counts.alpha_ends == 0)) & ((64 < columns) | (64 < rows))
}

// The sizes for a level of so many columns and rows of blocks, of whose tables no more is zeroed than is needed.
pub fn sizes_for(counts: Counts, columns: usize, rows: usize) -> Sizes
    ensures { result ≡ sizes_for counts columns rows }
{
    if few(counts) {
        if (columns <= 4) & (rows <= 4) {
            Sizes::new(5, 288, 1024)
        } else if (columns <= 16) & (rows <= 16) {
            Sizes::new(8, 288, 1024)
        } else {
            Sizes::new(11, 2080, 1024)
        }
    } else if wide(counts, columns, rows) {
        Sizes::new(12, 4128, 8192)
    } else {
        Sizes::new(11, 2080, 8192)
    }
}

// Table number k, of the first `count` lengths. Those before it stay.
#[tactic(auto, using(crate::proofs::Made::place_in))]
fn make(lengths: &[u8], count: u32, k: usize, s: Sizes, lookup: &mut [u32], sorted: &mut [u16])
    requires fair { Fair lengths.now count s.sorted_step }
    requires able { Able s (length lookup.old) (length sorted.old) }
    requires k_in { k < 5 }
    ensures { (cs : ℕ → List ℕ) → cs k ≡ take count lengths.now
        → CodedTo cs k s lookup.old sorted.old → CodedTo cs (k + 1) s lookup.new sorted.new }
{
    let n = count as usize;
    let from = k * s.lookup_step;
    let to = from + s.lookup_step;
    let first = k * s.sorted_step;
    let last = first + s.sorted_step;
    build(
        &lengths[..n],
        s.most,
        &mut lookup[from..to],
        &mut sorted[first..last],
    );
}

// A plane's two tables, numbers k and k + 1.
fn make_pair(
    ends: &[u8],
    end_count: u32,
    sels: &[u8],
    sel_count: u32,
    k: usize,
    s: Sizes,
    lookup: &mut [u32],
    sorted: &mut [u16],
)
    requires ends_fair { Fair ends.now end_count s.sorted_step }
    requires sels_fair { Fair sels.now sel_count s.sorted_step }
    requires able { Able s (length lookup.old) (length sorted.old) }
    requires k_in { k < 4 }
    ensures { (cs : ℕ → List ℕ) → cs k ≡ take end_count ends.now → cs (k + 1) ≡ take sel_count sels.now
        → CodedTo cs k s lookup.old sorted.old → CodedTo cs (k + 2) s lookup.new sorted.new }
{
    make(ends, end_count, k, s, lookup, sorted);
    make(sels, sel_count, k + 1, s, lookup, sorted);
}

// The tables of a format with an alpha plane, a colour plane, or both.
pub fn make_tables(
    color: bool,
    alpha: bool,
    tables: &TableSlices,
    s: Sizes,
    lookup: &mut [u32],
    sorted: &mut [u16],
)
    requires all_fair { AllFair (tables_sliced tables.now) s.sorted_step }
    requires able { Able s (length lookup.old) (length sorted.old) }
    ensures { CodedTo (codes_of alpha (tables_sliced tables.now)) (tables_in color alpha) s lookup.new sorted.new }
{
    let counts = tables.counts;
    make(tables.chunk, counts.chunk, 0, s, lookup, sorted);
    // the colour plane's tables come after the alpha plane's
    let k = if alpha {
        make_pair(
            tables.alpha_ends,
            counts.alpha_ends,
            tables.alpha_sels,
            counts.alpha_sels,
            1,
            s,
            lookup,
            sorted,
        );
        3
    } else {
        1
    };
    if color | !alpha {
        make_pair(
            tables.color_ends,
            counts.color_ends,
            tables.color_sels,
            counts.color_sels,
            k,
            s,
            lookup,
            sorted,
        );
    }
}
