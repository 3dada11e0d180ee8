// Selectors: sixteen running values, of which each symbol changes two (document 01, Palettes).
// A pair of values stands in the two halves of a byte, so that a symbol takes one sum and one look for how the pair is written.
#![tactic(auto)]

ghost use Rattle.std.specs.Prelude.{◌≡◌, Bool, true, false, refl, List, ℕ, ◌+◌, ◌*◌, ◌^◌, ◌<◌, ◌≤◌, length, take};
ghost use Rattle.std.proofs.lemmas.List.Edits.{sets};
ghost use Rattle.crn_format.specs.Limits.{too_long, max_entries};
ghost use Rattle.crn_format.specs.Palettes.{from_linear, three_words, color_selectors, alpha_selectors};
ghost use Rattle.crn_symbol_codec.specs.Cursors.{Holds};
ghost use Rattle.crn_symbol_codec.specs.Decoders.{Decodes, SomeCode};
ghost use Rattle.crn_palettes.specs.Filling.{Fills, FillsFrom};
ghost use Rattle.crn_palettes.specs.Reaching.{Codes};
ghost use Rattle.crn_selectors.specs.Selectors.{top_of, pairs_of, bits_of, Kept, DeltasOf, Halves, PairDelta, PairMoved, written_pair};
ghost use Rattle.crn_selectors.specs.Selectors.{DeltaTable, WordTable, Pairs, NextWord, color_entries, alpha_entries, cleared, FillsBy};

use crn_consts::{Deltas, alpha_delta_pairs, alpha_deltas, from_linear};
use crn_format::{Fault, Refusal};
use crn_palettes::{build_decoder, few, receive_lengths};
use crn_short_draw::filled;
use crn_symbol_codec::{Cursor, Decoder, draw_ready, place, refusal, start};

// What the two palettes differ in.
trait Kind {
    // whether it is alpha's
    ghost alpha: { Bool };

    ghost TOP: { ℕ };

    ghost BITS: { ℕ };

    ghost PAIRS: { ℕ };

    ghost constants: { (TOP ≡ top_of alpha) × (BITS ≡ bits_of alpha) × (PAIRS ≡ pairs_of alpha) };

    // The greatest value.
    const TOP: u32;

    // How many bits a value takes as it is written.
    const BITS: u64;

    // How many symbols have a meaning.
    const PAIRS: u32;

    // What a symbol adds to two values, raised so that it is not negative: for alpha by the constant table, which is kept.
    fn deltas(kept: &[u8], symbol: u32) -> Deltas
        requires symbol_in { symbol < pairs_of alpha }
        requires kept { Kept alpha kept.now }
        ensures { DeltasOf alpha symbol result };
}

// Values of two bits.
struct Color;

impl Kind for Color {
    ghost alpha = { false };

    ghost TOP = { top_of false };

    ghost BITS = { bits_of false };

    ghost PAIRS = { pairs_of false };

    ghost constants = { (refl, refl, refl) };

    const TOP: u32 = 3;

    const BITS: u64 = 2;

    const PAIRS: u32 = 49;

    fn deltas(_kept: &[u8], symbol: u32) -> Deltas {
        Deltas {
            first: symbol % 7 + 1,
            second: symbol / 7 + 1,
        }
    }
}

// Values of three bits.
struct Alpha;

impl Kind for Alpha {
    ghost alpha = { true };

    ghost TOP = { top_of true };

    ghost BITS = { bits_of true };

    ghost PAIRS = { pairs_of true };

    ghost constants = { (refl, refl, refl) };

    const TOP: u32 = 7;

    const BITS: u64 = 3;

    const PAIRS: u32 = 225;

    #[tactic(auto, using(crate::proofs::Pairing::table_deltas))]
    fn deltas(kept: &[u8], symbol: u32) -> Deltas {
        alpha_deltas(kept, symbol)
    }
}

// ---- a pair of values

// What a symbol adds to a pair: its deltas, each modulo how many values there are.
fn pair_delta<K: Kind>(kept: &[u8], symbol: u32) -> u8
    requires symbol_in { symbol < pairs_of K.alpha }
    requires kept { Kept K.alpha kept.now }
    ensures { PairDelta K.alpha symbol result }
{
    let by = K::deltas(kept, symbol);
    let values = K::TOP + 1;
    (by.first % values + 16 * (by.second % values)) as u8
}

// A pair changed by a delta.
fn moved<K: Kind>(pair: u8, delta: u8) -> u8
    requires halves { Halves K.alpha pair }
    requires delta_halves { Halves K.alpha delta }
    ensures { PairMoved K.alpha pair delta result }
{
    let sum = u32::from(pair) + u32::from(delta);
    let values = K::TOP + 1;
    (sum % values + 16 * (sum / 16 % values)) as u8
}

// A value as a block writes it.
#[tactic(auto, using(crate::proofs::Pairing::written_small))]
fn written<K: Kind>(value: u32) -> u32
    ensures { (result ≡ from_linear (top_of K.alpha) value) × (result < 2 ^ bits_of K.alpha) }
{
    from_linear(K::TOP, value)
}

// A pair as a block writes it, the first value lowest.
fn pair_written<K: Kind>(pair: u32) -> u8
    requires { pair < 256 }
    ensures { result ≡ written_pair K.alpha pair }
{
    let low = written::<K>(pair % 16);
    let high = written::<K>(pair / 16);
    (low + (high << K::BITS)) as u8
}

// ---- the tables of a palette

// What each symbol adds.
fn delta_table<K: Kind>(kept: &[u8]) -> [u8; 256]
    requires { Kept K.alpha kept.now }
    ensures { DeltaTable K.alpha result }
{
    let mut out = [0u8; 256];
    for s in 0..K::PAIRS {
        out[s as usize] = pair_delta::<K>(kept, s);
    }
    out
}

// How each pair is written.
fn word_table<K: Kind>() -> [u8; 128]
    ensures { WordTable K.alpha result }
{
    let mut out = [0u8; 128];
    for (p, word) in out.iter_mut().enumerate() {
        *word = pair_written::<K>(p as u32);
    }
    out
}

// ---- the entries

// Eight symbols, one for each pair, and the entry's sixteen values as written; refusal 9 from 49 (colour) or 225 (alpha) upward.
fn next_word<K: Kind>(
    deltas: &[u8; 256],
    words: &[u8; 128],
    code: Decoder,
    seg: &[u8],
    c: Cursor,
    pairs: &mut [u8; 8],
) -> Result<(u64, Cursor), Fault>
    requires holds { Holds seg.now c }
    requires seg_long { length seg.now < too_long }
    requires some_code { SomeCode code.lookup.now code.sorted.now }
    requires delta_table { DeltaTable K.alpha deltas.now }
    requires word_table { WordTable K.alpha words.now }
    requires pairs { Pairs K.alpha pairs.old }
    ensures { NextWord K.alpha code.entry.lookup.now code.entry.sorted.now seg.now c pairs.old pairs.new result }
{
    let mut at = c;
    let mut word: u64 = 0;
    let mut shift: u64 = 0;
    for pair in pairs.iter_mut() {
        let drawn = draw_ready(code, seg, filled(seg, at));
        let Ok((s, next)) = drawn else {
            return Err(Fault {
                refusal: refusal(drawn),
                at: place(seg, at),
            });
        };
        if K::PAIRS <= s {
            return Err(Fault {
                refusal: Refusal::NoSelector,
                at: place(seg, at),
            });
        }
        *pair = moved::<K>(*pair, deltas[s as usize]);
        word += u64::from(words[*pair as usize]) << shift;
        shift += 2 * K::BITS;
        at = next;
    }
    Ok((word, at))
}

// ---- colour: a word an entry

// The words of a colour selector palette, up to a fault.
fn color_words(
    code: Decoder,
    seg: &[u8],
    c: Cursor,
    count: usize,
    out: &mut [u32],
) -> Result<(), Fault>
    requires holds { Holds seg.now c }
    requires seg_long { length seg.now < too_long }
    requires some_code { SomeCode code.lookup.now code.sorted.now }
    requires count_in { count ≤ length out.old }
    ensures { FillsBy color_entries code.entry seg.now c count out.old out.new result }
{
    let deltas = delta_table::<Color>(b"");
    let words = word_table::<Color>();
    let mut pairs = [0u8; 8];
    let mut at = c;
    for word in &mut out[..count] {
        let (bits, next) = next_word::<Color>(&deltas, &words, code, seg, at, &mut pairs)?;
        *word = bits as u32;
        at = next;
    }
    Ok(())
}

// The same by the decoder table of the first n lengths, made in arrays of these lengths.
fn color_by<const L: usize, const S: usize>(
    lengths: &[u8; 8192],
    n: usize,
    most: u64,
    seg: &[u8],
    c: Cursor,
    count: usize,
    out: &mut [u32],
) -> Result<(), Fault>
    requires codes { Codes lengths.now n }
    requires tables_fit { (0 < most) × (most ≤ 13) × (32 + 2 ^ most ≤ L) × (n ≤ S) × (L ≤ 2080) × (S ≤ 8192) }
    requires holds { Holds seg.now c }
    requires seg_long { length seg.now < too_long }
    requires count_in { count ≤ length out.old }
    ensures { FillsFrom seg.now c (color_entries (take n lengths.now) count) out.old (cleared result out.new) result }
{
    let mut lookup = [0u32; L];
    let mut sorted = [0u16; S];
    build_decoder(lengths, n, most, &mut lookup, &mut sorted);
    let code = Decoder {
        lookup: &lookup,
        sorted: &sorted,
    };
    color_words(code, seg, c, count, out)
}

// A colour selector palette: its code table, and then its entries, up to a fault.
fn color_read(seg: &[u8], count: usize, out: &mut [u32]) -> Result<(), Fault>
    requires { (length seg.now < too_long) × (count ≤ max_entries) × (count ≤ length out.old) }
    ensures { Fills seg.now (color_selectors count) out.old (cleared result out.new) result }
{
    let mut lengths = [0u8; 8192];
    let (n, c) = receive_lengths(seg, start(seg), &mut lengths)?;
    let n = n as usize;
    if few(n, n, count) {
        color_by::<544, 256>(&lengths, n, 9, seg, c, count, out)
    } else {
        color_by::<2080, 8192>(&lengths, n, 11, seg, c, count, out)
    }
}

// Colour selectors: sixteen running values of two bits an entry.
pub fn color_selectors(seg: &[u8], count: usize, out: &mut [u32]) -> Result<(), Fault>
    requires { (length seg.now < too_long) × (count ≤ max_entries) × (count ≤ length out.old) }
    ensures { Fills seg.now (color_selectors count) out.old out.new result }
{
    let read = color_read(seg, count, out);
    if read.is_err() {
        out.fill(0);
    }
    read
}

// ---- alpha: three words an entry

// Writes the 48 bits of an alpha selector, "in three words, low word first".
fn put_three(out: &mut [u16], at: usize, bits: u64)
    requires { (at + 3 ≤ length out.old) × (bits < 2 ^ 48) }
    ensures { out.new ≡ sets out.old at (three_words bits) }
{
    out[at] = (bits % 65536) as u16;
    out[at + 1] = (bits / 65536 % 65536) as u16;
    out[at + 2] = (bits / 4294967296) as u16;
}

// The words of an alpha selector palette, up to a fault.
fn alpha_words(
    code: Decoder,
    seg: &[u8],
    c: Cursor,
    count: usize,
    out: &mut [u16],
) -> Result<(), Fault>
    requires holds { Holds seg.now c }
    requires seg_long { length seg.now < too_long }
    requires some_code { SomeCode code.lookup.now code.sorted.now }
    requires room { 3 * count ≤ length out.old }
    ensures { FillsBy alpha_entries code.entry seg.now c count out.old out.new result }
{
    let kept = alpha_delta_pairs();
    let deltas = delta_table::<Alpha>(&kept);
    let words = word_table::<Alpha>();
    let mut pairs = [0u8; 8];
    let mut at = c;
    for i in 0..count {
        let (bits, next) = next_word::<Alpha>(&deltas, &words, code, seg, at, &mut pairs)?;
        put_three(out, 3 * i, bits);
        at = next;
    }
    Ok(())
}

// The same by the decoder table of the first n lengths, made in arrays of these lengths.
fn alpha_by<const L: usize, const S: usize>(
    lengths: &[u8; 8192],
    n: usize,
    most: u64,
    seg: &[u8],
    c: Cursor,
    count: usize,
    out: &mut [u16],
) -> Result<(), Fault>
    requires codes { Codes lengths.now n }
    requires tables_fit { (0 < most) × (most ≤ 13) × (32 + 2 ^ most ≤ L) × (n ≤ S) × (L ≤ 2080) × (S ≤ 8192) }
    requires holds { Holds seg.now c }
    requires seg_long { length seg.now < too_long }
    requires room { 3 * count ≤ length out.old }
    ensures { FillsFrom seg.now c (alpha_entries (take n lengths.now) count) out.old (cleared result out.new) result }
{
    let mut lookup = [0u32; L];
    let mut sorted = [0u16; S];
    build_decoder(lengths, n, most, &mut lookup, &mut sorted);
    let code = Decoder {
        lookup: &lookup,
        sorted: &sorted,
    };
    alpha_words(code, seg, c, count, out)
}

// An alpha selector palette: its code table, and then its entries, up to a fault.
fn alpha_read(seg: &[u8], count: usize, out: &mut [u16]) -> Result<(), Fault>
    requires { (length seg.now < too_long) × (count ≤ max_entries) × (3 * count ≤ length out.old) }
    ensures { Fills seg.now (alpha_selectors count) out.old (cleared result out.new) result }
{
    let mut lengths = [0u8; 8192];
    let (n, c) = receive_lengths(seg, start(seg), &mut lengths)?;
    let n = n as usize;
    if few(n, n, count) {
        alpha_by::<544, 256>(&lengths, n, 9, seg, c, count, out)
    } else {
        alpha_by::<2080, 8192>(&lengths, n, 11, seg, c, count, out)
    }
}

// Alpha selectors: sixteen running values of three bits, and so three words, an entry.
pub fn alpha_selectors(seg: &[u8], count: usize, out: &mut [u16]) -> Result<(), Fault>
    requires { (length seg.now < too_long) × (count ≤ max_entries) × (3 * count ≤ length out.old) }
    ensures { Fills seg.now (alpha_selectors count) out.old out.new result }
{
    let read = alpha_read(seg, count, out);
    if read.is_err() {
        out.fill(0);
    }
    read
}
