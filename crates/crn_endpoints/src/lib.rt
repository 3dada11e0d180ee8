// Endpoints: running sums (document 01, Palettes).
#![tactic(auto)]

ghost use Rattle.std.specs.Prelude.{◌≡◌, ℕ, ◌+◌, ◌^◌, Err, ◌<◌, ◌≤◌, List, [], ◌∷◌, length, take, replicate};
ghost use Rattle.crn_format.specs.Limits.{too_long, max_entries};
ghost use Rattle.crn_format.specs.Reading.{a_symbol};
ghost use Rattle.crn_format.specs.Palettes.{Sum as Adding, summed, alpha_sums, alpha_word, color_sums, color_word, color_endpoints, alpha_endpoints};
ghost use Rattle.crn_format.specs.declared.Fault.{Fault as Blame};
ghost use Rattle.crn_symbol_codec.specs.Cursors.{Holds, place as place_of};
ghost use Rattle.crn_symbol_codec.specs.Decoders.{Decodes, SomeCode, Usable};
ghost use Rattle.crn_symbol_codec.specs.Taking.{Takes};
ghost use Rattle.crn_palettes.specs.Filling.{Fills, FillsFrom};
ghost use Rattle.crn_palettes.specs.Reaching.{Next, Reaches, Codes};
ghost use Rattle.crn_endpoints.specs.Endpoints.{alpha_entries, color_entries, taken_of, Adds, SomeSums, Small, Kept, cleared};

use crn_format::Fault;
use crn_palettes::{build_decoder, few, receive_lengths};
use crn_short_draw::{draw, ready};
use crn_symbol_codec::{Cursor, Decoder, place, refusal, start};

// A symbol; a fault names the bit that it begins at. What was drawn is handed on part by part, so that a loop need not keep it in memory.
fn draw_at(code: Decoder, seg: &[u8], c: Cursor) -> Result<(u32, Cursor), Fault>
    requires holds { Holds seg.now c }
    requires seg_long { length seg.now < too_long }
    requires usable { Usable code.lookup.now code.sorted.now }
    ensures takes { (t : List ℕ) → Decodes t code.entry.lookup.now code.entry.sorted.now → Takes seg.now (a_symbol t) c (taken_of result) }
    ensures names { (e : Blame) → result ≡ Err e → e.at ≡ place_of c }
{
    let drawn = draw(code, seg, ready(seg, c));
    let Ok((symbol, next)) = drawn else {
        return Err(Fault {
            refusal: refusal(drawn),
            at: place(seg, c),
        });
    };
    Ok((symbol, next))
}

// A running sum: the code of its deltas, and the low bits that it has.
#[derive(Clone, Copy)]
struct Sum<'a> {
    deltas: Decoder<'a>,
    mask: u8,
}

// A symbol is added to each sum in turn: a sum has its low bits, so it wraps at 256, or at less.
fn summed(sums: &[Sum], seg: &[u8], c: Cursor, values: &mut [u8]) -> Result<Cursor, Fault>
    requires holds { Holds seg.now c }
    requires seg_long { length seg.now < too_long }
    requires some_sums { SomeSums sums.now }
    requires as_many { length values.old ≡ length sums.now }
    ensures reads { (ms : List Adding) → Adds sums.now ms → (b : ℕ) → Reaches seg.now (summed ms 0 values.old) c b values.new result }
    ensures keeps { Next (λ _. Kept sums.now values.new) result }
{
    let mut at = c;
    for (i, sum) in sums.iter().enumerate() {
        let (delta, next) = draw_at(sum.deltas, seg, at)?;
        values[i] = values[i].wrapping_add((delta % 256) as u8) & sum.mask;
        at = next;
    }
    Ok(at)
}

// ---- alpha: two sums of a byte, which "wrap at 256 by design"

// The word of two sums.
#[tactic(auto, unfolding(crn_format::specs::Palettes::alpha_word))]
fn alpha_word(values: &[u8; 2]) -> u16
    ensures { alpha_word values.now ≡ result ∷ [] }
{
    u16::from(values[0]) + 256 * u16::from(values[1])
}

// The entries of an alpha endpoint palette, up to a fault. The cursor is taken part by part, so that it stays out of memory.
fn alpha_words(
    code: Decoder,
    seg: &[u8],
    c: Cursor,
    count: usize,
    out: &mut [u16],
) -> Result<(), Fault>
    requires holds { Holds seg.now c }
    requires seg_long { length seg.now < too_long }
    requires some_code { SomeCode code.lookup.now code.sorted.now }
    requires count_in { count ≤ length out.old }
    ensures { (t : List ℕ) → Decodes t code.entry.lookup.now code.entry.sorted.now → FillsFrom seg.now c (alpha_entries t count) out.old (cleared result out.new) result }
{
    let sum = Sum {
        deltas: code,
        mask: 255,
    };
    let sums = [sum, sum];
    let mut values = [0u8; 2];
    let mut at = c;
    for word in &mut out[..count] {
        match summed(&sums, seg, at, &mut values) {
            Ok(Cursor { bits, have, next }) => at = Cursor { bits, have, next },
            Err(fault) => return Err(fault),
        }
        *word = alpha_word(&values);
    }
    Ok(())
}

// The same by the decoder table of the first n lengths, made in arrays of these lengths.
fn alpha_by<const L: usize, const S: usize>(
    lengths: &[u8; 8192],
    n: usize,
    most: u64,
    seg: &[u8],
    c: Cursor,
    count: usize,
    out: &mut [u16],
) -> Result<(), Fault>
    requires codes { Codes lengths.now n }
    requires tables_fit { (0 < most) × (most ≤ 13) × (32 + 2 ^ most ≤ L) × (n ≤ S) × (L ≤ 2080) × (S ≤ 8192) }
    requires holds { Holds seg.now c }
    requires seg_long { length seg.now < too_long }
    requires count_in { count ≤ length out.old }
    ensures { FillsFrom seg.now c (alpha_entries (take n lengths.now) count) out.old (cleared result out.new) result }
{
    let mut lookup = [0u32; L];
    let mut sorted = [0u16; S];
    build_decoder(lengths, n, most, &mut lookup, &mut sorted);
    let code = Decoder {
        lookup: &lookup,
        sorted: &sorted,
    };
    alpha_words(code, seg, c, count, out)
}

// An alpha endpoint palette: its code table, and then its entries, up to a fault.
fn alpha_read(seg: &[u8], count: usize, out: &mut [u16]) -> Result<(), Fault>
    requires { (length seg.now < too_long) × (count ≤ max_entries) × (count ≤ length out.old) }
    ensures { Fills seg.now (alpha_endpoints count) out.old (cleared result out.new) result }
{
    let mut lengths = [0u8; 8192];
    let (n, c) = receive_lengths(seg, start(seg), &mut lengths)?;
    let n = n as usize;
    if few(n, n, count) {
        alpha_by::<544, 256>(&lengths, n, 9, seg, c, count, out)
    } else {
        alpha_by::<2080, 8192>(&lengths, n, 11, seg, c, count, out)
    }
}

// Alpha endpoints: two running bytes an entry.
pub fn alpha_endpoints(seg: &[u8], count: usize, out: &mut [u16]) -> Result<(), Fault>
    requires { (length seg.now < too_long) × (count ≤ max_entries) × (count ≤ length out.old) }
    ensures { Fills seg.now (alpha_endpoints count) out.old out.new result }
{
    let read = alpha_read(seg, count, out);
    if read.is_err() {
        out.fill(0u16);
    }
    read
}

// ---- colour: six sums a, b, c, d, e, f, of five bits each but b and e, which have six, and a table of their own

// The word of six sums.
#[tactic(auto, unfolding(crn_format::specs::Palettes::color_word))]
fn color_word(v: &[u8; 6]) -> u32
    requires { Small v.now }
    ensures { color_word v.now ≡ result ∷ [] }
{
    u32::from(v[2])
        + 32 * u32::from(v[1])
        + 2048 * u32::from(v[0])
        + 65536 * u32::from(v[5])
        + 2097152 * u32::from(v[4])
        + 134217728 * u32::from(v[3])
}

// The entries of a colour endpoint palette, up to a fault; the cursor is taken as there.
fn color_words(
    five: Decoder,
    six: Decoder,
    seg: &[u8],
    c: Cursor,
    count: usize,
    out: &mut [u32],
) -> Result<(), Fault>
    requires holds { Holds seg.now c }
    requires seg_long { length seg.now < too_long }
    requires code_5 { SomeCode five.lookup.now five.sorted.now }
    requires code_6 { SomeCode six.lookup.now six.sorted.now }
    requires count_in { count ≤ length out.old }
    ensures { (t : List ℕ × List ℕ) → Decodes t.0 five.entry.lookup.now five.entry.sorted.now × Decodes t.1 six.entry.lookup.now six.entry.sorted.now → FillsFrom seg.now c (color_entries t.0 t.1 count) out.old (cleared result out.new) result }
{
    let m5 = Sum {
        deltas: five,
        mask: 31,
    };
    let m6 = Sum {
        deltas: six,
        mask: 63,
    };
    let sums = [m5, m6, m5, m5, m6, m5];
    let mut values = [0u8; 6];
    let mut at = c;
    for word in &mut out[..count] {
        match summed(&sums, seg, at, &mut values) {
            Ok(Cursor { bits, have, next }) => at = Cursor { bits, have, next },
            Err(fault) => return Err(fault),
        }
        *word = color_word(&values);
    }
    Ok(())
}

// The same by the decoder tables of the first n lengths for five bits and the first m for six, made in arrays of these lengths.
fn color_by<const L: usize, const S: usize>(
    lengths5: &[u8; 8192],
    n: usize,
    lengths6: &[u8; 8192],
    m: usize,
    most: u64,
    seg: &[u8],
    c: Cursor,
    count: usize,
    out: &mut [u32],
) -> Result<(), Fault>
    requires codes_5 { Codes lengths5.now n }
    requires codes_6 { Codes lengths6.now m }
    requires tables_fit { (0 < most) × (most ≤ 13) × (32 + 2 ^ most ≤ L) × (n ≤ S) × (m ≤ S) × (L ≤ 2080) × (S ≤ 8192) }
    requires holds { Holds seg.now c }
    requires seg_long { length seg.now < too_long }
    requires count_in { count ≤ length out.old }
    ensures { FillsFrom seg.now c (color_entries (take n lengths5.now) (take m lengths6.now) count) out.old (cleared result out.new) result }
{
    let mut lookup5 = [0u32; L];
    let mut sorted5 = [0u16; S];
    let mut lookup6 = [0u32; L];
    let mut sorted6 = [0u16; S];
    build_decoder(lengths5, n, most, &mut lookup5, &mut sorted5);
    build_decoder(lengths6, m, most, &mut lookup6, &mut sorted6);
    let five = Decoder {
        lookup: &lookup5,
        sorted: &sorted5,
    };
    let six = Decoder {
        lookup: &lookup6,
        sorted: &sorted6,
    };
    color_words(five, six, seg, c, count, out)
}

// A colour endpoint palette: its two code tables, and then its entries, up to a fault.
fn color_read(seg: &[u8], count: usize, out: &mut [u32]) -> Result<(), Fault>
    requires { (length seg.now < too_long) × (count ≤ max_entries) × (count ≤ length out.old) }
    ensures { Fills seg.now (color_endpoints count) out.old (cleared result out.new) result }
{
    let mut lengths5 = [0u8; 8192];
    let (n, c) = receive_lengths(seg, start(seg), &mut lengths5)?;
    let mut lengths6 = [0u8; 8192];
    let (m, d) = receive_lengths(seg, c, &mut lengths6)?;
    let n = n as usize;
    let m = m as usize;
    if few(n, m, count) {
        color_by::<544, 256>(&lengths5, n, &lengths6, m, 9, seg, d, count, out)
    } else {
        color_by::<2080, 8192>(&lengths5, n, &lengths6, m, 11, seg, d, count, out)
    }
}

// Colour endpoints: six running sums an entry, by a table for five bits and one for six.
pub fn color_endpoints(seg: &[u8], count: usize, out: &mut [u32]) -> Result<(), Fault>
    requires { (length seg.now < too_long) × (count ≤ max_entries) × (count ≤ length out.old) }
    ensures { Fills seg.now (color_endpoints count) out.old out.new result }
{
    let read = color_read(seg, count, out);
    if read.is_err() {
        out.fill(0u32);
    }
    read
}
