// The parts of a code table as it is sent (document 01, Codes).
ghost use Rattle.std.specs.Prelude.{◌≡◌, List, ℕ, ◌+◌, ◌*◌, ◌<◌, ◌≤◌, length, replicate};
ghost use Rattle.crn_format.specs.Limits.{max_symbols, max_length, too_long};
ghost use Rattle.crn_format.specs.Reading.{spot, run, from_bits};
ghost use Rattle.crn_format.specs.Tables.{coded, counted, table};
ghost use Rattle.crn_symbol_codec.specs.Cursors.{place as place_of, Holds};
ghost use Rattle.crn_symbol_codec.specs.Decoders.{Decodes, SomeCode};
ghost use Rattle.crn_static_huffman_data_model.specs.Building.{share_of};
ghost use Rattle.crn_code_tables.specs.Parts.{fault_at, Sends, extra_of, least_of, Draws, Runs, all_runs, Tells, TellsAt};

use crate::Received;
use crn_format::{Fault, Refusal};
use crn_short_draw::{draw, number, ready};
use crn_static_huffman_data_model::{build, is_code};
use crn_symbol_codec::{Cursor, Decoder, place, refusal};

// A refusal that names the bit at a cursor.
fn fault(seg: &[u8], refusal: Refusal, at: Cursor) -> Fault
    requires holds { Holds seg.now at }
    requires seg_long { length seg.now < too_long }
    ensures { result ≡ fault_at refusal (place_of at) }
{
    Fault {
        refusal,
        at: place(seg, at),
    }
}

// The lengths of the code of lengths: three bits for each of the first n length symbols, 0 for the others.
fn sent_lengths(seg: &[u8], c: Cursor, n: usize, lengths: &mut [u8; 21]) -> Result<Cursor, Fault>
    requires holds { Holds seg.now c }
    requires seg_long { length seg.now < too_long }
    requires n_in { n ≤ 21 }
    requires lengths_zero { lengths.old ≡ replicate 21 0 }
    ensures { Sends seg.now n c result lengths.new }
{
    let mut at = c;
    for i in 0..n {
        let (l, next) = match number(seg, ready(seg, at), 3) {
            Ok(taken) => taken,
            Err(refusal) => return Err(fault(seg, refusal, at)),
        };
        lengths[crn_consts::length_symbol(i)] = l as u8;
        at = next;
    }
    Ok(at)
}

// Of a length symbol above 16, how many bits say how long its run is, and how long it is at least.
fn run_by(s: u32) -> (u64, usize)
    ensures extra { (result.0 ≡ extra_of s) × (result.0 ≤ 7) }
    ensures least { (result.1 ≡ least_of s) × (0 < result.1) × (result.1 ≤ 11) }
{
    match s {
        17 => (3, 3),
        18 => (7, 11),
        19 => (2, 3),
        _ => (6, 7),
    }
}

// A run of lengths, from its symbol on: which, and how many. `last` is the length before it, or 0. (The length comes first, where a fault
// has its refusal: if a byte stood in a number's place, the number would go through memory.)
fn run_at(code: Decoder, seg: &[u8], at: Cursor, last: u8) -> Result<((u8, usize), Cursor), Fault>
    requires holds { Holds seg.now at }
    requires seg_long { length seg.now < too_long }
    requires some_code { SomeCode code.lookup.now code.sorted.now }
    requires last_short { last ≤ max_length }
    ensures { Draws code.entry.lookup.now code.entry.sorted.now seg.now last at result }
{
    let drawn = draw(code, seg, ready(seg, at));
    let Ok((s, close)) = drawn else {
        return Err(fault(seg, refusal(drawn), at));
    };
    if s <= 16 {
        return Ok(((s as u8, 1), close));
    }
    let (extra, least) = run_by(s);
    let counted = number(seg, ready(seg, close), extra);
    let Ok((x, next)) = counted else {
        return Err(fault(seg, refusal(counted), close));
    };
    let n = least + x as usize;
    if s <= 18 {
        return Ok(((0, n), next));
    }
    if last == 0 {
        return Err(fault(seg, Refusal::NoCode, at));
    }
    Ok(((last, n), next))
}

// The room that n codes of l bits take.
fn room_of(n: usize, l: u8) -> u32
    requires { (n ≤ max_symbols) × (l ≤ max_length) }
    ensures { (result ≡ n * share_of l) × (result ≤ 65535 * n) }
{
    if l == 0 {
        return 0;
    }
    (n as u32) << (16 - l as u32)
}

// The lengths of `count` symbols, run by run, and the room that their codes take.
fn lengths_by_runs(
    code: Decoder,
    seg: &[u8],
    c: Cursor,
    count: usize,
    lengths: &mut [u8],
) -> Result<(u32, Cursor), Fault>
    requires holds { Holds seg.now c }
    requires seg_long { length seg.now < too_long }
    requires count_in { count ≤ max_symbols }
    requires some_code { SomeCode code.lookup.now code.sorted.now }
    requires lengths_zero { lengths.old ≡ replicate max_symbols 0 }
    ensures { Runs code.entry.lookup.now code.entry.sorted.now seg.now c count result lengths.new }
{
    let mut done: usize = 0;
    let mut last: u8 = 0;
    let mut room: u32 = 0;
    let mut at = c;
    while done < count {
        let ((l, n), next) = run_at(code, seg, at, last)?;
        if count - done < n {
            return Err(fault(seg, Refusal::NoCode, at));
        }
        if n == 1 {
            lengths[done] = l; // as most runs are
        } else if l != 0 {
            lengths[done..done + n].fill(l); // the lengths from here on are 0 already
        }
        room += room_of(n, l);
        done += n;
        last = l;
        at = next;
    }
    Ok((room, at))
}

// They have to make a code themselves, which the room tells that they take.
fn table_by_runs(code: Decoder, seg: &[u8], c: Cursor, count: usize, lengths: &mut [u8]) -> Received
    requires holds { Holds seg.now c }
    requires seg_long { length seg.now < too_long }
    requires count_in { count ≤ max_symbols }
    requires some_code { SomeCode code.lookup.now code.sorted.now }
    requires lengths_zero { lengths.old ≡ replicate max_symbols 0 }
    ensures { (cl : List ℕ) → Decodes cl code.entry.lookup.now code.entry.sorted.now → Tells seg.now (run (from_bits seg.now) (all_runs cl count) (spot (place_of c) (place_of c))) result lengths.new }
{
    let (room, at) = lengths_by_runs(code, seg, c, count, lengths)?;
    if room == 0 || 65536 < room {
        return Err(fault(seg, Refusal::NoCode, at));
    }
    Ok((count as u32, at))
}

// A table of `count` symbols, from the n lengths of the code of lengths on.
fn coded_table(seg: &[u8], c: Cursor, count: usize, n: usize, out: &mut [u8]) -> Received
    requires holds { Holds seg.now c }
    requires seg_long { length seg.now < too_long }
    requires count_in { (count ≤ max_symbols) × (n ≤ 21) }
    requires out_zero { out.old ≡ replicate max_symbols 0 }
    ensures { TellsAt seg.now (coded count n) c result out.new }
{
    let mut lengths = [0u8; 21];
    let at = sent_lengths(seg, c, n, &mut lengths)?;
    if !is_code(&lengths) {
        return Err(fault(seg, Refusal::NoCode, at));
    }
    let mut lookup = [0u32; 160];
    let mut sorted = [0u16; 21];
    build(&lengths, 7, &mut lookup, &mut sorted);
    let code = Decoder {
        lookup: &lookup,
        sorted: &sorted,
    };
    table_by_runs(code, seg, at, count, out)
}

// A table of `count` symbols, from the number of lengths of the code of lengths on.
fn counted_table(seg: &[u8], c: Cursor, count: usize, out: &mut [u8]) -> Received
    requires holds { Holds seg.now c }
    requires seg_long { length seg.now < too_long }
    requires count_in { count ≤ max_symbols }
    requires out_zero { out.old ≡ replicate max_symbols 0 }
    ensures { TellsAt seg.now (counted count) c result out.new }
{
    let (n, next) = match crn_symbol_codec::number(seg, c, 5) {
        Ok(taken) => taken,
        Err(refusal) => return Err(fault(seg, refusal, c)),
    };
    if n == 0 || 21 < n {
        return Err(fault(seg, Refusal::NoCode, c));
    }
    coded_table(seg, next, count, n as usize, out)
}

// A table, from its count of symbols on.
pub fn sent_table(seg: &[u8], c: Cursor, out: &mut [u8]) -> Received
    requires holds { Holds seg.now c }
    requires seg_long { length seg.now < too_long }
    requires out_zero { out.old ≡ replicate max_symbols 0 }
    ensures { TellsAt seg.now table c result out.new }
{
    let (count, next) = match crn_symbol_codec::number(seg, c, 14) {
        Ok(taken) => taken,
        Err(refusal) => return Err(fault(seg, refusal, c)),
    };
    if count == 0 {
        return Ok((0, next));
    }
    if 8192 < count {
        return Err(fault(seg, Refusal::NoCode, c));
    }
    counted_table(seg, next, count as usize, out)
}
