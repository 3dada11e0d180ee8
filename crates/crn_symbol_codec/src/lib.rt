// Bits and symbols of a segment: a cursor by value beside the segment's slice.
#![tactic(auto)]

ghost use Rattle.std.specs.Prelude.{◌≡◌, List, ℕ, ◌+◌, ◌*◌, ◌<◌, ◌≤◌, length, get_or};
ghost use Rattle.crn_format.specs.Limits.{too_long};
ghost use Rattle.crn_format.specs.Reading.{a_symbol, a_number};
ghost use Rattle.crn_symbol_codec.specs.Cursors.{place as place_of, past, Holds, Enough, Filled};
ghost use Rattle.crn_symbol_codec.specs.Taking.{refusal_of, Takes, Near};
ghost use Rattle.crn_symbol_codec.specs.Decoders.{Usable, Decodes, short_in, found_in};

use crn_bytes::{eight_bytes, last_bytes};
use crn_format::Refusal;

// The next `have` bits, at the top of `bits`, and the byte after them. Below them stand bits of the segment or 0.
#[derive(Clone, Copy)]
pub struct Cursor {
    pub bits: u64,
    pub have: u64,
    pub next: usize,
}

// The decoder table of a code: its lookup, and its sorted symbols.
#[derive(Clone, Copy)]
pub struct Decoder<'a> {
    pub lookup: &'a [u32],
    pub sorted: &'a [u16],
}

// A symbol or a number, with the cursor after it; or the refusal, 7 or 8.
pub type Taken = Result<(u32, Cursor), Refusal>;

// The refusal of an answer, for the `else` of a `let`; 8 where there is a value.
pub fn refusal(t: Taken) -> Refusal
    ensures { result ≡ refusal_of t }
{
    match t {
        Ok(_) => Refusal::Ended,
        Err(refusal) => refusal,
    }
}

// At the segment's first bit.
pub fn start(seg: &[u8]) -> Cursor
    ensures { Holds seg.now result × (place_of result ≡ 0) }
{
    Cursor {
        bits: 0,
        have: 0,
        next: 0,
    }
}

// The place of the next bit.
pub fn place(seg: &[u8], c: Cursor) -> usize
    requires { (Holds seg.now c) × (length seg.now < too_long) }
    ensures { result ≡ place_of c }
{
    8 * c.next - c.have as usize
}

// A refill where fewer than eight bytes are left.
fn refill_last(seg: &[u8], c: Cursor) -> Cursor
    requires holds { Holds seg.now c }
    requires few_left { length seg.now < c.next + 8 }
    ensures { Filled seg.now c result }
{
    let n = c.next;
    let h = c.have;
    let bits = c.bits | (last_bytes(seg, n) >> h);
    let room = 7 - h / 8;
    let left = seg.len() - n;
    if left < room as usize {
        return Cursor {
            bits,
            have: h + 8 * left as u64,
            next: n + left,
        };
    }
    Cursor {
        bits,
        have: h + 8 * room,
        next: n + room as usize,
    }
}

// 56 bits, or all that are left.
pub fn refill(seg: &[u8], c: Cursor) -> Cursor
    requires { Holds seg.now c }
    ensures { Filled seg.now c result }
{
    let n = c.next;
    let h = c.have;
    if n + 8 <= seg.len() {
        return Cursor {
            bits: c.bits | (eight_bytes(seg, n) >> h),
            have: 56 + h % 8,
            next: n + (7 - h / 8) as usize,
        };
    }
    refill_last(seg, c)
}

// The cursor l bits further on.
fn skip(c: Cursor, l: u64) -> Cursor
    requires { (l ≤ c.have) × (l ≤ 16) }
    ensures { result ≡ past c l }
{
    Cursor {
        bits: c.bits << l,
        have: c.have - l,
        next: c.next,
    }
}

// A number, from a cursor that has 16 bits or all that are left.
fn number_ready(seg: &[u8], c: Cursor, n: u64) -> Taken
    requires holds { Holds seg.now c }
    requires enough { Enough seg.now c 16 }
    requires n_in { n ≤ 16 }
    ensures { Takes seg.now (a_number n) c result }
{
    if c.have < n {
        return Err(Refusal::Ended);
    }
    let v = (c.bits >> 32) >> (32 - n);
    Ok((v as u32, skip(c, n)))
}

// A number of n bits. Bits that are missing are never made up: refusal 8.
pub fn number(seg: &[u8], c: Cursor, n: u64) -> Taken
    requires holds { Holds seg.now c }
    requires n_in { n ≤ 16 }
    ensures { Takes seg.now (a_number n) c result }
{
    if c.have < 16 {
        return number_ready(seg, refill(seg, c), n);
    }
    number_ready(seg, c, n)
}

// A sorted symbol, 0 past the end.
fn symbol(sorted: &[u16], i: usize) -> u32
    ensures { (result ≡ get_or sorted.now i 0) × (result < 65536) }
{
    if sorted.len() <= i {
        return 0;
    }
    sorted[i] as u32
}

// The code that the bits begin with, by the lengths that are not looked up.
fn long_entry(code: Decoder, bits: u64) -> u32
    requires usable { Usable code.lookup.now code.sorted.now }
    requires not_short { short_in code.lookup.now code.sorted.now bits ≡ 0 }
    ensures { result ≡ found_in code.entry.lookup.now code.entry.sorted.now bits }
{
    let longest = code.lookup[1] as u64;
    let window = (bits >> 48) as u32;
    let mut k = code.lookup[0] as u64;
    let mut first = code.lookup[2];
    let mut offset = code.lookup[3];
    while k < longest {
        k += 1;
        let v = window >> (16 - k);
        let n = code.lookup[8 + k as usize];
        if v < first + n {
            return 64 * symbol(code.sorted, (offset + (v - first)) as usize) + k as u32;
        }
        first = 2 * (first + n);
        offset += n;
    }
    0
}

// The code that the bits begin with: 64 times its symbol plus its length, or 0 where they begin with none. Its first bits are looked up;
// a plain number comes back, so that a loop which draws keeps it in a register. The entries are a slice of their own, whose address such a
// loop keeps too.
pub fn entry(code: Decoder, bits: u64) -> u32
    requires { Usable code.lookup.now code.sorted.now }
    ensures { result ≡ found_in code.entry.lookup.now code.entry.sorted.now bits }
{
    let width = code.lookup[0] as u64;
    let i = (bits >> (64 - width)) as usize;
    let entries = &code.lookup[32..];
    let e = entries[i];
    if e == 0 {
        return long_entry(code, bits);
    }
    e
}

// A symbol, from a cursor that has 16 bits or all that are left. Where no code begins them, or one that is longer than what is left,
// the segment may have ended within it.
pub fn draw_ready(code: Decoder, seg: &[u8], c: Cursor) -> Taken
    requires holds { Holds seg.now c }
    requires enough { Enough seg.now c 16 }
    requires usable { Usable code.lookup.now code.sorted.now }
    ensures { ((ls : List ℕ) → Decodes ls code.entry.lookup.now code.entry.sorted.now → Takes seg.now (a_symbol ls) c result) × Near c result }
{
    let e = entry(code, c.bits);
    if e == 0 {
        if c.have < code.lookup[1] as u64 {
            return Err(Refusal::Ended);
        }
        return Err(Refusal::NoSymbol);
    }
    let l = (e % 64) as u64;
    if c.have < l {
        return Err(Refusal::Ended);
    }
    Ok((e / 64, skip(c, l)))
}

// A symbol. Bits that are missing are never made up: 8 where the segment ends first, 7 where its bits begin no code.
pub fn draw(code: Decoder, seg: &[u8], c: Cursor) -> Taken
    requires holds { Holds seg.now c }
    requires usable { Usable code.lookup.now code.sorted.now }
    ensures { (ls : List ℕ) → Decodes ls code.entry.lookup.now code.entry.sorted.now → Takes seg.now (a_symbol ls) c result }
{
    if c.have < 16 {
        return draw_ready(code, seg, refill(seg, c));
    }
    draw_ready(code, seg, c)
}
