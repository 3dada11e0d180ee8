// A draw and a number for the loops over many of them.
#![tactic(auto)]

ghost use Rattle.std.specs.Prelude.{◌≡◌, List, ℕ, ◌≤◌};
ghost use Rattle.crn_format.specs.Reading.{a_symbol, a_number};
ghost use Rattle.crn_symbol_codec.specs.Cursors.{place, Holds};
ghost use Rattle.crn_symbol_codec.specs.Decoders.{Usable, Decodes};
ghost use Rattle.crn_symbol_codec.specs.Taking.{Takes};

use crn_symbol_codec::{Cursor, Decoder, Taken, refill};

mod filling;

pub use filling::filled;

// The compiler takes a function into its callers up to a certain length. These are short enough one by one, so that the cursor stays in
// registers; what is rare is left to the functions of `crn_symbol_codec`.

// The cursor with 16 bits and more, but near the segment's end.
pub fn ready(seg: &[u8], c: Cursor) -> Cursor
    requires { Holds seg.now c }
    ensures { Holds seg.now result × (place result ≡ place c) }
{
    if c.have < 16 {
        if c.next + 8 <= seg.len() {
            return refill(seg, c);
        }
    }
    c
}

// A symbol, as `crn_symbol_codec::draw` answers. It is looked up where the cursor is ready and the code short enough; else the cursor is
// handed on part by part, so that a loop need not keep it in memory.
#[inline(always)]
pub fn draw(code: Decoder, seg: &[u8], c: Cursor) -> Taken
    requires holds { Holds seg.now c }
    requires usable { Usable code.lookup.now code.sorted.now }
    ensures { (ls : List ℕ) → Decodes ls code.entry.lookup.now code.entry.sorted.now → Takes seg.now (a_symbol ls) c result }
{
    if c.have < 16 {
        return crn_symbol_codec::draw(
            code,
            seg,
            Cursor {
                bits: c.bits,
                have: c.have,
                next: c.next,
            },
        );
    }
    let width = code.lookup[0] as u64;
    let i = (c.bits >> (64 - width)) as usize;
    let entries = &code.lookup[32..];
    let e = entries[i];
    if e == 0 {
        return crn_symbol_codec::draw(
            code,
            seg,
            Cursor {
                bits: c.bits,
                have: c.have,
                next: c.next,
            },
        );
    }
    let l = (e % 64) as u64;
    let bits = c.bits << l;
    let have = c.have - l;
    Ok((
        e / 64,
        Cursor {
            bits,
            have,
            next: c.next,
        },
    ))
}

// A number of n bits, as `crn_symbol_codec::number` answers.
pub fn number(seg: &[u8], c: Cursor, n: u64) -> Taken
    requires holds { Holds seg.now c }
    requires n_in { n ≤ 16 }
    ensures { Takes seg.now (a_number n) c result }
{
    if c.have < 16 {
        return crn_symbol_codec::number(
            seg,
            Cursor {
                bits: c.bits,
                have: c.have,
                next: c.next,
            },
            n,
        );
    }
    let v = (c.bits >> 32) >> (32 - n);
    let bits = c.bits << n;
    let have = c.have - n;
    Ok((
        v as u32,
        Cursor {
            bits,
            have,
            next: c.next,
        },
    ))
}
