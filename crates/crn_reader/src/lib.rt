// The bit reader "keeps the segment it reads and its place" (document 01, Codes). Each of its methods leaves the work to crn_symbol_codec's
// function on the segment and the cursor.
#![tactic(auto)]

ghost use Rattle.std.specs.Prelude.{◌≡◌, List, ℕ, ◌<◌, ◌≤◌, length};
ghost use Rattle.crn_format.specs.Limits.{too_long};
ghost use Rattle.crn_format.specs.Reading.{a_symbol, a_number, start, run, from_bits};
ghost use Rattle.crn_symbol_codec.specs.Cursors.{place as place_of, Holds};
ghost use Rattle.crn_symbol_codec.specs.Taking.{Takes};
ghost use Rattle.crn_symbol_codec.specs.Decoders.{Usable, Decodes, SomeCode};
ghost use Rattle.crn_reader.specs.Moving.{cursor_after, moved_by};
ghost use Rattle.crn_reader.specs.Pairs.{pair, step_of, fault_at};

use crn_format::{Fault, Refusal};
use crn_symbol_codec::{Cursor, Decoder, Taken};

#[derive(Clone, Copy)]
pub struct Reader<'a> {
    pub seg: &'a [u8],
    pub cursor: Cursor,
}

// The cursor after an answer; the same where it is a refusal.
fn cursor_after(c: Cursor, taken: Taken) -> Cursor
    ensures { result ≡ cursor_after c taken }
{
    match taken {
        Ok((_, after)) => after,
        Err(_) => c,
    }
}

impl<'a> Reader<'a> {
    // At the segment's first bit.
    pub fn make(seg: &'a [u8]) -> Reader<'a>
        ensures { (result.seg ≡ seg.entry) × Holds seg.now result.cursor × (place_of result.cursor ≡ 0) }
    {
        Reader {
            seg,
            cursor: crn_symbol_codec::start(seg),
        }
    }

    // The place of the next bit.
    pub fn place(self) -> usize
        requires { Holds self.seg.now self.cursor × (length self.seg.now < too_long) }
        ensures { result ≡ place_of self.entry.cursor }
    {
        crn_symbol_codec::place(self.seg, self.cursor)
    }

    // A refusal that names the next bit.
    fn fault(self, refusal: Refusal) -> Fault
        requires { Holds self.seg.now self.cursor × (length self.seg.now < too_long) }
        ensures { result ≡ fault_at refusal (place_of self.entry.cursor) }
    {
        Fault {
            refusal,
            at: self.place(),
        }
    }

    // A number of n bits. The reader moves on behind it, and stays where it is where the number is refused.
    pub fn number(&mut self, n: u64) -> Taken
        requires { Holds self.old.seg.now self.old.cursor × (n ≤ 16) }
        ensures { Takes self.old.seg.now (a_number n) self.old.cursor result × (self.new ≡ moved_by self.old result) }
    {
        let taken = crn_symbol_codec::number(self.seg, self.cursor, n);
        self.cursor = cursor_after(self.cursor, taken);
        taken
    }

    // A symbol of the table's code, in the same way.
    pub fn draw(&mut self, code: Decoder) -> Taken
        requires { Holds self.old.seg.now self.old.cursor × Usable code.lookup.now code.sorted.now }
        ensures { ((ls : List ℕ) → Decodes ls code.entry.lookup.now code.entry.sorted.now → Takes self.old.seg.now (a_symbol ls) self.old.cursor result) × (self.new ≡ moved_by self.old result) }
    {
        let taken = crn_symbol_codec::draw(code, self.seg, self.cursor);
        self.cursor = cursor_after(self.cursor, taken);
        taken
    }
}

// A number and a symbol, with the place after them.
#[derive(Clone, Copy)]
pub struct Pair {
    pub number: u32,
    pub symbol: u32,
    pub at: usize,
}

// A number of n bits and then a symbol, from the segment's first bit.
pub fn read_pair(code: Decoder, seg: &[u8], n: u64) -> Result<Pair, Fault>
    requires { SomeCode code.lookup.now code.sorted.now × (length seg.now < too_long) × (n ≤ 16) }
    ensures { (ls : List ℕ) → Decodes ls code.entry.lookup.now code.entry.sorted.now → step_of result ≡ run (from_bits seg.now) (pair n ls) start }
{
    let mut reader = Reader::make(seg);
    let (number, _) = match reader.number(n) {
        Ok(taken) => taken,
        Err(refusal) => return Err(reader.fault(refusal)),
    };
    let (symbol, _) = match reader.draw(code) {
        Ok(taken) => taken,
        Err(refusal) => return Err(reader.fault(refusal)),
    };
    Ok(Pair {
        number,
        symbol,
        at: reader.place(),
    })
}
