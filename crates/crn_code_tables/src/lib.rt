// A code table received from a segment.
#![tactic(auto)]

ghost use Rattle.std.specs.Prelude.{◌≡◌, ◌<◌, length, replicate};
ghost use Rattle.crn_format.specs.Limits.{max_symbols, too_long};
ghost use Rattle.crn_symbol_codec.specs.Cursors.{Holds};
ghost use Rattle.crn_code_tables.specs.Receiving.{Receives};

use crn_format::Fault;
use crn_symbol_codec::Cursor;

mod parts;

// How many symbols a table has, and the cursor after it; or the refusal and the bit that it names.
pub type Received = Result<(u32, Cursor), Fault>;

// A code table as it is sent (document 01, Codes), into lengths that are all zero; after a refusal they are so again.
pub fn receive(seg: &[u8], c: Cursor, lengths: &mut [u8; 8192]) -> Received
    requires holds { Holds seg.now c }
    requires seg_long { length seg.now < too_long }
    requires lengths_zero { lengths.old ≡ replicate max_symbols 0 }
    ensures { Receives seg.now c result lengths.new }
{
    let received = parts::sent_table(seg, c, lengths);
    if received.is_err() {
        lengths.fill(0);
    }
    received
}
