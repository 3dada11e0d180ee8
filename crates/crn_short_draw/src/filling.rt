ghost use Rattle.crn_symbol_codec.specs.Cursors.{Holds};
ghost use Rattle.crn_short_draw.specs.Filling.{Sixteen};

use crn_symbol_codec::{Cursor, refill};

// The cursor with 16 bits, or all that are left.
pub fn filled(seg: &[u8], c: Cursor) -> Cursor
    requires { Holds seg.now c }
    ensures { Sixteen seg.now c result }
{
    if c.have < 16 {
        return refill(seg, c);
    }
    c
}
