// The header look (document 02, request 2): refusal 1, 2 or 3, or the header.
ghost use Rattle.std.specs.Prelude.{◌≡◌};
ghost use Rattle.crn_format.specs.Look.{looked, look_at, look_of};

use crn_bounds::{sizes_hold, within_limits};
use crn_format::{Header, Refusal};
use crn_header::{header_of, is_signed};

// "Opening: 1, 2, 3": in this order, without the streams, of a file of so many bytes that begins with these. The first 122 are enough.
pub fn look_at(head: &[u8], length: usize) -> Result<Header, Refusal>
    ensures { looked result ≡ look_at head.now length }
{
    if !is_signed(head, length) {
        return Err(Refusal::NotSigned);
    }
    let header = header_of(head);
    if !within_limits(header) {
        return Err(Refusal::BeyondLimits);
    }
    if !sizes_hold(length, header) {
        return Err(Refusal::WrongSizes);
    }
    Ok(header)
}

// The same of a whole file.
pub fn look(file: &[u8]) -> Result<Header, Refusal>
    ensures { looked result ≡ look_of file.now }
{
    look_at(file, file.len())
}
