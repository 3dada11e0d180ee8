// Whether a record is what the look finds in a file, in every field (document 02, request 2: "since workers have passed the wrong one").
ghost use Rattle.std.specs.Prelude.{◌≡◌};
ghost use Rattle.crn_format.specs.Loading.{agrees as agrees_with};

use crate::header_look::look;
use crn_format::Header;

// "The load checks again that the record equals what this file's header says": not so where the look refuses the file.
pub fn agrees(header: Header, file: &[u8]) -> bool
    ensures { result ≡ agrees_with header file.now }
{
    match look(file) {
        Ok(found) => header == found,
        Err(_) => false,
    }
}
