// Which formats go out, and how many bytes a face has.
ghost use Rattle.std.specs.Prelude.{◌≡◌, true};
ghost use Rattle.crn_format.specs.Header.{within_limits};
ghost use Rattle.picture.specs.Kinds.{goes_out};
ghost use Rattle.picture.specs.Surfaces.{picture_of, chain};

use crn_format::Header;
use crn_sizes::level_sizes;

// "Formats 0, 2, 7 and 9 go out" (request 1).
#[tactic(auto, unfolding(crn_format::specs::Header::kind_of))]
pub fn goes_out(format: u32) -> bool
    ensures { result ≡ goes_out format }
{
    matches!(format, 0 | 2 | 7 | 9)
}

// The bytes of all levels of one face.
pub fn chain_bytes(h: Header) -> usize
    requires { within_limits h ≡ true }
    ensures { result ≡ chain (picture_of h) }
{
    let mut sum = 0;
    for level in 0..h.levels {
        sum += level_sizes(h, level).distance;
    }
    sum
}
