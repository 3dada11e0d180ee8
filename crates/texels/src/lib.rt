// The texels of a face's blocks, into a lent buffer, with the refusals in their order: 2, 18, 28, 12, each of which leaves the buffer as it
// was.
#![tactic(auto)]

ghost use Rattle.std.specs.Prelude.{◌≡◌};
ghost use Rattle.crn_format.specs.Choice.{both};
ghost use Rattle.crn_format.specs.Header.{known};
ghost use Rattle.crn_format.specs.Refusals.{number_in};
ghost use Rattle.bcn_format.specs.Picture.{side, refusal};
ghost use Rattle.texels.specs.Answers.{Answered};

use bcn_format::Face;
use crn_format::{Kind, Refusal};
use crn_formats::MAX_SIDE;
use faces::face;

mod faces; // a face's blocks, put in their places

fn good_side(n: usize) -> bool
    ensures { result ≡ side n }
{
    (1 <= n) & (n <= MAX_SIDE as usize)
}

fn in_limits(kind: Kind, s: Face) -> bool
    ensures { result ≡ both (known kind) (both (side s.width) (side s.height)) }
{
    kind.is_known() & (good_side(s.width) & good_side(s.height))
}

// The refusal that is due. The room is tested by a division, so that no product can overflow.
fn check(format: u32, s: Face, given: usize, room: usize) -> Result<(), Refusal>
    ensures { number_in result ≡ refusal format s given room }
{
    let kind = Kind::from(format);
    if !in_limits(kind, s) {
        return Err(Refusal::BeyondLimits);
    }
    if s.pitch < 4 * s.width {
        return Err(Refusal::ShortPitch);
    }
    if given < kind.block_bytes() as usize * (((s.width + 3) / 4) * ((s.height + 3) / 4)) {
        return Err(Refusal::FewBlocks);
    }
    if room < 4 * s.width {
        return Err(Refusal::NoRoom);
    }
    if (room - 4 * s.width) / s.pitch < s.height - 1 {
        return Err(Refusal::NoRoom);
    }
    Ok(())
}

// The texels of one face's tightly packed blocks, four bytes each: red, green, blue, alpha. Rows are a pitch apart, and what lies beyond
// the face's size is left out.
pub fn texels(format: u32, s: Face, blocks: &[u8], dst: &mut [u8]) -> Result<(), Refusal>
    ensures { Answered format s blocks.now dst.old (number_in result) dst.new }
{
    check(format, s, blocks.len(), dst.len())?;
    face(Kind::from(format), dst, blocks, s);
    Ok(())
}
