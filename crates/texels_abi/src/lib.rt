// The texels of a face's blocks, for C and Rust, which `crunch_abi_c` exports: a library by itself, so that a change of it does not prove
// those of `crunch_abi` anew.
#![tactic(auto)]

ghost use Rattle.texels.specs.Answers.{Answered};

use bcn_format::Face;

// Refusal 2, 18, 28 or 12, with nothing touched; or 0, with four bytes for each pixel, red, green, blue and alpha, in their places.
pub fn crunch_texels(format: u32, face: Face, blocks: &[u8], rgba: &mut [u8]) -> u32
    ensures { Answered format face blocks.now rgba.old result rgba.new }
{
    match texels::texels(format, face, blocks, rgba) {
        Ok(()) => 0,
        Err(refusal) => refusal.into(),
    }
}
