// A level's chunks, row by row and face by face, into a lent destination.
#![tactic(auto)]

ghost use Rattle.std.specs.Prelude.{◌<◌, length};
ghost use Rattle.crn_format.specs.Grid.{chunk_count};
ghost use Rattle.crn_symbol_codec.specs.Cursors.{Holds};
ghost use Rattle.crn_unpacker.specs.Going.{given_in, Fit, Goes, none};

use crate::rows::face_rows;
use crn_chunks::{Carried, Stop, Stream, Supply};
use crn_format::Grid;
use crn_formats::Palettes;

mod rows;

// What a level is painted from, and its grid.
#[derive(Clone, Copy)]
pub struct Level<'a> {
    pub supply: Supply<'a>,
    pub palettes: Palettes<'a>,
    pub grid: Grid,
}

// How going over chunks ended: what is carried on, with the stream; or the refusal.
pub type Went = Result<(Carried, Stream), Stop>;

// Every face, each starting left to right, with nothing pending and every index 0 at the first.
pub fn paint(dst: &mut [u8], level: &Level, s: Stream) -> Went
    requires fit { Fit (given_in level.now) (length dst.old) }
    requires holds { Holds level.now.supply.seg.now s.cursor }
    ensures { Goes (given_in level.now) 0 (chunk_count level.now.grid) none s dst.old dst.new result }
{
    let mut out = [0u64; 16];
    let mut n = Carried {
        pending: 0,
        e0: 0,
        e1: 0,
        s0: 0,
        s1: 0,
    };
    let mut t = s;
    for face in 0..level.grid.faces {
        let (m, u) = face_rows(dst, &mut out, level, n, t, face)?;
        n = m;
        t = u;
    }
    Ok((n, t))
}
