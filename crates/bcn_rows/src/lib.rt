// Rows of texels, chosen by selectors and put into a lent buffer.
#![tactic(auto)]

ghost use Rattle.std.specs.Prelude.{◌≡◌, ℕ, ◌+◌, ◌*◌, ◌/◌, ◌%◌, ◌^◌, ◌≤◌, ◌<◌, length};
ghost use Rattle.std.proofs.lemmas.List.Edits.{sets};
ghost use Rattle.crn_format.specs.Grid.{little};
ghost use Rattle.bcn_rows.specs.Rows.{texel_of, row_bytes, Holds, Filled, Addable, Added, chosen};

use crn_blocks::put_eight;

// Four texels from left to right, two in a number.
#[derive(Clone, Copy)]
pub struct Row {
    pub left: u64,
    pub right: u64,
}

// The sixteen texels of a block, row by row.
#[derive(Clone, Copy)]
pub struct Sixteen {
    pub a: Row,
    pub b: Row,
    pub c: Row,
    pub d: Row,
}

// Two texels in one number.
fn two(a: u32, b: u32) -> u64
    ensures { (result % 4294967296 ≡ a) × (result / 4294967296 ≡ b) }
{
    u64::from(a) + 4294967296 * u64::from(b)
}

// The texel that the selector in column i chooses from a table of COUNT.
fn texel_chosen<const COUNT: usize, const BITS: u32>(table: &[u32; COUNT], s: u64, i: u32) -> u32
    requires count { COUNT ≡ 2 ^ BITS }
    requires few { BITS ≤ 3 }
    requires i_in { i < 4 }
    ensures { result ≡ chosen BITS table.now s i }
{
    table[((s >> (BITS * i)) % COUNT as u64) as usize]
}

// The texels that four selectors choose.
fn row_chosen<const COUNT: usize, const BITS: u32>(table: &[u32; COUNT], s: u64) -> Row
    requires count { COUNT ≡ 2 ^ BITS }
    requires few { BITS ≤ 3 }
    ensures { Holds (chosen BITS table.now s) result }
{
    Row {
        left: two(
            texel_chosen::<COUNT, BITS>(table, s, 0),
            texel_chosen::<COUNT, BITS>(table, s, 1),
        ),
        right: two(
            texel_chosen::<COUNT, BITS>(table, s, 2),
            texel_chosen::<COUNT, BITS>(table, s, 3),
        ),
    }
}

// The sixteen texels of a block by its selectors.
fn rows_chosen<const COUNT: usize, const BITS: u32>(table: &[u32; COUNT], s: u64) -> Sixteen
    requires count { COUNT ≡ 2 ^ BITS }
    requires few { BITS ≤ 3 }
    ensures { Filled (chosen BITS table.now s) result }
{
    Sixteen {
        a: row_chosen::<COUNT, BITS>(table, s),
        b: row_chosen::<COUNT, BITS>(table, s >> (4 * BITS)),
        c: row_chosen::<COUNT, BITS>(table, s >> (8 * BITS)),
        d: row_chosen::<COUNT, BITS>(table, s >> (12 * BITS)),
    }
}

// Of colours, by selectors of two bits; of levels, by selectors of three.
pub fn color_rows(colors: &[u32; 4], s: u64) -> Sixteen
    ensures { Filled (chosen 2 colors.now s) result }
{
    rows_chosen::<4, 2>(colors, s)
}

pub fn level_rows(levels: &[u32; 8], s: u64) -> Sixteen
    ensures { Filled (chosen 3 levels.now s) result }
{
    rows_chosen::<8, 3>(levels, s)
}

// Each texel and the other block's in its place: channels of which one or the other is 0.
fn added(v: Row, w: Row) -> Row
    requires { (i : ℕ) → i < 4 → texel_of v i + texel_of w i < 4294967296 }
    ensures { Holds (λ i. texel_of v i + texel_of w i) result }
{
    Row {
        left: v.left + w.left,
        right: v.right + w.right,
    }
}

pub fn added_rows(v: Sixteen, w: Sixteen) -> Sixteen
    requires { Addable v w }
    ensures { Added v w result }
{
    Sixteen {
        a: added(v.a, w.a),
        b: added(v.b, w.b),
        c: added(v.c, w.c),
        d: added(v.d, w.d),
    }
}

// A texel's four bytes, the lowest first.
fn put_four(dst: &mut [u8], at: usize, v: u32)
    requires { at + 4 ≤ length dst.old }
    ensures { dst.new ≡ sets dst.old at (little 4 v) }
{
    dst[at..at + 4].copy_from_slice(&v.to_le_bytes());
}

// The texel in column i.
fn texel(r: Row, i: usize) -> u32
    ensures { result ≡ texel_of r i }
{
    let texel = match i {
        0 => r.left % 4294967296,
        1 => r.left / 4294967296,
        2 => r.right % 4294967296,
        _ => r.right / 4294967296,
    };
    texel as u32
}

// The first one, two or three texels of a row. Each by its number: in a loop over them the compiler would keep all of a block's texels at
// hand, for whole blocks too.
fn put_part(dst: &mut [u8], at: usize, r: Row, n: usize)
    requires n_in { n < 4 }
    requires room { at + 4 * n ≤ length dst.old }
    ensures { dst.new ≡ sets dst.old at (row_bytes r n) }
{
    if n == 0 {
        return;
    }
    put_four(dst, at, texel(r, 0));
    if n == 1 {
        return;
    }
    put_four(dst, at + 4, texel(r, 1));
    if n == 2 {
        return;
    }
    put_four(dst, at + 8, texel(r, 2));
}

// The first n texels of a row: two stores, where it is whole.
pub fn put_row(dst: &mut [u8], at: usize, r: Row, n: usize)
    requires n_in { n ≤ 4 }
    requires room { at + 4 * n ≤ length dst.old }
    ensures { dst.new ≡ sets dst.old at (row_bytes r n) }
{
    if n == 4 {
        put_eight(dst, at, r.left);
        put_eight(dst, at + 8, r.right);
        return;
    }
    put_part(dst, at, r, n);
}
