// Bytes and little-endian words of four bytes, written.
ghost use Rattle.std.specs.Prelude.{◌≡◌, ◌+◌, ◌*◌, ◌≤◌, length};
ghost use Rattle.std.proofs.lemmas.List.Edits.{sets};
ghost use Rattle.picture.specs.Words.{words_of};

// Bytes as they stand, from `at` on.
pub fn put_bytes(bytes: &[u8], at: usize, dst: &mut [u8])
    requires { at + length bytes.now ≤ length dst.old }
    ensures { dst.new ≡ sets dst.old at bytes.now }
{
    dst[at..at + bytes.len()].copy_from_slice(bytes);
}

// Words one after another, from `at` on.
pub fn put_words(ws: &[u32], at: usize, dst: &mut [u8])
    requires { at + 4 * length ws.now ≤ length dst.old }
    ensures { dst.new ≡ sets dst.old at (words_of ws.now) }
{
    for (i, word) in ws.iter().enumerate() {
        put_bytes(&word.to_le_bytes(), at + 4 * i, dst);
    }
}
