// Values copied into a lent slice from a place on. What has no room there is not written.
#![tactic(auto)]

ghost use Rattle.std.specs.Prelude.{◌+◌, ◌≡◌, leb};
ghost use Rattle.copies.specs.Copies.{pasted};

// So many values have room from a place on; no sum is made that could wrap.
fn has_room(room: usize, at: usize, count: usize) -> bool
    ensures { result ≡ leb (at + count) room }
{
    at <= room && count <= room - at
}

// One by one: C's `memmove`, by which the library copies a slice, is none that an archive for C may need.
pub fn put<T: Copy>(out: &mut [T], at: usize, new: &[T])
    ensures { out.new ≡ pasted out.old at new.now }
{
    if !has_room(out.len(), at, new.len()) {
        return;
    }
    for i in 0..new.len() {
        out[at + i] = new[i];
    }
}
