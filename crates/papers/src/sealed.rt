// A saved file as bytes: the state with its tally (12,748), the names (16,896), the version of the file, MOONDSK4 (8), and the seal of all before it (8). A file of the
// third version, MOONDSK3, has a state of 12,492 bytes; one of the second, MOONDSK2, the same, no names of scopes and faults, and 4,752 bytes of names; one of the first,
// MOONDSK1, those names and a state of 12,476 bytes.

ghost use Rattle.std.specs.Prelude.{◌≤◌};

// How many bytes are read of a file: one more than a saved one has, so that a longer one is known.
pub const READ: usize = 29661;

// The file of a packed state and the names.
pub(crate) fn put_file(file: &mut [u8; 29660], packed: &[u8; 12748], names: &[u8; 16896]) {
    file[..12748].copy_from_slice(packed);
    file[12748..29644].copy_from_slice(names);
    file[29644..29652].copy_from_slice(b"MOONDSK4");
    let seal = seal::seal(&file[..29652]);
    file[29652..].copy_from_slice(&seal.to_le_bytes());
}

// Whether bytes are a file of this size that a desk of this version saved, whole and unchanged: the version stands behind the names, and then the seal.
fn is_whole(file: &[u8], size: usize, version: &[u8]) -> bool
    requires { 8 ≤ size }
{
    if file.len() != size {
        return false;
    }
    let (before, end) = file.split_at(size - 8);
    before.ends_with(version) && end == &seal::seal(before).to_le_bytes()[..]
}

// Whether bytes are a file that a desk saved, whole and unchanged.
pub(crate) fn is_sealed(file: &[u8]) -> bool {
    is_whole(file, 29660, b"MOONDSK4")
        || is_whole(file, 29404, b"MOONDSK3")
        || is_whole(file, 17260, b"MOONDSK2")
        || is_whole(file, 17244, b"MOONDSK1")
}

// Whether bytes begin as a saved state of any version does: then, where they are none, they were cut or changed.
pub(crate) fn begins_as_state(file: &[u8]) -> bool {
    file.starts_with(b"MOONHAL")
}

// How many bytes the state has that bytes begin with, by the last figure of its mark.
pub(crate) fn state_size(bytes: &[u8]) -> usize {
    match bytes.get(7) {
        None => 0,
        Some(b'1') => 11964,
        Some(b'2') => 12476,
        Some(b'3') => 12492,
        Some(_) => 12748,
    }
}

// Where the names start in a file of this size.
fn names_start(size: usize) -> usize {
    match size {
        17244 => 12476,
        0..29660 => 12492,
        _ => 12748,
    }
}

// The names that a file has, behind which are its version and its seal; older files have fewer.
pub(crate) fn take_names(file: &[u8], names: &mut [u8; 16896]) {
    let end = file.len().saturating_sub(16);
    let held = file.get(names_start(file.len())..end).unwrap_or(b"");
    names.fill(0);
    for (place, b) in names.iter_mut().zip(held) {
        *place = *b;
    }
}
