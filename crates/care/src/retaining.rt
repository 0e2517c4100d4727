// A file that is to be replaced is copied to FILE.old: whole to a new file, which then takes that name.
use papers::{name_with, replaced_by, system};
use std::fs::File;

// One more piece of a copy: whether it goes on, or the reason why it failed.
fn copied_some(from: &File, mut to: &File) -> Result<bool, i32> {
    let mut piece = [0u8; 65536];
    let n = system::read_some(from, &mut piece)?;
    if n == 0 {
        return Ok(false);
    }
    drawing::write_all(&mut to, &piece[..n])?;
    Ok(true)
}

// The file would be too large, as the system numbers it.
const LARGE_FILE: i32 = 27;

// A copy of all that follows, or the reason why not. It goes on for as long as a file can be.
fn copied(from: &File, to: &File) -> Result<(), i32> {
    for _ in 0..1000000000u64 {
        if !copied_some(from, to)? {
            return Ok(());
        }
    }
    Err(LARGE_FILE)
}

// A copy in a file that is open, which is on disk then, and closed.
fn copied_whole(from: &File, to: File) -> Result<(), i32> {
    let done = copied(from, &to);
    let synced = system::synced(&to);
    done.and(synced)
}

// A copy to a new file, whose name `new` becomes, and which then has the name `old`.
fn copied_to(runtime: HostRuntime, from: &File, new: &mut [u8], old: &[u8]) -> Result<(), i32> {
    let to = system::create_temp(runtime, new)?;
    let written = copied_whole(from, to);
    replaced_by(runtime, new, old, written)
}

// What a file holds stays as FILE.old, or the reason why not.
pub(crate) fn retained(runtime: HostRuntime, file: &[u8]) -> Result<(), i32> {
    let from = system::open_read(runtime, file)?;
    let old = name_with(file, b".old")?;
    let mut new = name_with(file, b".old.XXXXXX")?;
    copied_to(runtime, &from, new.as_mut_slice(), old.as_slice())
}
