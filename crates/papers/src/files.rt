// A state with its tally and its names in a file: save and open.
use super::sums::sum_of;
use super::writing::forget;
use super::{Clerk, Desk, Filed, Said, first, sealed, system};
use arrayvec::ArrayVec;
use drawing::Out;
use machine::State;
use plan::table::LENGTH;
use std::fs::File;
use store::Kept;

// Why a call of the system failed.
fn put_reason(out: &mut Out, errno: i32) {
    match errno {
        1 | 13 => out.put(b"permission denied"),
        2 => out.put(b"no such file or folder"),
        5 => out.put(b"the device fails"),
        16 | 26 => out.put(b"it is in use"),
        20 => out.put(b"a part of the name is no folder"),
        21 => out.put(b"it is a folder"),
        22 => out.put(b"no such name can be"),
        27 => out.put(b"the file would be too large"),
        28 | 122 => out.put(b"no room is left"),
        30 => out.put(b"nothing can be written there"),
        36 => out.put(b"the name is too long"),
        _ => out.put(b"the system refuses it"),
    }
}

// A command that failed: `error LINE cannot WORD: REASON`.
pub fn put_failed(out: &mut Out, line: u64, word: &[u8], errno: i32) {
    out.put(b"error");
    out.put_next(line);
    out.put(b" cannot ");
    out.put(word);
    out.put(b": ");
    put_reason(out, errno);
    out.put_byte(b'\n');
}

// The name of a file with an ending behind it; or the reason, where it is too long.
pub fn name_with(file: &[u8], ending: &[u8]) -> Result<ArrayVec<u8, 4095>, i32> {
    let mut name = ArrayVec::new();
    let whole = name.try_extend_from_slice(file).is_ok()
        && name.try_extend_from_slice(ending).is_ok();
    if whole {
        Ok(name)
    } else {
        Err(system::LONG_NAME)
    }
}

// All of a state is written, and is on disk, and the file is closed; or the reason why not.
fn written_whole(file: File, packed: &[u8]) -> Result<(), i32> {
    system::written(&file, packed)
}

// A new file, which was written whole or for a reason was not, takes the name of the old one; or it is gone, for the reason why not.
pub fn replaced_by(
    runtime: HostRuntime,
    new: &[u8],
    file: &[u8],
    written: Result<(), i32>,
) -> Result<(), i32> {
    let done = match written {
        Ok(()) => system::rename(runtime, new, file),
        Err(reason) => Err(reason),
    };
    if done.is_err() {
        system::unlink(runtime, new);
    }
    done
}

// A state is written to a new file, whose name `new` becomes; that file then takes the name of the old one. Or the reason why not.
fn replaced(runtime: HostRuntime, new: &mut [u8], file: &[u8], packed: &[u8]) -> Result<(), i32> {
    let made = system::create_temp(runtime, new)?;
    let written = written_whole(made, packed);
    replaced_by(runtime, new, file, written)
}

// The folder of a file, opened.
fn opened_folder(runtime: HostRuntime, file: &[u8]) -> Result<File, i32> {
    match file.iter().rposition(|b| *b == b'/') {
        Some(slash) => system::open_read(runtime, &file[..=slash]),
        None => system::open_read(runtime, b"."),
    }
}

// The folder of a file is on disk too, where the system can do that, so that the new name is.
fn folder_kept(runtime: HostRuntime, file: &[u8]) {
    if let Ok(folder) = opened_folder(runtime, file) {
        let _ = system::synced(&folder);
    }
}

// Saves a state by the name of its file, or tells why not.
fn saved(runtime: HostRuntime, file: &[u8], packed: &[u8]) -> Result<(), i32> {
    let mut new = name_with(file, b".XXXXXX")?;
    replaced(runtime, new.as_mut_slice(), file, packed)?;
    folder_kept(runtime, file);
    Ok(())
}

// What a save or an open comes to.
fn told(clerk: &mut Clerk, number: u64, word: &[u8], done: Result<(), i32>) {
    match done {
        Ok(()) => clerk.out.put_refusal(word, 0),
        Err(reason) => {
            put_failed(&mut clerk.out, number, word, reason);
            clerk.desk.fail();
        }
    }
}

// A desk whose state is in a file, if it is, by the sums of its name and of what it holds.
fn filed(clerk: &mut Clerk, name: u64, held: u64) {
    if clerk.desk.said == Said::Well {
        clerk.desk.unsaved = false;
        clerk.desk.filed = Some(Filed { name, held });
    }
}

// The bytes of a file that the desk saves.
fn put_desk(desk: &Desk, file: &mut [u8; 29660]) {
    let mut packed = [0u8; 12748];
    store::pack(desk.state, desk.tally, &mut packed);
    sealed::put_file(file, &packed, &desk.names);
}

// Saves the state, the tally and the names.
pub fn save(clerk: &mut Clerk, file: &[u8], number: u64) {
    // what was answered before is written first: where it cannot be, nothing is made lasting
    clerk.out.flush();
    if clerk.out.is_lost() {
        return;
    }
    let mut bytes = [0u8; 29660];
    put_desk(&clerk.desk, &mut bytes);
    let done = saved(clerk.out.runtime(), file, &bytes);
    told(clerk, number, b"save", done);
    filed(clerk, sum_of(file), sum_of(&bytes));
}

// Why nothing was read, where nothing was; a file in which nothing stands can be read.
fn readable(opened: &File, n: usize) -> Result<(), i32> {
    if n == 0 {
        let mut one = [0u8; 1];
        system::read_some(opened, &mut one)?;
    }
    Ok(())
}

// Whether the desk could have saved a state: it has a plan, or it has none and numbers within their limits.
fn is_sound(state: State) -> bool {
    let mut table = [0u32; LENGTH];
    let mut flags = [0u8; 16];
    machine::limits::planned(state, &mut table, &mut flags).is_ok()
        || state.length == 0 && machine::limits::state_ruled(state)
}

// A plan becomes the last plan.
pub(crate) fn copied(plan: &[u8; 4096], bytes: &mut [u8; 8000]) {
    bytes[..4096].copy_from_slice(plan);
}

// What was read is nothing that was saved.
fn put_foreign(clerk: &mut Clerk, number: u64) {
    clerk.error(number, b"cannot open: it holds no saved state");
}

// The desk goes on with a state that was kept. Its plan is the last plan, and the names stay where it is that of the state before.
fn taken(clerk: &mut Clerk, kept: Kept, number: u64) {
    if kept.refused || !is_sound(kept.state) {
        put_foreign(clerk, number);
        return;
    }
    let before = clerk.desk.state;
    copied(&kept.state.plan, &mut clerk.desk.bytes);
    clerk.desk.plan = kept.state.length;
    clerk.desk.change(kept.state, kept.tally);
    clerk.out.put_refusal(b"open", 0);
    forget(
        before,
        &clerk.desk.bytes,
        clerk.desk.plan,
        &mut clerk.desk.names,
    );
}

// The state that bytes hold, of whatever version.
fn kept_in(bytes: &[u8]) -> Kept {
    let mut packed = [0u8; 12748];
    boundary_state::moonhalyard_upgrade(bytes, &mut packed);
    store::unpack(&packed)
}

// The state that bytes begin with, of whatever version.
pub fn kept_front(bytes: &[u8]) -> Kept {
    kept_in(first(bytes, sealed::state_size(bytes)))
}

// What the bytes of a file come to: a file of the desk's own, with names; a state as hosts save it, which has none; or nothing that was saved.
fn taken_from(clerk: &mut Clerk, file: &[u8], number: u64) {
    if sealed::is_sealed(file) {
        taken(clerk, kept_front(file), number);
        if clerk.desk.said == Said::Well {
            sealed::take_names(file, &mut clerk.desk.names);
        }
        return;
    }
    let kept = kept_in(file);
    if kept.refused && sealed::begins_as_state(file) {
        clerk.error(
            number,
            b"cannot open: it was cut or changed since it was saved",
        );
    } else {
        taken(clerk, kept, number);
    }
}

// What a file that was opened holds becomes the state, the tally and the names; `file` is the sum of its name.
fn read(clerk: &mut Clerk, opened: File, file: u64, number: u64) {
    let mut held = [0u8; sealed::READ];
    let n = system::read_full(&opened, &mut held);
    if let Err(reason) = readable(&opened, n) {
        return told(clerk, number, b"open", Err(reason));
    }
    let seen = sum_of(&held[..n]);
    taken_from(clerk, &held[..n], number);
    filed(clerk, file, seen);
}

// Opens a file that was saved.
pub fn open(clerk: &mut Clerk, file: &[u8], number: u64) {
    match system::open_read(clerk.out.runtime(), file) {
        Ok(opened) => read(clerk, opened, sum_of(file), number),
        Err(reason) => told(clerk, number, b"open", Err(reason)),
    }
}
