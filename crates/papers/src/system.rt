// Files by their names, as the system has them. A name is bytes: of at most 4,095, none of them 0. The runtime takes only names that are text in UTF-8; any
// other is none that it could open.
ghost use Rattle.std.specs.Prelude.{◌≤◌, length, IfOk};

use drawing::{failure, write_all};
use std::fs;
use std::fs::{File, OpenOptions};
use std::io::Read;
use std::os::unix::fs::OpenOptionsExt;
use std::random::RandomSource;
use std::rt::Files;

// The reasons that are told apart here, as the system numbers them: no access, there is one already, it is a folder, no such name can be, and the name is
// too long.
pub const DENIED: i32 = 13;

const THERE: i32 = 17;

pub const FOLDER: i32 = 21;

const NO_NAME: i32 = 22;

pub const LONG_NAME: i32 = 36;

// A name as the runtime takes it, or why it takes it not.
fn named(name: &[u8]) -> Result<&str, i32> {
    if 4095 < name.len() {
        return Err(LONG_NAME);
    }
    if name.contains(&0) {
        return Err(NO_NAME);
    }
    str::from_utf8(name).map_err(|_| NO_NAME)
}

fn opened_by(options: &OpenOptions, runtime: HostRuntime, name: &[u8]) -> Result<File, i32> {
    options.open(&runtime, named(name)?).map_err(failure)
}

// Opens a file to read it.
pub fn open_read(runtime: HostRuntime, name: &[u8]) -> Result<File, i32> {
    let mut options = OpenOptions::new();
    options.read(true);
    opened_by(&options, runtime, name)
}

// Opens a file to read and to write it, and leaves what it holds.
pub fn open_update(runtime: HostRuntime, name: &[u8]) -> Result<File, i32> {
    let mut options = OpenOptions::new();
    options.read(true).write(true);
    opened_by(&options, runtime, name)
}

// Makes a file that none but its owner reads and writes, where there is none of this name.
fn open_new(runtime: HostRuntime, name: &[u8]) -> Result<File, i32> {
    let mut options = OpenOptions::new();
    options.read(true).write(true).create_new(true).mode(0o600);
    opened_by(&options, runtime, name)
}

// A letter or a figure, of which there are 62.
fn letter(number: u64) -> u8 {
    match (number % 62) as u8 {
        left @ 0..=9 => b'0' + left,
        left @ 10..=35 => b'A' - 10 + left,
        left => b'a' - 36 + left,
    }
}

// The last six places of a name have the letters of a number.
fn put_letters(name: &mut [u8], number: u64) {
    let mut left = number;
    for place in name.iter_mut().rev().take(6) {
        *place = letter(left);
        left /= 62;
    }
}

// A number that no one foresees; 0 where the system has none.
fn any_number(runtime: HostRuntime) -> u64 {
    let mut bytes = [0u8; 8];
    match runtime.fill_bytes(&mut bytes) {
        Ok(()) => u64::from_le_bytes(bytes),
        Err(_) => 0,
    }
}

// Makes a new file: the last six places of `name` become letters and figures such that nothing has that name.
pub fn create_temp(runtime: HostRuntime, name: &mut [u8]) -> Result<File, i32> {
    let mut number = any_number(runtime);
    for _ in 0..238328 {
        put_letters(name, number);
        match open_new(runtime, name) {
            Ok(file) => return Ok(file),
            Err(THERE) => number = number.wrapping_add(7777),
            Err(reason) => return Err(reason),
        }
    }
    Err(THERE)
}

// A file takes another name, and one that had it loses it; or the reason why not.
pub fn rename(runtime: HostRuntime, from: &[u8], to: &[u8]) -> Result<(), i32> {
    let old = named(from)?;
    let new = named(to)?;
    fs::rename(&runtime, old, new).map_err(failure)
}

// A file loses its name, where it can.
pub fn unlink(runtime: HostRuntime, name: &[u8]) {
    if let Ok(text) = named(name) {
        let _ = fs::remove_file(&runtime, text);
    }
}

// The place of the first 0 of a name; its end where there is none.
fn end_of(name: &[u8]) -> usize
    ensures { result ≤ length name.now }
{
    name.iter().position(|b| *b == 0).unwrap_or(name.len())
}

// Whether a name, as far as its first 0, is that of a link that can be read. Where the system gave what the link holds and the runtime cannot hold it, as
// where it is no text, there is no number of the system's.
pub fn is_link(runtime: HostRuntime, name: &[u8]) -> bool {
    let end = end_of(name);
    match named(&name[..end]) {
        Ok(text) => match runtime.read_link(runtime.alloc(), text) {
            Ok(_) => true,
            Err(e) => e.raw_os_error().is_none(),
        },
        Err(_) => false,
    }
}

// All of some bytes are written to a file, and it is on disk; or the reason why not.
pub fn written(file: &File, bytes: &[u8]) -> Result<(), i32> {
    let mut to = file;
    write_all(&mut to, bytes)?;
    synced(file)
}

// A file is on disk, or the reason why not.
pub fn synced(file: &File) -> Result<(), i32> {
    file.sync_all().map_err(failure)
}

// Reads once: how many bytes, or why not.
pub fn read_some(file: &File, bytes: &mut [u8]) -> Result<usize, i32>
    ensures { IfOk result (λ n. n ≤ length bytes.new) }
{
    let mut from = file;
    from.read(bytes).map_err(failure)
}

// Reads until the bytes are full, the file ends or a read fails: how many bytes.
// Stays: (d) a `while`, since how far one read comes is not known before it.
pub fn read_full(file: &File, bytes: &mut [u8]) -> usize
    ensures { result ≤ length bytes.new }
{
    let mut done = 0;
    while done < bytes.len() {
        match read_some(file, &mut bytes[done..]) {
            Ok(0) | Err(_) => return done,
            Ok(n) => done += n,
        }
    }
    done
}
