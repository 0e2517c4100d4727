// What has the name of a file.
use papers::system;
use papers::system::{DENIED, FOLDER};
use std::fs::File;
use std::io::{Seek, SeekFrom};

// Nothing, or what cannot be opened; an ordinary file, with a saved plan or not; a folder; a link; or something else: a device, a pipe.
#[derive(Clone, Copy)]
pub(crate) enum Kind {
    Nothing,
    Ordinary,
    Plan,
    Folder,
    Link,
    Other,
}

// Whether a name is that of a link; one that is too long is of nothing.
fn is_link(runtime: HostRuntime, file: &[u8]) -> bool {
    file.len() <= 4095 && system::is_link(runtime, file)
}

// In an ordinary file one may go beyond its end; in a device or a pipe not. One of 2 GiB or more is none that the desk would replace.
fn is_ordinary(opened: &File) -> bool {
    let mut file = opened;
    match file.seek(SeekFrom::End(0)) {
        Ok(0..=2147483646) => matches!(file.seek(SeekFrom::Start(2147483647)), Ok(2147483647)),
        _ => false,
    }
}

// Whether an ordinary file begins with a saved state, of whatever version, that has a plan.
fn has_plan(opened: &File) -> bool {
    let mut front = [0u8; 12748];
    let mut file = opened;
    let _ = file.seek(SeekFrom::Start(0));
    let n = system::read_full(opened, &mut front);
    let kept = papers::kept_front(&front[..n]);
    !kept.refused && 0 < kept.state.length
}

fn kind_at(opened: &File) -> Kind {
    if !is_ordinary(opened) {
        Kind::Other
    } else if has_plan(opened) {
        Kind::Plan
    } else {
        Kind::Ordinary
    }
}

// A pipe would wait for its other end if it were opened to read alone.
fn opened(runtime: HostRuntime, file: &[u8]) -> Result<File, i32> {
    match system::open_update(runtime, file) {
        Err(DENIED) => system::open_read(runtime, file),
        other => other,
    }
}

pub(crate) fn kind_of(runtime: HostRuntime, file: &[u8]) -> Kind {
    if is_link(runtime, file) {
        return Kind::Link;
    }
    match opened(runtime, file) {
        Ok(opened) => kind_at(&opened),
        Err(FOLDER) => Kind::Folder,
        Err(_) => Kind::Nothing,
    }
}

fn sum_in(opened: File) -> u64 {
    let mut packed = [0u8; papers::READ];
    let n = system::read_full(&opened, &mut packed);
    papers::sum_of(&packed[..n])
}

// The sum of what a file holds, as far as a saved file goes; 0 where it cannot be opened.
pub(crate) fn sum_at(runtime: HostRuntime, file: &[u8]) -> u64 {
    match system::open_read(runtime, file) {
        Ok(opened) => sum_in(opened),
        Err(_) => 0,
    }
}

fn is_page_in(opened: File) -> bool {
    let mut front = [0u8; page::FRONT];
    let n = system::read_full(&opened, &mut front);
    page::is_front(&front[..n])
}

// Whether a file is a page of the desk.
pub(crate) fn is_page(runtime: HostRuntime, file: &[u8]) -> bool {
    match system::open_read(runtime, file) {
        Ok(opened) => is_page_in(opened),
        Err(_) => false,
    }
}
