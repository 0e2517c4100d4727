// The state as a page in a file, for a browser. It is written whole to a new file, which then takes the name: so who looks at the page sees the one before or
// this one, and never half of one.
use super::ordinary::Kind;
use super::{ordinary, retaining};
use drawing::Out;
use papers::{Clerk, Desk, name_with, replaced_by, system};
use std::fs::File;
use std::os::fd::AsRawFd;

// Too many files are open, as the system numbers it.
const MANY_FILES: i32 = 24;

// The page in a file that is open, and on disk; or the reason why not.
fn written(runtime: HostRuntime, file: File, desk: &Desk) -> Result<(), i32> {
    let mut sheet = Out::page(file, runtime);
    page::put_page(&mut sheet, &desk.names, desk.state, desk.tally);
    sheet.flush();
    match sheet.lost() {
        Some(reason) => Err(reason),
        None => sheet.sync(),
    }
}

// The same, and the file is closed. A page is put through a descriptor from 1 to 255: 0 would be standard input, and beyond there are too many.
fn written_whole(runtime: HostRuntime, file: File, desk: &Desk) -> Result<(), i32> {
    match file.as_raw_fd() {
        1..=255 => written(runtime, file, desk),
        _ => Err(MANY_FILES),
    }
}

// The page in a new file, which then takes the name of the old one; or the reason why not.
fn replaced(runtime: HostRuntime, file: &[u8], desk: &Desk) -> Result<(), i32> {
    let mut new = name_with(file, b".XXXXXX")?;
    let made = system::create_temp(runtime, new.as_mut_slice())?;
    let written = written_whole(runtime, made, desk);
    replaced_by(runtime, new.as_slice(), file, written)
}

// The page takes the name, whatever has it.
fn made(clerk: &mut Clerk, file: &[u8], number: u64) {
    if let Err(reason) = replaced(clerk.out.runtime(), file, &clerk.desk) {
        papers::put_failed(&mut clerk.out, number, b"write the page", reason);
        clerk.desk.fail();
    } else {
        clerk.out.put_refusal(b"page", 0);
    }
}

// The page over a file that is none, which stays as FILE.old; only where that is said.
fn over_other(clerk: &mut Clerk, file: &[u8], number: u64, why: &[u8]) {
    if !clerk.desk.bold {
        clerk.error(number, why);
    } else if let Err(reason) = retaining::retained(clerk.out.runtime(), file) {
        papers::put_failed(
            &mut clerk.out,
            number,
            b"keep what it holds as FILE.old",
            reason,
        );
        clerk.desk.fail();
    } else {
        made(clerk, file, number);
    }
}

// The page over an ordinary file without a saved plan: one that is a page is made anew.
fn over_ordinary(clerk: &mut Clerk, file: &[u8], number: u64) {
    if ordinary::is_page(clerk.out.runtime(), file) {
        made(clerk, file, number);
    } else {
        over_other(
            clerk,
            file,
            number,
            b"cannot write the page: the file is no page of the desk: say page! to replace it",
        );
    }
}

// The state as a page.
pub fn page(clerk: &mut Clerk, file: &[u8], number: u64) {
    if !clerk.desk.spoken {
        made(clerk, file, number);
    } else {
        match ordinary::kind_of(clerk.out.runtime(), file) {
            Kind::Nothing => made(clerk, file, number),
            Kind::Ordinary => over_ordinary(clerk, file, number),
            Kind::Plan => over_other(
                clerk,
                file,
                number,
                b"cannot write the page: the file holds a saved plan: say page! to replace it",
            ),
            Kind::Folder => clerk.error(number, b"cannot write the page: it is a folder"),
            Kind::Link => clerk.error(number, b"cannot write the page: it is a link"),
            Kind::Other => clerk.error(number, b"cannot write the page: it is no ordinary file"),
        }
    }
}
