// What is written, gathered so that it is written in large pieces. From where something could not be written on, nothing is put.
//
// An `Out` holds where it goes and how, too. So whatever puts words puts them into a page as well.
use arrayvec::ArrayVec;
use lettering::Sink;
use std::fs::File;
use std::io::{Error, Write};

// How many bytes may wait.
const ROOM: usize = 4094;

// As it is; as text of a page, whose marks are spelled out; or not at all, but counted.
#[derive(Clone, Copy)]
enum How {
    Plain,
    WithinMarkup,
    Counted,
}

// What waits; how it is put; the file that it is written to, standard output where there is none; why it could not be written, where
// it could not; and the runtime by which it is written, and by which whoever has an `Out` reaches files.
#[derive(Drop)]
pub struct Out {
    bytes: ArrayVec<u8, ROOM>,
    how: How,
    to: Option<File>,
    lost: Option<i32>,
    runtime: HostRuntime,
}

// Why a call of the system failed; 5, an error of the device, where it left no reason.
pub fn failure(error: Error) -> i32 {
    match error.raw_os_error() {
        Some(0) | None => 5,
        Some(number) => number,
    }
}

// All of some bytes, or the reason why not, and then some may have been written.
// Stays: the library's `write_all` writes again where a signal comes, and a signal ends this one.
pub fn write_all<W: Write>(to: &mut W, bytes: &[u8]) -> Result<(), i32> {
    let mut left = bytes;
    while !left.is_empty() {
        match to.write(left) {
            Ok(0) => return Err(5),
            Ok(n) => left = &left[n..],
            Err(e) => return Err(failure(e)),
        }
    }
    Ok(())
}

impl Out {
    fn made(how: How, to: Option<File>, runtime: HostRuntime) -> Out {
        Out {
            bytes: ArrayVec::new(),
            how,
            to,
            lost: None,
            runtime,
        }
    }

    // An `Out` of standard output, as it is.
    pub fn standard(runtime: HostRuntime) -> Out {
        Out::made(How::Plain, None, runtime)
    }

    // An `Out` of a page in this file.
    pub fn page(file: File, runtime: HostRuntime) -> Out {
        Out::made(How::WithinMarkup, Some(file), runtime)
    }

    // An `Out` into which nothing is written: it tells how long what is put is.
    pub fn measure(&self) -> Out {
        Out::made(How::Counted, None, self.runtime)
    }

    // The runtime by which an `Out` is written.
    pub fn runtime(&self) -> HostRuntime {
        self.runtime
    }

    // What waits.
    pub fn waiting(&self) -> &[u8] {
        self.bytes.as_slice()
    }

    // How many bytes wait: of an `Out` that measures, how long what was put is, as far as there is room.
    pub fn len(&self) -> usize {
        self.bytes.len()
    }

    // Why what an `Out` has could not be written, where it could not.
    pub fn lost(&self) -> Option<i32> {
        self.lost
    }

    // Whether something could not be written.
    pub fn is_lost(&self) -> bool {
        self.lost.is_some()
    }

    // What waits, where an `Out` goes.
    fn write_out(&self) -> Result<(), i32> {
        let bytes = self.waiting();
        match &self.to {
            None => {
                let mut stdout = self.runtime.stdout();
                write_all(&mut stdout, bytes)
            }
            Some(file) => {
                let mut page = file;
                write_all(&mut page, bytes)
            }
        }
    }

    // Writes what waits.
    pub fn flush(&mut self) {
        if self.bytes.is_empty() {
            return;
        }
        self.lost = self.write_out().err();
        self.bytes.clear();
    }

    // A byte as it is.
    fn put_plain(&mut self, b: u8) {
        if self.bytes.is_full() {
            self.flush();
        }
        if self.lost.is_none() {
            let _ = self.bytes.try_push(b);
        }
    }

    // Bytes as they are, whatever else is put as text: the markup of a page.
    pub fn put_markup(&mut self, text: &[u8]) {
        for b in text {
            self.put_plain(*b);
        }
    }

    // A byte of what is no markup. What is no character of a text, as a name may have in a file that was made by hand, is a sign for what cannot be shown.
    fn put_within(&mut self, b: u8) {
        match b {
            b'"' => self.put_markup(b"&quot;"),
            b'&' => self.put_markup(b"&amp;"),
            b'\'' => self.put_markup(b"&#39;"),
            b'<' => self.put_markup(b"&lt;"),
            b'>' => self.put_markup(b"&gt;"),
            b'\n' | b' '..=b'~' => self.put_plain(b),
            _ => self.put_markup(b"&#65533;"),
        }
    }

    pub fn put_byte(&mut self, b: u8) {
        match self.how {
            How::Plain => self.put_plain(b),
            How::WithinMarkup => self.put_within(b),
            How::Counted => {
                let _ = self.bytes.try_push(b);
            }
        }
    }

    pub fn put(&mut self, text: &[u8]) {
        Sink::put(self, text);
    }

    // The file that an `Out` is written to is on disk, or the reason why not.
    pub fn sync(&self) -> Result<(), i32> {
        match &self.to {
            None => Ok(()),
            Some(file) => file.sync_all().map_err(failure),
        }
    }

    // A line goes on: of what waits, the line end that it ends in goes.
    pub fn go_on(&mut self) {
        if self.bytes.last() == Some(&b'\n') {
            self.bytes.pop();
        }
    }

    // A number in decimal.
    pub fn put_number(&mut self, number: u64) {
        Sink::put_number(self, number);
    }

    // A number with a blank in front.
    pub fn put_next(&mut self, number: u64) {
        Sink::put_next(self, number);
    }

    // A number below 1,000, with blanks in front up to three places.
    pub fn put_aligned(&mut self, number: u64) {
        Sink::put_aligned(self, number);
    }

    // A text with blanks behind it, up to 23 places.
    pub fn put_column(&mut self, text: &[u8]) {
        self.put(text);
        for _ in text.len()..23 {
            self.put_byte(b' ');
        }
    }

    // Bytes in hexadecimal, in lower case.
    pub fn put_hex(&mut self, bytes: &[u8]) {
        for b in bytes {
            self.put_byte(digit_of(*b / 16));
            self.put_byte(digit_of(*b % 16));
        }
    }

    // The answer to a command whose refusal says it all.
    pub fn put_refusal(&mut self, word: &[u8], refusal: u32) {
        self.put(word);
        self.put_next(u64::from(refusal));
        self.put_byte(b'\n');
    }

    // A command word with two numbers.
    pub fn put_pair(&mut self, word: &[u8], first: u64, second: u64) {
        self.put(word);
        self.put_next(first);
        self.put_next(second);
        self.put_byte(b'\n');
    }

    // What is wrong with a line, whose number is `line`.
    pub fn put_error(&mut self, line: u64, reason: &[u8]) {
        self.put(b"error");
        self.put_next(line);
        self.put_byte(b' ');
        self.put(reason);
        self.put_byte(b'\n');
    }
}

// What the words of a plan are put into. (The methods of the same names are there for who has an `Out` and names no trait.)
impl Sink for Out {
    fn put_byte(&mut self, b: u8) {
        Out::put_byte(self, b);
    }
}

// A digit of a number in hexadecimal.
fn digit_of(value: u8) -> u8 {
    match value {
        0..=9 => b'0' + value,
        10..=15 => b'a' - 10 + value,
        _ => b'0',
    }
}
