// The words behind the program's name, and what it says outside a session.
use drawing::write_all;
use std::env::FillError;
use std::io::IsTerminal;
use std::rt::Env;

#[derive(Clone, Copy, Default)]
pub struct Words {
    pub echo: bool,
    pub plain: bool,
    pub strict: bool,
    pub help: bool,
    pub version: bool,
    pub unknown: bool,
}

impl Words {
    // One word more.
    fn add(&mut self, word: &[u8]) {
        match word {
            b"echo" => self.echo = true,
            b"plain" => self.plain = true,
            b"strict" => self.strict = true,
            b"--help" => self.help = true,
            b"--version" => self.version = true,
            _ => self.unknown = true,
        }
    }
}

// All words behind the program's name. One that is longer than any that it takes is unknown.
pub fn given(runtime: HostRuntime) -> Words {
    let mut w = Words::default();
    let mut word = [0u8; 16];
    for i in 1..usize::MAX {
        match runtime.arg(i, &mut word) {
            Ok(n) => w.add(&word[..n]),
            Err(FillError::TooLong) => w.add(b""),
            Err(FillError::NotPresent) => return w,
        }
    }
    w
}

// Whether a person types the commands and reads the answers: both are a terminal.
pub fn is_typed(runtime: HostRuntime) -> bool {
    runtime.stdin().is_terminal() && runtime.stdout().is_terminal()
}

// Why the desk stopped, on standard error.
pub fn stopped(runtime: HostRuntime, why: &[u8]) {
    let mut stderr = runtime.stderr();
    let _ = write_all(&mut stderr, b"desk: stopped: ");
    let _ = write_all(&mut stderr, why);
}

pub fn put_usage(runtime: HostRuntime) {
    let mut stdout = runtime.stdout();
    let _ = write_all(
        &mut stdout,
        b"desk [echo] [plain] [strict]: reads commands from standard input, one a line, and answers each on standard output.\n",
    );
    let _ = write_all(
        &mut stdout,
        b"  echo       repeat each line before its answer\n  plain      answer by numbers alone, with no brakes: for programs\n  strict     stop at the first error\n",
    );
    let _ = write_all(
        &mut stdout,
        b"  --help     this\n  --version  the version\nThe command help lists the commands. docs/DESK.md tells all of it.\n",
    );
}

pub fn put_version(runtime: HostRuntime) {
    let mut stdout = runtime.stdout();
    let _ = write_all(&mut stdout, b"moonhalyard desk 1\n");
}
