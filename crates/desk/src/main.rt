// The desk: the console of the engine. It reads commands from standard input, one a line, and answers each on standard output (docs/DESK.md).
#![tactic(auto)]

mod incoming;
mod words;

use commands::Command;
use incoming::{Excess, Incoming};
use papers::{Clerk, Said};
use phrases::What;
use std::io::Read;

// The console; the text of a plan that comes in, where one does; the number of lines ended so far; whether each line is repeated before its answer,
// whether an error ends the session, and whether who types is asked for the next line; and whether input may follow.
#[derive(Drop)]
struct Session {
    clerk: Clerk,
    incoming: Option<Incoming>,
    lines: u64,
    echo: bool,
    strict: bool,
    asking: bool,
    open: bool,
}

// The session, and the present line, as far as it is kept, and how many bytes of it are.
#[derive(Drop)]
struct Input {
    session: Session,
    line: [u8; 16002],
    length: usize,
}

// Whether the lines that follow a line are a text.
fn is_write(line: &[u8]) -> bool {
    matches!(phrases::phrase_of(line).what, Ok(Some(What::Write)))
}

// Whether a line is no command: a comment, or blank.
fn is_nothing(line: &[u8]) -> bool {
    matches!(commands::command_of(line), Ok(Command::Nothing))
}

// The first bytes of a line, so many of them; all where there are fewer.
fn first(line: &[u8], length: usize) -> &[u8] {
    line.get(..length).unwrap_or(line)
}

impl Session {
    // A line as it was read: after a prompt, where it is no comment and not blank.
    fn echoed(&mut self, line: &[u8]) {
        if !self.echo {
            return;
        }
        if !is_nothing(line) {
            self.clerk.out.put(b"> ");
        }
        self.clerk.out.put(line);
        self.clerk.out.put_byte(b'\n');
    }

    // A line of a text, comment or not; a prompt alone for the blank one that ends it.
    fn text_echoed(&mut self, line: &[u8]) {
        if !self.echo {
            return;
        }
        self.clerk.out.put_byte(b'>');
        if !line.is_empty() {
            self.clerk.out.put_byte(b' ');
        }
        self.clerk.out.put(line);
        self.clerk.out.put_byte(b'\n');
    }

    // A command, or the beginning of a text; that may drop what is live.
    fn answered(&mut self, line: &[u8]) {
        self.echoed(line);
        if is_write(line) {
            self.clerk.desk.bold = phrases::phrase_of(line).bold;
            self.incoming = Some(Incoming::begun(self.lines));
        } else {
            speaking::answer(&mut self.clerk, line, self.lines);
        }
    }

    // The text has ended.
    fn written(&mut self) {
        if let Some(incoming) = self.incoming.take() {
            match incoming.spoilt {
                None => speaking::written(&mut self.clerk, incoming.text.as_slice(), incoming.line),
                Some((number, Excess::Line)) => self
                    .clerk
                    .error(number, b"the line has more than 16000 characters"),
                Some((number, Excess::Text)) => self
                    .clerk
                    .error(number, b"the text has more than 131072 characters"),
            }
        }
    }

    // A line without its end: a line of a text, or the one that ends it, or a command.
    fn taken(&mut self, line: &[u8]) {
        if self.incoming.is_none() {
            self.answered(line);
            return;
        }
        self.text_echoed(line);
        if incoming::is_end(line) {
            self.written();
        } else if let Some(incoming) = &mut self.incoming {
            incoming.add(line, self.lines);
        }
    }

    // A line that is too long: in a text, the text is not read.
    fn too_long(&mut self) {
        match &mut self.incoming {
            Some(incoming) => incoming.spoil(self.lines, Excess::Line),
            None => self
                .clerk
                .error(self.lines, b"the line has more than 16000 characters"),
        }
    }

    // Whether the session ends here: it was told to, an answer could not be written, or an error ends it.
    fn is_over(&self) -> bool {
        self.clerk.desk.over
            || self.clerk.out.is_lost()
            || self.strict && self.clerk.desk.said == Said::Error
    }

    // The session goes on, or is over.
    fn gone_on(&mut self) {
        if self.is_over() {
            self.open = false;
        }
    }

    // A line has ended, of which so much is kept.
    fn ended(&mut self, kept: &[u8]) {
        if !self.open {
            return;
        }
        self.lines = self.lines.saturating_add(1);
        match text::line_of(kept) {
            Some(length) => self.taken(first(kept, length)),
            None => self.too_long(),
        }
        self.gone_on();
    }

    // What is not saved at the end of the input is told, where the desk speaks to a person.
    fn warned(&mut self) {
        if self.clerk.desk.spoken && speaking::is_at_risk(&self.clerk.desk) {
            speaking::put_risk(&mut self.clerk);
            self.clerk.out.put_byte(b'\n');
        }
    }

    // At the end of the input a text may have no blank line.
    fn closed(&mut self) {
        self.written();
        self.open = false;
        self.warned();
    }

    // The input cannot be read.
    fn failed(&mut self) {
        let number = self.lines.saturating_add(1);
        self.clerk.error(number, b"the input cannot be read");
        self.incoming = None;
        self.open = false;
        words::stopped(self.clerk.out.runtime(), b"the input cannot be read\n");
    }

    // Writes what waits.
    fn flushed(&mut self) {
        self.clerk.out.flush();
        self.gone_on();
    }

    // Who types is asked for the next line.
    fn asked(&mut self) {
        if self.asking && self.open {
            match self.incoming {
                None => self.clerk.out.put(b"desk> "),
                Some(_) => self.clerk.out.put(b"text> "),
            }
        }
    }

    // Why the session ended before its input did, where it did, on standard error: so a script that runs the desk knows.
    fn told(&self) {
        let runtime = self.clerk.out.runtime();
        if self.clerk.out.is_lost() {
            words::stopped(runtime, b"an answer could not be written\n");
        } else if self.strict && self.clerk.desk.said == Said::Error {
            words::stopped(runtime, b"the last line is an error\n");
        }
    }
}

impl Input {
    // The present line has ended.
    fn ended(&mut self) {
        self.session.ended(first(&self.line, self.length));
        self.length = 0;
    }

    // What was read, line by line.
    fn feed(&mut self, chunk: &[u8]) {
        for b in chunk {
            match *b {
                b'\n' => self.ended(),
                other => self.length = text::keep(&mut self.line, self.length, other),
            }
        }
    }

    // At the end of the input a last line may have no line end.
    fn closed(&mut self) {
        if 0 < self.length {
            self.ended();
        }
        self.session.closed();
    }

    // Reads once, and answers each line that ends in what was read.
    fn turn(&mut self) {
        let mut chunk = [0u8; 4096];
        let mut stdin = self.session.clerk.out.runtime().stdin();
        match stdin.read(&mut chunk) {
            Ok(0) => self.closed(),
            Ok(n) => self.feed(&chunk[..n]),
            Err(_) => self.session.failed(),
        }
    }

    // All of the input. Who types the commands sees each answer at once.
    fn run(&mut self) {
        self.session.asked();
        self.session.flushed();
        // nothing says that the input ends, so the turns are counted up to a number that no run uses up
        for _ in 0..u64::MAX {
            if !self.session.open {
                return;
            }
            self.turn();
            self.session.asked();
            self.session.flushed();
        }
    }
}

fn main(rt: HostRuntime) {
    let w = words::given(rt);
    if w.help {
        words::put_usage(rt);
        return;
    }
    if w.version {
        words::put_version(rt);
        return;
    }
    if w.unknown {
        words::stopped(
            rt,
            b"unknown word behind the program's name; desk --help tells those that it takes\n",
        );
        return;
    }
    let mut clerk = Clerk::new(rt);
    clerk.desk.spoken = !w.plain;
    let mut input = Input {
        session: Session {
            clerk,
            incoming: None,
            lines: 0,
            echo: w.echo,
            strict: w.strict,
            asking: words::is_typed(rt),
            open: true,
        },
        line: [0u8; 16002],
        length: 0,
    };
    input.run();
    input.session.told();
}
