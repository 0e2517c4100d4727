// Runs examples through the console and compares each answer with the one beside it. Standard input has a heading for each example, `# example `
// and what it shows, and below it the commands with their answers, as data/scenarios.txt has them; other lines that begin with `#` are comments.
// A line is written for each example, and at the end how many there were.
#![tactic(auto)]

use drawing::Out;
use papers::Clerk;
use std::io::Read;

// The console, and what is reported; the number of lines ended so far; the examples begun, and those that agreed, the present one not counted; and the line
// at which the present one was first answered otherwise, where it was.
#[derive(Drop)]
struct Session {
    clerk: Clerk,
    report: Out,
    lines: u64,
    examples: u64,
    agreed: u64,
    differs: Option<u64>,
}

// The session; the present line, as far as it is kept, and how many bytes of it are; and whether input may follow.
#[derive(Drop)]
struct Input {
    session: Session,
    line: [u8; 16002],
    length: usize,
    open: bool,
}

// The first bytes of a line, so many of them; all where there are fewer.
fn first(line: &[u8], length: usize) -> &[u8] {
    line.get(..length).unwrap_or(line)
}

// What stands from a place of a line on; nothing behind its end.
fn behind(line: &[u8], place: usize) -> &[u8] {
    line.get(place..).unwrap_or(b"")
}

// What stands behind a text that begins so, where it does.
fn after<'a>(text: &'a [u8], start: &[u8]) -> Option<&'a [u8]> {
    if text.starts_with(start) {
        return text.get(start.len()..);
    }
    None
}

// Whether what the console wrote is a line: the first word of the example's line, and then its answer.
fn agrees(written: &[u8], line: &[u8], answer: &[u8]) -> bool {
    let w = text::word_at(line, 0);
    let word = line.get(w.from..w.to).unwrap_or(b"");
    match after(written, word) {
        Some(rest) => match after(rest, answer) {
            Some(end) => end.starts_with(b"\n"),
            None => false,
        },
        None => false,
    }
}

impl Session {
    // The present example is answered otherwise in this line, if not in one before it.
    fn differ(&mut self, number: u64) {
        if self.differs.is_none() {
            self.differs = Some(number);
        }
    }

    // A command with its answer, behind the first `=`.
    fn tried(&mut self, line: &[u8]) {
        let mark = line.iter().position(|b| *b == b'=').unwrap_or(line.len());
        self.clerk.out = Out::standard(self.report.runtime());
        // no example is written as text, so that there are no names
        self.clerk.desk.names = [0u8; 16896];
        console::answer(&mut self.clerk, first(line, mark), self.lines);
        if !agrees(
            self.clerk.out.waiting(),
            line,
            behind(line, mark.saturating_add(1)),
        ) {
            self.differ(self.lines);
        }
    }

    // What became of the present example.
    fn put_verdict(&mut self) {
        if self.examples == 0 {
            return;
        }
        match self.differs {
            None => {
                self.agreed = self.agreed.saturating_add(1);
                self.report.put(b": as expected\n");
            }
            Some(line) => {
                self.report.put(b": DIFFERS at line ");
                self.report.put_number(line);
                self.report.put_byte(b'\n');
            }
        }
    }

    // A heading: the example before it is over.
    fn headed(&mut self, line: &[u8]) {
        self.put_verdict();
        self.report.put(behind(line, 10));
        self.examples = self.examples.saturating_add(1);
        self.differs = None;
    }

    // A line without its end.
    fn answered(&mut self, line: &[u8]) {
        if line.starts_with(b"# example ") {
            self.headed(line);
        } else if !line.starts_with(b"#") && !line.is_empty() {
            self.tried(line);
        }
    }

    // A line has ended, of which so much is kept. One that is too long is answered otherwise than anything beside it.
    fn ended(&mut self, kept: &[u8]) {
        self.lines = self.lines.saturating_add(1);
        match text::line_of(kept) {
            Some(length) => self.answered(first(kept, length)),
            None => self.differ(self.lines),
        }
    }

    // How many examples there were, and how many agreed.
    fn put_count(&mut self) {
        self.put_verdict();
        self.report.put_number(self.examples);
        self.report.put(b" examples, ");
        self.report.put_number(self.agreed);
        self.report.put(b" as expected\n");
    }
}

impl Input {
    // The present line has ended.
    fn ended(&mut self) {
        self.session.ended(first(&self.line, self.length));
        self.length = 0;
    }

    // What was read, line by line.
    fn feed(&mut self, chunk: &[u8]) {
        for b in chunk {
            match *b {
                b'\n' => self.ended(),
                other => self.length = text::keep(&mut self.line, self.length, other),
            }
        }
    }

    // Reads once.
    fn turn(&mut self) {
        let mut chunk = [0u8; 4096];
        let mut stdin = self.session.report.runtime().stdin();
        let n = stdin.read(&mut chunk).unwrap_or(0);
        if n == 0 {
            self.open = false;
        }
        self.feed(&chunk[..n]);
    }

    // All of the input.
    fn run(&mut self) {
        // nothing says that the input ends, so the turns are counted up to a number that no run uses up
        for _ in 0..u64::MAX {
            if !self.open {
                return;
            }
            self.turn();
        }
    }
}

fn main(rt: HostRuntime) {
    let mut input = Input {
        session: Session {
            clerk: Clerk::new(rt),
            report: Out::standard(rt),
            lines: 0,
            examples: 0,
            agreed: 0,
            differs: None,
        },
        line: [0u8; 16002],
        length: 0,
        open: true,
    };
    input.run();
    input.session.put_count();
    input.session.report.flush();
}
