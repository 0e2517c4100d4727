// Runs the outside vectors of plans against the compiled reader, and compares refusal, place and number of activities and arms.
// Standard input has a vector on each line: bytes in hexadecimal, refusal, place, activities; `#` starts a comment.
#![tactic(auto)]

use plan::table::LENGTH;
use std::io::Read;

// What a vector wants, or what reading its bytes gave.
#[derive(Clone, Copy, PartialEq, Eq)]
struct Outcome {
    refusal: u64,
    place: u64,
    activities: u64,
}

// What became of a line.
#[derive(Clone, Copy)]
enum Verdict {
    Comment,
    Agrees,
    Differs(Outcome),
    Unreadable,
}

// The count of lines, of vectors read and of those that agree.
#[derive(Clone, Copy)]
struct Tally {
    lines: u64,
    vectors: u64,
    agree: u64,
}

// The tally; the present line, as far as it is kept, and how many bytes of it are; and whether input may follow.
#[derive(Drop)]
struct Input {
    tally: Tally,
    line: [u8; 16002],
    length: usize,
    open: bool,
}

// The first bytes of some, so many of them; all where there are fewer.
fn first(bytes: &[u8], length: usize) -> &[u8] {
    bytes.get(..length).unwrap_or(bytes)
}

// What the reader makes of bytes.
fn reading(s: &[u8]) -> Outcome {
    match plan::accept(s, &mut [0u32; LENGTH], &mut [0u8; 16]) {
        Err(refusal) => Outcome {
            refusal: u64::from(refusal.number),
            place: refusal.place as u64,
            activities: 0,
        },
        Ok(accepted) => Outcome {
            refusal: 0,
            place: 0,
            activities: accepted.activities as u64,
        },
    }
}

// The number that is the next word of a line, and the place after it.
fn number_at(line: &[u8], at: usize) -> Option<(u64, usize)> {
    let w = text::word_at(line, at);
    let word = line.get(w.from..w.to)?;
    let value = text::decimal_of(word).ok()?;
    Some((u64::from(value), w.to))
}

// What a line wants: its three numbers from a place on, behind which nothing follows but blanks.
fn wanted(line: &[u8], at: usize) -> Option<Outcome> {
    let (refusal, second) = number_at(line, at)?;
    let (place, third) = number_at(line, second)?;
    let (activities, end) = number_at(line, third)?;
    if text::word_at(line, end).is_empty() {
        Some(Outcome {
            refusal,
            place,
            activities,
        })
    } else {
        None
    }
}

// What becomes of a line.
fn judged(line: &[u8]) -> Verdict {
    let w = text::word_at(line, 0);
    let word = line.get(w.from..w.to).unwrap_or(b"");
    if word.is_empty() || word.starts_with(b"#") {
        return Verdict::Comment;
    }
    let mut bytes = [0u8; 8000];
    let Ok(count) = text::decode(word, &mut bytes) else {
        return Verdict::Unreadable;
    };
    let got = reading(first(&bytes, count));
    match wanted(line, w.to) {
        Some(want) if want == got => Verdict::Agrees,
        Some(_) => Verdict::Differs(got),
        None => Verdict::Unreadable,
    }
}

impl Tally {
    // A line that is no vector counts as one that disagrees.
    fn troubled(&mut self, rt: HostRuntime) {
        let number = self.lines;
        self.vectors = self.vectors.saturating_add(1);
        let _ = println!(rt; "line {number} is no vector");
    }

    // A line that has ended, without its line end.
    fn judge(&mut self, rt: HostRuntime, line: &[u8]) {
        match judged(line) {
            Verdict::Comment => {}
            Verdict::Agrees => {
                self.vectors = self.vectors.saturating_add(1);
                self.agree = self.agree.saturating_add(1);
            }
            Verdict::Differs(got) => {
                self.vectors = self.vectors.saturating_add(1);
                let Outcome {
                    refusal,
                    place,
                    activities,
                } = got;
                let _ = rt.write_all(line);
                let _ = println!(rt; ": got {refusal} {place} {activities}");
            }
            Verdict::Unreadable => self.troubled(rt),
        }
    }

    // A line has ended, of which so much is kept.
    fn end(&mut self, rt: HostRuntime, kept: &[u8]) {
        self.lines = self.lines.saturating_add(1);
        match text::line_of(kept) {
            Some(length) => self.judge(rt, first(kept, length)),
            None => self.troubled(rt),
        }
    }
}

impl Input {
    // The present line has ended.
    fn end(&mut self, rt: HostRuntime) {
        self.tally.end(rt, first(&self.line, self.length));
        self.length = 0;
    }

    // What was read, line by line.
    fn feed(&mut self, rt: HostRuntime, chunk: &[u8]) {
        for b in chunk {
            match *b {
                b'\n' => self.end(rt),
                other => self.length = text::keep(&mut self.line, self.length, other),
            }
        }
    }

    // Reads once. At the end of the input a last line may have no line end.
    fn turn(&mut self, rt: HostRuntime) {
        let mut chunk = [0u8; 4096];
        let mut stdin = rt.stdin();
        let n = stdin.read(&mut chunk).unwrap_or(0);
        if n == 0 {
            if 0 < self.length {
                self.end(rt);
            }
            self.open = false;
        }
        self.feed(rt, &chunk[..n]);
    }

    // All of the input.
    fn run(&mut self, rt: HostRuntime) {
        // nothing says that the input ends, so the turns are counted up to a number that no run uses up
        for _ in 0..u64::MAX {
            if !self.open {
                return;
            }
            self.turn(rt);
        }
    }
}

fn main(rt: HostRuntime) {
    let mut input = Input {
        tally: Tally {
            lines: 0,
            vectors: 0,
            agree: 0,
        },
        line: [0u8; 16002],
        length: 0,
        open: true,
    };
    input.run(rt);
    let Tally { vectors, agree, .. } = input.tally;
    let _ = println!(rt; "{vectors} plans read, {agree} agree");
}
