// Reads a plan as text, the drawing of the desk with names declared in front, into the rows that the writer takes. The public calls are `read` and
// `names_of`.
#![tactic(auto)]

mod activities;
mod levels;

use levels::Levels;
use spelling::{
    Declaration, Lines, Mistake, Span, Table, Text, What, after_part, is_over, is_part, more,
    numbered_part, past_number, tab_in,
};
pub use spelling::{Reason, names_of, past_blanks, word_end};

// The line that is wrong, counted from 1, the reason, and where in the text, the length of the text where it is no place in it.
#[derive(Clone, Copy)]
pub struct Wrong {
    pub line: u32,
    pub reason: Reason,
    pub place: usize,
}

// A text while it is read: the table, the activities that are open, the next row, how many variables are declared, and where the declarations stop, once they
// have.
#[derive(Drop)]
pub(crate) struct Reading<'a> {
    bytes: &'a [u8],
    table: Table<'a>,
    levels: Levels,
    row: usize,
    variables: u32,
    stop: Option<usize>,
}

impl<'a> Reading<'a> {
    fn new(bytes: &'a [u8], table: Table<'a>) -> Self {
        Reading {
            bytes,
            table,
            levels: Levels::new(),
            row: 0,
            variables: 0,
            stop: None,
        }
    }

    // The text, with its declarations.
    fn text(&self) -> Text<'a> {
        Text {
            bytes: self.bytes,
            stop: self.stop.unwrap_or(self.bytes.len()),
        }
    }

    // What is wrong with the line that is read.
    fn wrong(&self, mistake: Mistake) -> Wrong {
        Wrong {
            line: self.table.line,
            reason: mistake.reason,
            place: mistake.place,
        }
    }

    // Something is missing in what is from this line.
    fn missing(&self, line: u32) -> Wrong {
        Wrong {
            line,
            reason: Reason::Missing,
            place: self.bytes.len(),
        }
    }

    // A declaration.
    fn declare(&mut self, at: usize, declaration: Declaration) -> Result<(), Mistake> {
        if self.stop.is_some() {
            return Err(Reason::Late.at(at));
        }
        let before = Text {
            bytes: self.bytes,
            stop: at,
        };
        before.declares(declaration, self.variables)?;
        if declaration.what == What::Variable {
            self.variables = self.variables.saturating_add(1);
        }
        Ok(())
    }

    // The head's row.
    fn put_head(&mut self) {
        let text = self.text();
        let correlations = (0..self.variables).filter(|k| text.is_correlation(*k));
        let many = correlations.count() as u32;
        self.table.begin(0);
        self.table.add(0, 1);
        self.table.add(0, self.variables);
        self.table.add(0, many);
        for k in 0..self.variables {
            if text.is_correlation(k) {
                self.table.add(0, k);
            }
        }
    }

    // The first line of the drawing: the head's row stands before it.
    fn start(&mut self, at: usize) {
        if self.stop.is_none() {
            self.stop = Some(at);
            self.put_head();
            self.row = 1;
        }
    }

    // The activities that a line does not stand in are closed.
    fn close(&mut self, column: usize) -> Result<(), Wrong> {
        self.levels
            .close(column)
            .map_err(|row| self.missing(self.table.line_of(row)))
    }

    // An activity, after the name of its part.
    fn put_activity(&mut self, at: usize, column: usize) -> Result<(), Mistake> {
        let row = self.row;
        if !self.table.has_room(row) {
            return Err(Reason::Rows.at(at));
        }
        let own = self.activity(at)?;
        self.row = own.next;
        self.levels
            .open(column, own.kind, row, &mut self.table)
            .map_err(|reason| reason.at(at))
    }

    // The row of the count of fault parts by number, before the first of them.
    fn put_count(&mut self) {
        if !self.levels.innermost().is_counted() && self.table.has_room(self.row) {
            self.table.begin(self.row);
            self.table.add(self.row, 0);
            self.levels.count_at(self.row);
            self.row = more(self.row);
        }
    }

    // The row of the number of a fault part, by its number or its name.
    fn put_number(&mut self, word: Span) -> Result<(), Mistake> {
        let number = self.text().fault(word)?;
        self.put_count();
        if !self.table.has_room(self.row) {
            return Err(Reason::Rows.at(word.from));
        }
        self.table.begin(self.row);
        self.table.add(self.row, number);
        self.levels.add_number(&mut self.table);
        self.row = more(self.row);
        Ok(())
    }

    // An activity, with the name of its part in front, in the innermost activity that is open.
    fn put_part(&mut self, at: usize, column: usize) -> Result<(), Mistake> {
        let s = self.bytes;
        let outer = self.levels.innermost();
        if outer.takes_number()
            && let Some((number, p)) = numbered_part(s, at)
        {
            self.put_number(number)?;
            return self.put_activity(p, column);
        }
        if let Some(part) = outer.part()
            && let Some(p) = after_part(s, at, part)
        {
            return self.put_activity(p, column);
        }
        if is_part(s, at) {
            return Err(Reason::Part.at(at));
        }
        self.put_activity(at, column)
    }

    // A line of the drawing, whose activity or part starts at `at`.
    fn draw(&mut self, at: usize, column: usize) -> Result<(), Wrong> {
        self.close(column)?;
        self.put_part(at, column)
            .map_err(|mistake| self.wrong(mistake))
    }

    // A line, which starts at `at`.
    fn read_line(&mut self, at: usize) -> Result<(), Wrong> {
        let s = self.bytes;
        self.table.line = self.table.line.saturating_add(1);
        if let Some(tab) = tab_in(s, at) {
            return Err(self.wrong(Reason::Tab.at(tab)));
        }
        if is_over(s, at) {
            return Ok(());
        }
        if let Some(declaration) = Declaration::of(s, at) {
            return self
                .declare(at, declaration)
                .map_err(|mistake| self.wrong(mistake));
        }
        self.start(at);
        let p = past_number(s, at);
        self.draw(p, p.saturating_sub(at))
    }

    // The text ends: everything in it is closed.
    fn end(&mut self) -> Result<usize, Wrong> {
        if self.stop.is_none() {
            let nowhere = self.bytes.len();
            return Err(self.wrong(Reason::Empty.at(nowhere)));
        }
        self.close(0)?;
        if self.levels.innermost().is_whole() {
            Ok(self.row.saturating_mul(20))
        } else {
            let line = self.table.line;
            Err(self.missing(line))
        }
    }
}

// How many numbers of `rows` the rows of a text use, 20 for each row, from the start on, and in `lines` the line that each of them is from. Where it is wrong,
// what they hold is nobody's.
// Stays: (a) two arrays beside each other: `read(text, rows, lines)` is named by docs/CONTRACTS.md, and its callers give a part of `rows` to the writer.
pub fn read(s: &[u8], rows: &mut [u32; 87100], lines: &mut [u32; 4355]) -> Result<usize, Wrong> {
    let (rows, _) = rows.as_chunks_mut::<20>();
    let table = Table {
        rows,
        lines,
        line: 0,
    };
    let mut reading = Reading::new(s, table);
    for at in Lines::of(s) {
        reading.read_line(at)?;
    }
    reading.end()
}
