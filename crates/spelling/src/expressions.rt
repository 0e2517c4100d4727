// Reads an expression: numbers, variables and constants, with operations between them, and parentheses. An operation waits on a stack, with the row that
// its left operand starts at, until what comes next binds no stronger (operations.rt); then it and its operands become rows (combining.rt).
ghost use Rattle.std.specs.Prelude.{◌≤◌, ◌<◌, IfSome};

use super::combining::Operands;
use super::declaring::{Text, What, is_reserved};
use super::marks::{
    Span, after_word, byte_at, decimal, is_name, is_over, more, past_blanks, word_end,
};
use super::operations::{Operation, operation_at};
use super::reasons::{Mistake, Reason};
use super::table::{CONSTANT, Table, VARIABLE};

// An operation that waits, and the row that its left operand starts at.
#[derive(Clone, Copy)]
struct Waiting {
    operation: Operation,
    start: usize,
}

// The operations that wait, the outermost first.
// Stays: (a) an array and how many of it are used: the crates that are installed for C have no heap.
#[derive(Clone, Copy)]
struct Stack {
    waiting: [Waiting; 64],
    many: usize,
    ghost in_room: { many ≤ 64 },
}

impl Stack {
    fn new() -> Stack {
        let none = Waiting {
            operation: Operation::Parenthesis,
            start: 0,
        };
        Stack {
            waiting: [none; 64],
            many: 0,
        }
    }

    // The innermost one.
    fn top(&self) -> Option<Waiting>
        ensures { IfSome result (λ _. 0 < self.now.many) }
    {
        if 0 < self.many {
            Some(self.waiting[self.many - 1])
        } else {
            None
        }
    }

    // It waits no more, where it is done before the next operation.
    fn pop_before(&mut self, next: Operation) -> Option<Waiting>
        ensures { IfSome result (λ _. self.new.many < self.old.many) }
    {
        let top = self.top()?;
        if !top.operation.is_before(next) {
            return None;
        }
        self.many -= 1;
        Some(top)
    }

    fn pop(&mut self) -> Option<Waiting> {
        let top = self.top()?;
        self.many -= 1;
        Some(top)
    }

    // Whether there was room for one more.
    fn push(&mut self, operation: Operation, start: usize) -> bool {
        if self.many < 64 {
            self.waiting[self.many] = Waiting { operation, start };
            self.many += 1;
            true
        } else {
            false
        }
    }
}

// What comes next in an expression, and from which place on.
#[derive(Clone, Copy)]
enum Next {
    Operand(usize),
    Operation(usize),
    Over(usize),
}

// An expression while it is read: the operations that wait, where the rows of the last operand start, and the next row.
#[derive(Drop)]
struct Reading<'t, 'r, 'a> {
    text: Text<'t>,
    table: &'r mut Table<'a>,
    stack: Stack,
    from: usize,
    row: usize,
}

impl Reading<'_, '_, '_> {
    // The code and the value of a variable or a constant by its name.
    fn named(&self, word: Span) -> Result<(u32, u32), Mistake> {
        if is_reserved(word.of(self.text.bytes)) {
            return Err(Reason::Expression.at(word.from));
        }
        if let Some(k) = self.text.variable(word) {
            return Ok((VARIABLE, k));
        }
        match self.text.declared(What::Constant, word) {
            Some(value) => Ok((CONSTANT, value)),
            None => Err(Reason::Name.at(word.from)),
        }
    }

    // The code and the value of a number, a variable or a constant.
    fn operand(&self, word: Span) -> Result<(u32, u32), Mistake> {
        let s = self.text.bytes;
        if word.is_empty() {
            return Err(Reason::Expression.at(word.from));
        }
        if is_name(s, word.from) {
            return self.named(word);
        }
        match decimal(word.of(s)) {
            Some(value) => Ok((CONSTANT, value)),
            None => Err(Reason::Number.at(word.from)),
        }
    }

    // One operation more waits, and an operand comes next.
    fn wait(
        &mut self,
        operation: Operation,
        start: usize,
        p: usize,
        to: usize,
    ) -> Result<Next, Mistake> {
        if self.stack.push(operation, start) {
            Ok(Next::Operand(to))
        } else {
            Err(Reason::Operations.at(p))
        }
    }

    // What is read where an operand comes next: a parenthesis that opens, a `not`, or an operand.
    fn starts(&mut self, p: usize) -> Result<Next, Mistake> {
        let s = self.text.bytes;
        let row = self.row;
        if byte_at(s, p) == b'(' {
            return self.wait(Operation::Parenthesis, row, p, more(p));
        }
        if let Some(to) = after_word(s, p, b"not")
            && self.stack.top().is_none_or(|top| top.operation.level() < 4)
        {
            return self.wait(Operation::Not, row, p, to);
        }
        let to = word_end(s, p);
        let (code, value) = self.operand(Span { from: p, to })?;
        self.table.begin(row);
        self.table.add(row, code);
        self.table.add(row, value);
        self.from = row;
        self.row = more(row);
        Ok(Next::Operation(to))
    }

    // What is done before an operation that comes next: those that wait and bind stronger become rows.
    fn reduce(&mut self, next: Operation) {
        while let Some(top) = self.stack.pop_before(next) {
            self.row = self.table.combine(
                top.operation,
                Operands {
                    left: top.start,
                    right: self.from,
                    end: self.row,
                },
            );
            self.from = top.start;
        }
    }

    // The line is over: so is the expression, where no parenthesis is open.
    fn ends(&mut self, p: usize) -> Result<Next, Mistake> {
        self.reduce(Operation::Parenthesis);
        match self.stack.top() {
            Some(_) => Err(Reason::Expression.at(p)),
            None => Ok(Next::Over(p)),
        }
    }

    // A parenthesis closes.
    fn closes(&mut self, p: usize) -> Result<Next, Mistake> {
        self.reduce(Operation::Parenthesis);
        match self.stack.pop() {
            Some(_) => Ok(Next::Operation(more(p))),
            None => Err(Reason::Expression.at(p)),
        }
    }

    // What is read behind an operand: the end, a parenthesis that closes, or an operation.
    fn follows(&mut self, p: usize) -> Result<Next, Mistake> {
        let s = self.text.bytes;
        if is_over(s, p) {
            return self.ends(p);
        }
        if byte_at(s, p) == b')' {
            return self.closes(p);
        }
        let (operation, to) = operation_at(s, p).ok_or(Reason::Expression.at(p))?;
        self.reduce(operation);
        if self
            .stack
            .top()
            .is_some_and(|top| top.operation.is_compared(operation))
        {
            return Err(Reason::Expression.at(p));
        }
        self.wait(operation, self.from, p, to)
    }

    // That the rows have no room, where that is so.
    fn fits(&self, at: usize) -> Result<(), Mistake> {
        if self.table.rows.len() < self.row {
            Err(Reason::Rows.at(at))
        } else {
            Ok(())
        }
    }
}

// An expression from `at` to the end of its line, in the rows from `row` on: the place of its end, and the next row.
pub fn expression(
    text: Text,
    at: usize,
    table: &mut Table,
    row: usize,
) -> Result<(usize, usize), Mistake> {
    let s = text.bytes;
    let mut e = Reading {
        text,
        table,
        stack: Stack::new(),
        from: row,
        row,
    };
    let mut p = past_blanks(s, at);
    let mut wanted = true;
    // Stays: (d) no `for` and no iterator: each turn says itself how far it has read.
    while p < s.len() {
        let next = if wanted { e.starts(p)? } else { e.follows(p)? };
        let (to, operand) = match next {
            Next::Operand(to) => (to, true),
            Next::Operation(to) => (to, false),
            Next::Over(to) => {
                e.fits(to)?;
                return Ok((to, e.row));
            }
        };
        e.fits(to)?;
        let q = past_blanks(s, to);
        if q <= p {
            return Err(Reason::Expression.at(p));
        }
        p = q;
        wanted = operand;
    }
    if wanted {
        return Err(Reason::Expression.at(p));
    }
    e.ends(p)?;
    e.fits(p)?;
    Ok((p, e.row))
}
