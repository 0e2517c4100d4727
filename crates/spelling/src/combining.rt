// The rows of an operation, by those of its operands. Each function answers the row after what it made. What the bytes cannot say as such is said by what
// they can: `a > b` by `b < a`, `not E` by `E = 0`, `E and F` by `(E = 0) < F` and `E or F` by `0 < (E + F)`, where an operand that is no comparison, and so
// may be above 1, is `0 < F` in its place.
use super::operations::Operation;
use super::table::{CONSTANT, DIFFERENCE, EQUAL, LESS, SUM, Table};

// Where the rows of the left operand start, and those of the right one, and the row after them. A `not` has the right operand alone, which starts at `left`.
#[derive(Clone, Copy)]
pub(crate) struct Operands {
    pub left: usize,
    pub right: usize,
    pub end: usize,
}

impl Table<'_> {
    // The constant 0 comes in at row s.
    fn insert_zero(&mut self, s: usize, end: usize) -> usize {
        let after = self.insert(s, end, CONSTANT);
        self.add(s, 0);
        after
    }

    // `E = 0`.
    fn negate(&mut self, s: usize, end: usize) -> usize {
        let zero = self.insert_zero(end, end);
        self.insert(s, zero, EQUAL)
    }

    // A comparison as it is; what is none as `0 < E`.
    fn judge(&mut self, s: usize, end: usize) -> usize {
        if self.is_comparison(s) {
            return end;
        }
        let zero = self.insert_zero(s, end);
        self.insert(s, zero, LESS)
    }

    // `(E = 0) < F`: 1 where neither is 0.
    fn both(&mut self, of: Operands) -> usize {
        let judged = self.judge(of.right, of.end);
        let zero = self.insert_zero(of.right, judged);
        let equal = self.insert(of.left, zero, EQUAL);
        self.insert(of.left, equal, LESS)
    }

    // `0 < (E + F)`: 1 where one is not 0.
    fn either(&mut self, of: Operands) -> usize {
        let right = self.judge(of.right, of.end);
        let left = self.judge(of.left, right);
        let sum = self.insert(of.left, left, SUM);
        let zero = self.insert_zero(of.left, sum);
        self.insert(of.left, zero, LESS)
    }

    // `F < E`.
    fn more_than(&mut self, of: Operands) -> usize {
        self.swap(of.left, of.right, of.end);
        self.insert(of.left, of.end, LESS)
    }

    // The rows of an operation.
    pub(crate) fn combine(&mut self, operation: Operation, of: Operands) -> usize {
        let Operands { left, end, .. } = of;
        match operation {
            Operation::Or => self.either(of),
            Operation::And => self.both(of),
            Operation::Not => self.negate(left, end),
            Operation::Equal => self.insert(left, end, EQUAL),
            Operation::Less => self.insert(left, end, LESS),
            Operation::More => self.more_than(of),
            Operation::NotMore => {
                let after = self.more_than(of);
                self.negate(left, after)
            }
            Operation::NotLess => {
                let after = self.insert(left, end, LESS);
                self.negate(left, after)
            }
            Operation::NotEqual => {
                let after = self.insert(left, end, EQUAL);
                self.negate(left, after)
            }
            Operation::Sum => self.insert(left, end, SUM),
            Operation::Difference | Operation::Parenthesis => self.insert(left, end, DIFFERENCE),
        }
    }
}
