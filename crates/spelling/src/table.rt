// The table while it is filled.
use super::marks::more;

// The codes of an expression's rows.
pub(crate) const CONSTANT: u32 = 0;

pub(crate) const VARIABLE: u32 = 1;

pub(crate) const SUM: u32 = 2;

pub(crate) const DIFFERENCE: u32 = 3;

pub(crate) const EQUAL: u32 = 4;

pub(crate) const LESS: u32 = 5;

// Its rows, the line of the text that each of them is from, and the line that those are from which begin now. The first number
// of a row says how many of the 19 behind it are used.
#[derive(Drop)]
pub struct Table<'a> {
    pub rows: &'a mut [[u32; 20]],
    pub lines: &'a mut [u32],
    pub line: u32,
}

impl Table<'_> {
    // Whether there is room for a row r.
    pub fn has_room(&self, r: usize) -> bool {
        r < self.rows.len()
    }

    // `value` is put into place c of row r, where there is such a place.
    pub fn put(&mut self, r: usize, c: usize, value: u32) {
        if r < self.rows.len() && c < 20 {
            self.rows[r][c] = value;
        }
    }

    // Row r has no numbers, and is from this line.
    pub fn begin(&mut self, r: usize) {
        if r < self.rows.len() {
            self.rows[r] = [0; 20];
        }
        if r < self.lines.len() {
            self.lines[r] = self.line;
        }
    }

    // One number more in row r.
    pub fn add(&mut self, r: usize, value: u32) {
        if r < self.rows.len() {
            let n = self.rows[r][0];
            if n < 19 {
                self.rows[r][n as usize + 1] = value;
                self.rows[r][0] = n + 1;
            }
        }
    }

    // The line that row r is from.
    pub fn line_of(&self, r: usize) -> u32 {
        self.lines.get(r).copied().unwrap_or(0)
    }

    // Whether row r, of an expression, is a comparison.
    pub(crate) fn is_comparison(&self, r: usize) -> bool {
        self.rows
            .get(r)
            .is_some_and(|row| matches!(row[1], EQUAL | LESS))
    }

    // A row of a code comes in at row s, before those of an expression that end before row r: the row after them.
    pub(crate) fn insert(&mut self, s: usize, r: usize, code: u32) -> usize {
        self.begin(r);
        if s <= r && r < self.rows.len() {
            shift(&mut self.rows[s..r + 1]);
        }
        self.begin(s);
        self.add(s, code);
        more(r)
    }

    // Of the rows of an expression from row s to before row r those from row m on come first: a last row alone in one go, more of them by
    // turning both parts and then the whole (`rotate_left` needs `memmove` too).
    pub(crate) fn swap(&mut self, s: usize, m: usize, r: usize) {
        if s <= m && m < r && r <= self.rows.len() {
            if r - m == 1 {
                let last = self.rows[m];
                shift(&mut self.rows[s..r]);
                self.rows[s] = last;
            } else {
                turn(&mut self.rows[s..m]);
                turn(&mut self.rows[m..r]);
                turn(&mut self.rows[s..r]);
            }
        }
    }
}

// Rows of an expression go one row on, over the last of these. Each has a count, a code and a value, and its other numbers are 0. The
// three go one by one: by `copy_within` or `rotate_right` the archive for C would need `memmove` from outside.
fn shift(rows: &mut [[u32; 20]]) {
    for i in (1..rows.len()).rev() {
        for c in 0..3 {
            rows[i][c] = rows[i - 1][c];
        }
    }
}

// Rows of an expression, the last first.
fn turn(rows: &mut [[u32; 20]]) {
    let n = rows.len();
    for i in 0..n / 2 {
        for c in 0..3 {
            let first = rows[i][c];
            rows[i][c] = rows[n - 1 - i][c];
            rows[n - 1 - i][c] = first;
        }
    }
}
