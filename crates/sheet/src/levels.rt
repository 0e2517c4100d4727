// The activities that a line may stand in: those that are open, the outermost first, which is the root.
ghost use Rattle.std.specs.Prelude.{◌<◌};

use plan::kind;
use spelling::{Part, Reason, Table};

// What an activity is, by what may stand in it; a scope is always one with no undo part here.
#[derive(Clone, Copy, PartialEq, Eq)]
pub(crate) enum Kind {
    Root,
    // Nothing stands in it.
    Leaf,
    Choose,
    Repeat,
    // A sequence or a flow.
    List,
    Pick,
    Arm,
    Scope,
}

// An open activity: its column, its kind, its row, how many stand directly in it, and their column; of a scope how many of these are fault parts by number, and
// the row of their count.
#[derive(Clone, Copy)]
pub(crate) struct Level {
    column: usize,
    kind: Kind,
    row: usize,
    inside: u32,
    aligned: usize,
    numbered: u32,
    count: usize,
}

impl Level {
    fn new(column: usize, kind: Kind, row: usize) -> Level {
        Level {
            column,
            kind,
            row,
            inside: 0,
            aligned: 0,
            numbered: 0,
            count: 0,
        }
    }

    // How many may stand in it, where that is not any number: in a scope, one more for each fault part by number.
    fn most(self) -> Option<u32> {
        match self.kind {
            Kind::List | Kind::Pick => None,
            Kind::Leaf => Some(0),
            Kind::Repeat | Kind::Arm => Some(1),
            Kind::Root | Kind::Choose => Some(2),
            Kind::Scope => Some(self.numbered.saturating_add(3)),
        }
    }

    // Whether what stands in it is whole. Of a scope with no fault parts by number the undo part may be left out.
    pub(crate) fn is_whole(self) -> bool {
        if self.kind == Kind::Scope && self.numbered == 0 {
            return 1 < self.inside;
        }
        self.most().is_none_or(|most| self.inside == most)
    }

    // Whether a fault part by number may stand next in it: after the body of a scope, and after others of these.
    pub(crate) fn takes_number(self) -> bool {
        self.kind == Kind::Scope && self.inside == self.numbered.saturating_add(1)
    }

    // Whether it has a fault part by number already, so that the row of their count is there.
    pub(crate) fn is_counted(self) -> bool {
        0 < self.numbered
    }

    // Which part is next in it, where that has a name. The general fault part of a scope stands after those by number.
    pub(crate) fn part(self) -> Option<Part> {
        match (self.kind, self.inside) {
            (Kind::Root, 0) => Some(Part::RootBody),
            (Kind::Root, _) => Some(Part::RootFault),
            (Kind::Scope, 0) => Some(Part::Body),
            (Kind::Scope, n) if n <= self.numbered.saturating_add(1) => Some(Part::Fault),
            (Kind::Scope, _) => Some(Part::Undo),
            (Kind::Choose, 0) => Some(Part::Then),
            (Kind::Choose, _) => Some(Part::Else),
            _ => None,
        }
    }

    // Whether a line at this column stands in it.
    fn holds(self, column: usize) -> bool {
        self.kind == Kind::Root || self.column < column
    }

    // Whether this column is an even number of blanks within it, and that of those before in it.
    fn is_aligned(self, column: usize) -> bool {
        if 0 < self.inside {
            return self.aligned == column;
        }
        self.kind == Kind::Root || self.column < column && (column - self.column) % 2 == 0
    }

    // One more stands in it. A list's count goes into its row, and the code of a scope that has an undo part and no fault parts by number.
    fn enter(&mut self, column: usize, kind: Kind, table: &mut Table) -> Result<(), Reason> {
        if !self.is_aligned(column) {
            return Err(Reason::Column);
        }
        if self.most().is_some_and(|most| most <= self.inside) {
            return Err(Reason::Full);
        }
        if (kind == Kind::Arm) != (self.kind == Kind::Pick) {
            return Err(Reason::Arms);
        }
        self.inside = self.inside.saturating_add(1);
        self.aligned = column;
        match self.kind {
            Kind::List | Kind::Pick => table.put(self.row, 2, self.inside),
            Kind::Scope if self.numbered == 0 && self.inside == 3 => {
                table.put(self.row, 1, kind::SCOPE)
            }
            _ => {}
        }
        Ok(())
    }
}

// The open activities, of which `last` stand around the innermost.
// Stays: (a) an array and how many of it are used: the crates that are installed for C have no heap.
#[derive(Clone, Copy)]
pub(crate) struct Levels {
    open: [Level; 64],
    last: usize,
    ghost in_range: { last < 64 },
}

impl Levels {
    // The root alone.
    pub(crate) fn new() -> Levels {
        Levels {
            open: [Level::new(0, Kind::Root, 0); 64],
            last: 0,
        }
    }

    // The innermost.
    pub(crate) fn innermost(&self) -> Level {
        self.open[self.last]
    }

    // Those that a line at this column does not stand in are closed; or the row of one in which something is missing.
    pub(crate) fn close(&mut self, column: usize) -> Result<(), usize> {
        for level in (1..=self.last).rev() {
            let open = self.innermost();
            if open.holds(column) {
                break;
            }
            if !open.is_whole() {
                return Err(open.row);
            }
            self.last = level - 1;
        }
        Ok(())
    }

    // One more stands in the innermost, and is the innermost from now on.
    pub(crate) fn open(
        &mut self,
        column: usize,
        kind: Kind,
        row: usize,
        table: &mut Table,
    ) -> Result<(), Reason> {
        self.open[self.last].enter(column, kind, table)?;
        if 62 < self.last {
            return Err(Reason::Depth);
        }
        self.last += 1;
        self.open[self.last] = Level::new(column, kind, row);
        Ok(())
    }

    // The row of the count of fault parts by number in the innermost.
    pub(crate) fn count_at(&mut self, row: usize) {
        self.open[self.last].count = row;
    }

    // One more fault part by number stands in the innermost, a scope: its count goes into the count's row, and the scope's code into its own.
    pub(crate) fn add_number(&mut self, table: &mut Table) {
        let mut scope = self.innermost();
        scope.numbered = scope.numbered.saturating_add(1);
        self.open[self.last] = scope;
        table.put(scope.count, 1, scope.numbered);
        table.put(scope.row, 1, kind::NUMBERED_SCOPE);
    }
}
