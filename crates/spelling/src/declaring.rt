// The lines in front of a drawing, which declare its variables, partners, operations, constants and faults:
//     variable NAME                  the next variable, from 0 on
//     variable NAME (correlation)    the same, for correlation
//     partner NUMBER NAME            operation NUMBER NAME
//     constant NAME NUMBER           fault NUMBER NAME
ghost use Rattle.std.specs.Prelude.{◌≤◌, IfSome};

use super::marks::{Lines, Span, after_mark, after_word, decimal, is_name, is_over, word_at};
use super::reasons::{Mistake, Reason};

// What a line declares.
#[derive(Clone, Copy, PartialEq, Eq)]
pub enum What {
    Variable,
    Partner,
    Operation,
    Constant,
    Fault,
}

// A line that declares: its name, and the word that says the number of a partner, an operation or a fault, or of a constant; either may be empty.
#[derive(Clone, Copy)]
pub struct Declaration {
    pub what: What,
    name: Span,
    number: Span,
}

// Whether the place is behind the `fault` of a declaration: before a word, which is no part's name.
fn declares_fault(s: &[u8], p: usize) -> bool {
    let word = word_at(s, p);
    !matches!(word.of(s), b"" | b"part") && after_mark(s, word.to, b':').is_none()
}

// What a line declares, by its first word, and the place after that.
fn what_at(s: &[u8], at: usize) -> Option<(What, usize)> {
    let word = word_at(s, at);
    let what = match word.of(s) {
        b"variable" => What::Variable,
        b"partner" => What::Partner,
        b"operation" => What::Operation,
        b"constant" => What::Constant,
        b"fault" if declares_fault(s, word.to) => What::Fault,
        _ => return None,
    };
    Some((what, word.to))
}

// Whether a line declares something.
pub fn is_declaration(s: &[u8], at: usize) -> bool {
    what_at(s, at).is_some()
}

impl Declaration {
    // What is declared by the words from p on, which stand behind the first.
    fn behind(s: &[u8], p: usize, what: What) -> Declaration {
        let first = word_at(s, p);
        let second = word_at(s, first.to);
        let (name, number) = match what {
            What::Variable | What::Constant => (first, second),
            _ => (second, first),
        };
        Declaration { what, name, number }
    }

    // What a line declares.
    pub fn of(s: &[u8], at: usize) -> Option<Declaration> {
        let (what, p) = what_at(s, at)?;
        Some(Declaration::behind(s, p, what))
    }

    // What it declares, where that is of this kind.
    fn of_kind(s: &[u8], at: usize, kind: What) -> Option<Declaration> {
        let (what, p) = what_at(s, at)?;
        (what == kind).then(|| Declaration::behind(s, p, what))
    }

    // The number that it says.
    fn value(self, s: &[u8]) -> Option<u32> {
        decimal(self.number.of(s))
    }

    // The place behind the name, and behind a constant's number, where it is there.
    fn end(self) -> usize {
        if self.what == What::Constant && !self.number.is_empty() {
            self.number.to
        } else {
            self.name.to
        }
    }

    // Whether nothing but the mark of correlation, or a constant's number, where they may stand, and a comment follow the name.
    fn is_ended(self, s: &[u8]) -> bool {
        match self.what {
            What::Variable => {
                let end = self.name.to;
                is_over(s, after_correlation(s, end).unwrap_or(end))
            }
            What::Constant => !self.number.is_empty() && is_over(s, self.number.to),
            _ => is_over(s, self.name.to),
        }
    }

    // That it is not as a declaration has it: at its name, or else at what stands behind that.
    fn odd(self, s: &[u8]) -> Mistake {
        let from = self.name.from;
        Reason::Declaration.at(if is_name(s, from) { self.end() } else { from })
    }

    // Whether its words are as a declaration has them.
    fn spelt(self, s: &[u8]) -> Result<(), Mistake> {
        let from = self.name.from;
        if !is_name(s, from) {
            return Err(self.odd(s));
        }
        if is_long(self.name) {
            return Err(Reason::Long.at(from));
        }
        if self.is_ended(s) {
            Ok(())
        } else {
            Err(self.odd(s))
        }
    }

    // The number of a partner, an operation or a fault, within its limits.
    fn limited(self, s: &[u8]) -> Result<u32, Mistake> {
        let (least, most, reason) = match self.what {
            What::Fault => (16, 255, Reason::Fault),
            _ => (0, 63, Reason::Above),
        };
        self.value(s)
            .filter(|n| least <= *n && *n <= most)
            .ok_or(reason.at(self.number.from))
    }
}

// A text, whose declarations stand before `stop`.
#[derive(Clone, Copy)]
pub struct Text<'a> {
    pub bytes: &'a [u8],
    pub stop: usize,
}

impl<'a> Text<'a> {
    fn lines(self) -> Lines<'a> {
        Lines::between(self.bytes, 0, self.stop)
    }

    // What is declared under a name: the number of a variable, a partner, an operation or a fault, the value of a constant.
    pub fn declared(self, what: What, word: Span) -> Option<u32> {
        let s = self.bytes;
        let name = word.of(s);
        let mut named = self
            .lines()
            .filter_map(|at| Declaration::of_kind(s, at, what))
            .filter(|d| !d.name.is_empty());
        if what == What::Variable {
            let k = named.position(|d| d.name.of(s) == name)?;
            u32::try_from(k).ok()
        } else {
            named.find(|d| d.name.of(s) == name)?.value(s)
        }
    }

    // The declaration of variable k.
    fn variable_of(self, k: u32) -> Option<Declaration> {
        self.lines()
            .filter_map(|at| Declaration::of_kind(self.bytes, at, What::Variable))
            .nth(k as usize)
    }

    // Whether variable k is for correlation.
    pub fn is_correlation(self, k: u32) -> bool {
        self.variable_of(k)
            .is_some_and(|d| after_correlation(self.bytes, d.name.to).is_some())
    }

    // The name of a variable, a partner, an operation or a fault by its number.
    pub fn named(self, what: What, number: u32) -> Option<Span> {
        let s = self.bytes;
        let d = if what == What::Variable {
            self.variable_of(number)
        } else {
            self.lines()
                .filter_map(|at| Declaration::of_kind(s, at, what))
                .find(|d| d.value(s) == Some(number))
        };
        d.map(|d| d.name).filter(|name| !name.is_empty())
    }

    // The number of the variable that a word names: by its declared name, or as v0, v1, ..
    pub fn variable(self, word: Span) -> Option<u32> {
        match self.declared(What::Variable, word) {
            Some(k) => Some(k),
            None => plain_variable(word.of(self.bytes)),
        }
    }

    // The number of a fault that is said by its number or by its name.
    pub fn fault(self, word: Span) -> Result<u32, Mistake> {
        let s = self.bytes;
        if is_name(s, word.from) {
            self.declared(What::Fault, word)
                .ok_or(Reason::Name.at(word.from))
        } else {
            decimal(word.of(s)).ok_or(Reason::Number.at(word.from))
        }
    }

    // Whether a declaration may stand in the line at `stop`, before which `count` variables are declared.
    pub fn declares(self, d: Declaration, count: u32) -> Result<(), Mistake> {
        d.spelt(self.bytes)?;
        if self.declared(d.what, d.name).is_some() {
            return Err(Reason::Declared.at(d.name.from));
        }
        match d.what {
            What::Variable => self.declares_operand(d, What::Constant, Some(count)),
            What::Constant => self.declares_operand(d, What::Variable, None),
            _ => self.declares_number(d),
        }
    }

    // Variables and constants stand in expressions, so no two of them have one name; `own` is the number of a variable.
    fn declares_operand(
        self,
        d: Declaration,
        other: What,
        own: Option<u32>,
    ) -> Result<(), Mistake> {
        let s = self.bytes;
        let word = d.name.of(s);
        if is_reserved(word) {
            return Err(Reason::Reserved.at(d.name.from));
        }
        let plain = plain_variable(word);
        if self.declared(other, d.name).is_some() || plain.is_some() && plain != own {
            return Err(Reason::Declared.at(d.name.from));
        }
        match own {
            Some(count) if count < 16 => Ok(()),
            Some(_) => Err(Reason::Variables.at(d.name.from)),
            None if d.value(s).is_some() => Ok(()),
            None => Err(Reason::Number.at(d.number.from)),
        }
    }

    // A number is within its limits, and has no name before.
    fn declares_number(self, d: Declaration) -> Result<(), Mistake> {
        let number = d.limited(self.bytes)?;
        match self.named(d.what, number) {
            Some(_) => Err(Reason::Named.at(d.number.from)),
            None => Ok(()),
        }
    }
}

// The number that a variable's own name v0, v1, .. says.
fn plain_variable(word: &[u8]) -> Option<u32> {
    decimal(word.strip_prefix(b"v")?)
}

// The place after the mark `(correlation)`, where it is next in the line.
pub fn after_correlation(s: &[u8], at: usize) -> Option<usize>
    ensures { IfSome result (λ p. at ≤ p) }
{
    let p = after_mark(s, at, b'(')?;
    let q = after_word(s, p, b"correlation")?;
    after_mark(s, q, b')')
}

// Whether a name has more than 32 characters.
pub fn is_long(name: Span) -> bool {
    32 < name.length()
}

// Whether a word is one of the words of expressions, which no variable and no constant is called.
pub(crate) fn is_reserved(word: &[u8]) -> bool {
    matches!(word, b"and" | b"or" | b"not")
}
