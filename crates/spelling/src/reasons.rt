// What may be wrong with a plan as text. The numbers are those that callers in other languages are told (include/moonhalyard.h).
#[derive(Clone, Copy, PartialEq, Eq, Debug)]
pub enum Reason {
    // A declaration is a word, a number where it is a partner's, an operation's or a fault's, and a name; a constant's number stands behind its name.
    Declaration = 1,
    // The name is declared before, or is another variable's v0, v1, ..
    Declared = 2,
    // The number is above 63.
    Above = 3,
    // More than 16 variables.
    Variables = 4,
    // Declarations stand before the first activity.
    Late = 5,
    // No such activity.
    Activity = 6,
    // Partner, operation and variables of a message are said otherwise.
    Message = 7,
    // No such name.
    Name = 8,
    // No such expression.
    Expression = 9,
    // No such number.
    Number = 10,
    // More than 64 operations and parentheses within one another.
    Operations = 11,
    // More rows than there is room for.
    Rows = 12,
    // The variable is not for correlation.
    Correlation = 13,
    // The line does not stand where those before it do, or not an even number of blanks within.
    Column = 14,
    // Nothing more stands there.
    Full = 15,
    // An arm stands in a pick, and nothing else does.
    Arms = 16,
    // The part has another name.
    Part = 17,
    // More than 63 activities within one another.
    Depth = 18,
    // Something is missing in it.
    Missing = 19,
    // No activity.
    Empty = 20,
    // A tab stands in the line.
    Tab = 21,
    // The name has more than 32 characters.
    Long = 22,
    // The number has a name already.
    Named = 23,
    // A set is said otherwise.
    Set = 24,
    // Something stands behind a word that stands alone.
    Behind = 25,
    // An arm is said otherwise.
    Arm = 26,
    // A word of expressions is no name.
    Reserved = 27,
    // A fault's number is not 16 to 255.
    Fault = 28,
    // A reply is said otherwise, or in an arm or a send to a partner.
    Reply = 29,
    // Partner, operation and variables of a send to the partner that a variable holds are said otherwise.
    Held = 30,
}

impl Reason {
    pub fn number(self) -> u8 {
        self as u8
    }

    // What is wrong, at a place.
    pub fn at(self, place: usize) -> Mistake {
        Mistake {
            reason: self,
            place,
        }
    }
}

// What is wrong, and where in the text.
#[derive(Clone, Copy)]
pub struct Mistake {
    pub reason: Reason,
    pub place: usize,
}
