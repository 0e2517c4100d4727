// What is wrong with a line of a text, by the reasons of the crate sheet.
use drawing::Out;
use sheet::Reason;

// Stays: (d) a table of words, which a match says as plainly as anything else.
pub(crate) fn put_why(out: &mut Out, reason: Reason) {
    out.put(match reason {
        Reason::Declaration =>
            b"expected 'variable NAME', 'variable NAME (correlation)', 'partner NUMBER NAME', 'operation NUMBER NAME', 'fault NUMBER NAME' or 'constant NAME NUMBER'",
        Reason::Declared => b"another has this name",
        Reason::Above => b"partners and operations are 0 to 63",
        Reason::Variables => b"a plan has at most 16 variables",
        Reason::Late => b"declarations stand before the first activity",
        Reason::Activity => b"no such activity",
        Reason::Message => b"expected 'partner P, operation O: V, ..'",
        Reason::Name => b"no such name",
        Reason::Expression =>
            b"expected an expression: numbers, variables and constants, with + - = != < <= > >= 'and' 'or' 'not' and parentheses",
        Reason::Number => b"numbers are 0 to 4294967295",
        Reason::Operations => b"more than 64 operations and parentheses within one another",
        Reason::Rows => b"the text has more than a plan can hold",
        Reason::Correlation => b"the variable is not for correlation",
        Reason::Column =>
            b"expected the indentation of a line before it, or two, four, .. blanks more than the activity that it stands in",
        Reason::Full => b"the activity that it stands in takes no more, or takes none",
        Reason::Arms => b"arms stand in a pick, and nothing else does",
        Reason::Part =>
            b"expected another part: root body, root fault part; of a scope body, fault part, undo part; of a choose then, else",
        Reason::Depth => b"more than 63 activities within one another",
        Reason::Missing =>
            b"a part is missing: the root and a choose have 2, a scope 2 or 3, one with fault parts by number all of them, a repeat and an arm 1",
        Reason::Empty => b"the text has no activity",
        Reason::Tab => b"a tab stands in it, where blanks may",
        Reason::Long => b"a name has at most 32 characters",
        Reason::Named => b"this number has a name already",
        Reason::Set => b"expected 'set V to E'",
        Reason::Behind => b"nothing stands behind this word",
        Reason::Arm => b"expected 'arm: receive from partner P, operation O: V, ..'",
        Reason::Reserved => b"'and', 'or' and 'not' are words of expressions",
        Reason::Fault => b"faults with a name are 16 to 255",
        Reason::Reply =>
            b"expected 'with reply to partner P' in a send to the partner in a variable, 'with reply to into V' in a receive; no other send has it, and no arm",
        Reason::Held => b"expected 'the partner in V, operation O: V, ..'",
    });
}
