// The names of a plan's variables, partners, operations, scopes and faults, in the table that the crate spelling makes of a text (spelling/src/naming.rt): 512
// places of 33 bytes, the length of a name and its characters. A table of zeros has no names. And the lines that declare them, as a text has them in
// front.
use super::sink::Sink;
use names::length_at;

// The name of number k of those whose `many` names stand from place `first` on, where it has one.
fn name_of(names: &[u8; 16896], first: usize, many: usize, k: usize) -> Option<&[u8]> {
    let place = first.saturating_add(k);
    if many <= k || 512 <= place {
        return None;
    }
    match length_at(names, place) {
        0 => None,
        length => {
            let from = place * 33 + 1;
            Some(&names[from..from + length])
        }
    }
}

// The name of a fault, where it has one: the engine's own have none here.
fn fault_name(names: &[u8; 16896], k: usize) -> Option<&[u8]> {
    if k < 16 {
        return None;
    }
    name_of(names, 256, 256, k)
}

// What has a name by that, else by its number behind what stands before that.
fn put_named<S: Sink>(out: &mut S, name: Option<&[u8]>, before: &[u8], number: u32) {
    match name {
        Some(name) => out.put(name),
        None => {
            out.put(before);
            out.put_number(u64::from(number));
        }
    }
}

// A variable by its name, or as v0, v1, ..
pub fn put_variable<S: Sink>(out: &mut S, names: &[u8; 16896], number: u32) {
    put_named(out, name_of(names, 0, 16, number as usize), b"v", number);
}

pub fn put_partner<S: Sink>(out: &mut S, names: &[u8; 16896], number: u32) {
    put_named(out, name_of(names, 16, 64, number as usize), b"", number);
}

pub fn put_operation<S: Sink>(out: &mut S, names: &[u8; 16896], number: u32) {
    put_named(out, name_of(names, 80, 64, number as usize), b"", number);
}

// A fault by its name, or by its number behind what stands before that.
pub fn put_fault_name<S: Sink>(out: &mut S, names: &[u8; 16896], before: &[u8], number: u32) {
    put_named(out, fault_name(names, number as usize), before, number);
}

// The name of scope k of the plan, where it has one, with what stands before and behind it.
pub(crate) fn put_scope_name<S: Sink>(
    out: &mut S,
    names: &[u8; 16896],
    k: usize,
    before: &[u8],
    behind: &[u8],
) {
    if let Some(name) = name_of(names, 144, 128, k) {
        out.put(before);
        out.put(name);
        out.put(behind);
    }
}

// Whether a variable with this number is for correlation.
pub fn is_correlation(correlation: &[u8; 16], number: u32) -> bool {
    number < 16 && correlation[number as usize] == 1
}

// A variable, marked where it is for correlation.
pub fn put_member<S: Sink>(out: &mut S, names: &[u8; 16896], correlation: &[u8; 16], number: u32) {
    put_variable(out, names, number);
    if is_correlation(correlation, number) {
        out.put(b" (correlation)");
    }
}

// The lines that declare a plan's variables.
pub(crate) fn put_variables<S: Sink>(
    out: &mut S,
    names: &[u8; 16896],
    correlation: &[u8; 16],
    variables: u32,
) {
    for number in 0..variables {
        out.put(b"variable ");
        put_member(out, names, correlation, number);
        out.put_byte(b'\n');
    }
}

// The line that declares a partner, an operation or a fault, where it has a name.
fn put_declared<S: Sink>(out: &mut S, word: &[u8], number: usize, name: Option<&[u8]>) {
    if let Some(name) = name {
        out.put(word);
        out.put_next(number as u64);
        out.put_byte(b' ');
        out.put(name);
        out.put_byte(b'\n');
    }
}

// The lines that declare a plan's variables, and the partners, operations and faults that have names.
pub fn put_names<S: Sink>(
    out: &mut S,
    names: &[u8; 16896],
    correlation: &[u8; 16],
    variables: u32,
) {
    put_variables(out, names, correlation, variables);
    for k in 0..64 {
        put_declared(out, b"partner", k, name_of(names, 16, 64, k));
    }
    for k in 0..64 {
        put_declared(out, b"operation", k, name_of(names, 80, 64, k));
    }
    for k in 16..256 {
        put_declared(out, b"fault", k, fault_name(names, k));
    }
}
