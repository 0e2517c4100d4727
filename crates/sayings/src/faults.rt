// What each fault is called, by its number. docs/DESK.md has the same table, and tools/check-desk-doc holds the two to each other.
use drawing::{Out, number_at, numbers_of, put_fault_name, put_scope};
use plan::table::Table;

// What the faults 0 to 5, which no raise with a number makes, are called.
static OWN: [&[u8]; 6] = [
    b"a plain raise",
    b"unbound variable",
    b"sum too large",
    b"difference below zero",
    b"conflicting receive",
    b"no such partner",
];

// What the fault with this number is called; a raise with a number by the name that it may have.
pub fn put_fault(out: &mut Out, names: &[u8; 16896], fault: u8) {
    match OWN.get(usize::from(fault)) {
        Some(own) => out.put(own),
        None => put_fault_name(out, names, b"fault ", u32::from(fault)),
    }
}

// Behind a colon, what was said to be of this fault.
pub fn put_by_fault(out: &mut Out, names: &[u8; 16896], fault: u8) {
    out.put(b": ");
    put_fault(out, names, fault);
}

// Whether a scope with this mark has faulted: it waits for its inner scopes, undoes, or runs its fault part, whichever it has chosen.
pub fn has_faulted(mark: u8) -> bool {
    matches!(mark % 16, 4..=6)
}

// The fault that fault part i of scope n, counted from 1, is for.
fn put_by_part(out: &mut Out, names: &[u8; 16896], table: &Table, n: usize, i: usize) {
    if 0 < i && i <= numbers_of(table, n) {
        put_by_fault(
            out,
            names,
            u8::try_from(number_at(table, n, i - 1)).unwrap_or(0),
        );
    }
}

// The fault of scope n, by the fault part that it has chosen: one by number, or the general one, which says which of the engine's own faults it was. A scope that
// faulted before its marks told it does not say.
fn put_by_choice(out: &mut Out, names: &[u8; 16896], table: &Table, n: usize, choice: u8) {
    match choice {
        9..=14 => put_by_fault(out, names, choice - 9),
        15 => out.put(b": a number that it has no fault part for"),
        _ => put_by_part(out, names, table, n, usize::from(choice)),
    }
}

// Scope n, which has this mark and has faulted, and by which fault.
pub fn put_scope_faulted(out: &mut Out, names: &[u8; 16896], table: &Table, n: usize, mark: u8) {
    put_scope(out, names, table, n);
    out.put(b" faulted");
    put_by_choice(out, names, table, n, mark / 16);
}

// All of them, a line for each, and a blank line.
pub fn put_faults(out: &mut Out) {
    for (fault, own) in OWN.iter().enumerate() {
        out.put_aligned(fault as u64);
        out.put(b"  ");
        out.put(own);
        out.put_byte(b'\n');
    }
    out.put(b" 16 to 255  a raise with this number: fault 16 to fault 255\n\n");
}
