// The names that a text declares, as a table: 512 places of 33 bytes, for 16 variables, 64 partners, 64 operations, 128 scopes and the faults 16 to 255 in
// turn, the scopes in the order of the drawing. A place holds the length of the name, then its characters; one without a name holds 0.
use super::declaring::{Text, What, is_declaration};
use super::fronts::scope_in;
use super::marks::{Lines, Span, is_over};

// One that is too long has no length.
fn put_name(name: &mut [u8; 33], word: &[u8]) {
    *name = [0; 33];
    if word.len() < 33 {
        name[0] = word.len() as u8;
    }
    for (to, from) in name[1..].iter_mut().zip(word) {
        *to = *from;
    }
}

// The name that is declared for a place; of a scope none.
fn name_at(text: Text, place: u32) -> Option<Span> {
    match place {
        0..16 => text.named(What::Variable, place),
        16..80 => text.named(What::Partner, place - 16),
        80..144 => text.named(What::Operation, place - 80),
        144..272 => None,
        _ => text.named(What::Fault, place - 256),
    }
}

// Where the drawing begins, and no declaration stands any more.
fn drawing_of(s: &[u8]) -> usize {
    Lines::of(s)
        .find(|line| !is_over(s, *line) && !is_declaration(s, *line))
        .unwrap_or(s.len())
}

// The table of the names that a text declares.
// Stays: (a) one array of all places: `names_of(text, names)` is named by docs/CONTRACTS.md, and saved files hold these bytes.
pub fn names_of(s: &[u8], names: &mut [u8; 16896]) {
    let stop = drawing_of(s);
    let text = Text { bytes: s, stop };
    let (names, _) = names.as_chunks_mut::<33>();
    for (name, place) in names.iter_mut().zip(0..512) {
        match name_at(text, place) {
            Some(word) => put_name(name, word.of(s)),
            None => *name = [0; 33],
        }
    }
    let scopes = Lines::between(s, stop, s.len()).filter_map(|line| scope_in(s, line));
    for (name, word) in names.iter_mut().skip(144).take(128).zip(scopes) {
        put_name(name, word.of(s));
    }
}
