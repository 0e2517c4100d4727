// The names of a plan's variables, partners, operations, scopes and faults, and the number that a typed name stands for. A table of names, which the crate spelling makes of a
// text, has 512 places of 33 bytes, each the length of a name and its characters: 16 for variables, then 64 for partners, then 64 for operations, then
// 128 for scopes in the order of the drawing, then 240 for the faults 16 to 255. A table of zeros has no names.
#![tactic(auto)]

ghost use Rattle.std.specs.Prelude.{◌≡◌, ◌+◌, ◌<◌};
ghost use Rattle.names.specs.Named.{length_at, name_at, is_named, number_named, by_name, stands_for};

use text::DecimalError;

// Why a word of a message stands for no number: it spells one that is too large; nobody has this name; or it is no number where one is asked for.
#[derive(Clone, Copy, PartialEq, Eq, Debug, Drop)]
pub enum NameError {
    Large,
    Unnamed,
    Unnumbered,
}

// How long the name at a place is: 0 where there is none.
#[tactic(auto, unfolding(crate::specs::Named::length_at))]
pub fn length_at(names: &[u8; 16896], place: usize) -> usize
    ensures { (result ≡ length_at names.now place) × (result < 33) }
{
    if 512 <= place {
        return 0;
    }
    let n = usize::from(names[place * 33]);
    if n < 33 { n } else { 0 }
}

// The name at a place, as the part of the table that spells it.
#[tactic(auto, unfolding(crate::specs::Named::name_at, crate::specs::Named::length_at))]
fn name_at(names: &[u8; 16896], place: usize) -> &[u8]
    ensures { result.now ≡ name_at names.now place }
{
    if 512 <= place {
        return &names[..0];
    }
    let from = place * 33 + 1;
    let to = from + length_at(names, place);
    &names[from..to]
}

// Whether a word is the name at a place. A place without a name has none, the empty word neither.
#[tactic(auto, unfolding(crate::specs::Named::is_named))]
fn is_named(names: &[u8; 16896], place: usize, word: &[u8]) -> bool
    ensures { result ≡ is_named names.now place word.now }
{
    !word.is_empty() && name_at(names, place) == word
}

// How far from `first` the first name is that the word is, of `many` places.
#[tactic(auto, unfolding(crate::specs::Named::number_named, crate::specs::Named::first_from))]
fn number_named(names: &[u8; 16896], first: usize, many: u32, word: &[u8]) -> Option<u32>
    requires { (first < 512) × (many < 512) }
    ensures { result ≡ number_named names.now first many word.now }
{
    for k in 0..many {
        if is_named(names, first + k as usize, word) {
            return Some(k);
        }
    }
    None
}

// The number of a variable by its name.
pub fn variable_named(names: &[u8; 16896], word: &[u8]) -> Option<u32>
    ensures { result ≡ number_named names.now 0 16 word.now }
{
    number_named(names, 0, 16, word)
}

// The number of a partner by its name.
pub fn partner_named(names: &[u8; 16896], word: &[u8]) -> Option<u32>
    ensures { result ≡ number_named names.now 16 64 word.now }
{
    number_named(names, 16, 64, word)
}

// The number of an operation by its name.
pub fn operation_named(names: &[u8; 16896], word: &[u8]) -> Option<u32>
    ensures { result ≡ number_named names.now 80 64 word.now }
{
    number_named(names, 80, 64, word)
}

// What word n of a message names: the first a partner, the second an operation.
#[tactic(auto, unfolding(crate::specs::Named::by_name))]
fn by_name(names: &[u8; 16896], word: &[u8], n: usize) -> Result<u32, NameError>
    ensures { result ≡ by_name names.now n word.now }
{
    match n {
        0 => partner_named(names, word).ok_or(NameError::Unnamed),
        1 => operation_named(names, word).ok_or(NameError::Unnamed),
        _ => Err(NameError::Unnumbered),
    }
}

// What word n of a message stands for: the number that it spells, else what it names.
#[tactic(auto, unfolding(crate::specs::Named::stands_for, crate::specs::Named::or_else))]
pub fn stands_for(names: &[u8; 16896], word: &[u8], n: usize) -> Result<u32, NameError>
    ensures { result ≡ stands_for names.now n word.now }
{
    match text::decimal_of(word) {
        Ok(value) => Ok(value),
        Err(DecimalError::Large) => Err(NameError::Large),
        Err(DecimalError::Bad) => by_name(names, word, n),
    }
}
