// Bytes in hexadecimal, two digits for each.
ghost use Rattle.std.specs.Prelude.{◌+◌, ◌*◌, ◌≤◌, ◌<◌, length, ◌≡◌};
ghost use Rattle.text.specs.Hexadecimals.{hex_digit, hex_value, hex_of, filled, Decoded};
ghost use Rattle.text.specs.Words.{all};

use super::{HexError, same};

fn all_hex_digits(s: &[u8]) -> bool
    ensures { result ≡ all hex_digit s.now }
{
    s.iter().all(|b| b.is_ascii_hexdigit())
}

// What a digit counts, and 0 for what is none.
#[tactic(auto, unfolding(crate::specs::Hexadecimals::hex_value))]
fn worth(b: u8) -> u8
    ensures { (result ≡ hex_value b) × (result < 16) }
{
    match b {
        b'0'..=b'9' => b - b'0',
        b'A'..=b'F' => b - b'A' + 10,
        b'a'..=b'f' => b - b'a' + 10,
        _ => 0,
    }
}

// The byte that two digits spell.
fn pair(high: u8, low: u8) -> u8
    ensures { result ≡ hex_value high * 16 + hex_value low }
{
    worth(high) * 16 + worth(low)
}

// `count` bytes from the digits of s.
#[tactic(auto, unfolding(crate::specs::Hexadecimals::filled))]
fn fill(s: &[u8], count: usize, out: &mut [u8; 8000])
    requires { (count * 2 ≤ length s.now) × (count ≤ 8000) }
    ensures { out.new ≡ filled s.now count out.old }
{
    for i in 0..count {
        out[i] = pair(s[i * 2], s[i * 2 + 1]);
    }
}

// The bytes that a word spells, `-` for none of them, into `out`: how many they are. `out` keeps what it has beyond them, and all that it has where
// the word spells none.
// Stays: (a) into an array, which the clause `put` names; and this crate allocates nothing.
#[tactic(auto, unfolding(crate::specs::Hexadecimals::hex_of, crate::specs::Hexadecimals::filled))]
pub fn decode(s: &[u8], out: &mut [u8; 8000]) -> Result<usize, HexError>
    ensures is { result ≡ hex_of s.now }
    ensures put { Decoded s.now result out.old out.new }
{
    if same(s, b"-") {
        return Ok(0);
    }
    if s.is_empty() || s.len() % 2 == 1 || !all_hex_digits(s) {
        return Err(HexError::Bad);
    }
    let count = s.len() / 2;
    if 8000 < count {
        return Err(HexError::Long);
    }
    fill(s, count, out);
    Ok(count)
}
