// Decimal numbers.
ghost use Rattle.std.specs.Prelude.{◌≡◌};
ghost use Rattle.text.specs.Decimals.{digit, decimal_of};
ghost use Rattle.text.specs.Words.{all};

use super::DecimalError;

fn all_digits(s: &[u8]) -> bool
    ensures { result ≡ all digit s.now }
{
    s.iter().all(|b| b.is_ascii_digit())
}

// The number that a word spells.
#[tactic(auto, unfolding(crate::specs::Decimals::decimal_of, crate::specs::Decimals::value_from))]
pub fn decimal_of(s: &[u8]) -> Result<u32, DecimalError>
    ensures { result ≡ decimal_of s.now }
{
    if s.is_empty() || !all_digits(s) {
        return Err(DecimalError::Bad);
    }
    let mut sum: u64 = 0;
    for b in s {
        sum = sum * 10 + u64::from(b.saturating_sub(b'0'));
        if 4294967295 < sum {
            return Err(DecimalError::Large);
        }
    }
    Ok(sum as u32)
}
