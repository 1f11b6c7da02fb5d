//! Numbers in words: 1 to 18 digits, without a sign.
ghost use Rattle.std.specs.Prelude.{◌≡◌, ◌≤◌, ℕ, MatchOption};
ghost use Rattle.command_words.specs.Words.{IsNumber};

const MOST_DIGITS: usize = 18;

/// The number that a word writes.
pub fn number_of(word: &str) -> Option<u64>
    ensures { MatchOption result ((value : ℕ) → IsNumber word.now value → ⊥) (λ value. IsNumber word.now value) }
{
    if word.len() > MOST_DIGITS || word.starts_with('+') {
        return None;
    }
    match word.parse::<u64>() {
        Ok(value) => Some(value),
        Err(_) => None,
    }
}

/// The number from 1 to a greatest one that a word writes.
pub fn number_up_to(word: &str, most: u64) -> Option<u64>
    ensures { MatchOption result
        ((value : ℕ) → IsNumber word.now value → 1 ≤ value → value ≤ most → ⊥)
        (λ value. IsNumber word.now value × (1 ≤ value) × (value ≤ most)) }
{
    match number_of(word) {
        Some(value) if 1 <= value && value <= most => Some(value),
        _ => None,
    }
}
