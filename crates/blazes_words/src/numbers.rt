//! The numbers that words are.
ghost use Rattle.std.specs.Prelude.{◌≡◌, IfOk, IfSome, length, map, option_map};
ghost use Rattle.std.specs.Char.{is_ascii_digit};
ghost use Rattle.std.specs.List.{list_all};
ghost use Rattle.blazes_words.specs.Numbers.{AreFew, IsCount};
ghost use Rattle.blazes_words.specs.Numbers as spec;

use std::alloc::{AllocError, Global};

/// The seed where none is given.
pub(crate) const DEFAULT_SEED: u64 = 0;

/// The count of batches where none is given.
pub(crate) const DEFAULT_COUNT: u32 = 64;

/// The greatest count of batches.
pub(crate) const MAX_COUNT: u32 = 3_276;

/// The most bounds by which a component is split.
pub(crate) const MAX_BOUNDS: usize = 7;

const OPTION_DIGITS: usize = 20;

const BOUND_DIGITS: usize = 19;

const PLACE_DIGITS: usize = 10;

fn has_digits(word: &[u8]) -> bool
    ensures { result ≡ list_all is_ascii_digit word.now }
{
    word.iter().all(|byte| byte.is_ascii_digit())
}

fn is_decimal(word: &str, most: usize) -> bool
    ensures { result ≡ spec.is_decimal most word.now }
{
    1 <= word.len() && word.len() <= most && has_digits(word.as_bytes())
}

// The number that a word of at most so many digits is.
fn number_of(word: &str, most: usize) -> Option<u64>
    ensures { result ≡ spec.number_of most word.now }
{
    if !is_decimal(word, most) {
        return None;
    }
    word.parse::<u64>().ok()
}

/// The seed that the value of `--seed` is, or the default.
pub(crate) fn seed_of(value: Option<&str>) -> Option<u64>
    ensures { result ≡ spec.seed_of (option_map (λ word. word.now) value.entry) }
{
    match value {
        Some(word) => number_of(word, OPTION_DIGITS),
        None => Some(DEFAULT_SEED),
    }
}

// The count that a word is.
fn count_in(word: &str) -> Option<u32>
    ensures range { IfSome result IsCount }
    ensures value { result ≡ spec.count_in word.now }
{
    let number = number_of(word, OPTION_DIGITS)?;
    if 1 <= number && number <= MAX_COUNT as u64 {
        Some(number as u32)
    } else {
        None
    }
}

/// The count of batches that the value of `--count` is, or the default.
pub(crate) fn count_of(value: Option<&str>) -> Option<u32>
    ensures range { IfSome result IsCount }
    ensures value { result ≡ spec.count_of (option_map (λ word. word.now) value.entry) }
{
    match value {
        Some(word) => count_in(word),
        None => Some(DEFAULT_COUNT),
    }
}

/// The replica or the index that a word is: 1 to 10 digits below 2^32.
pub(crate) fn place_of(word: &str) -> Option<u32>
    ensures { result ≡ spec.place_of word.now }
{
    let number = number_of(word, PLACE_DIGITS)?;
    u32::try_from(number).ok()
}

// The bound that a word is.
fn bound_of(word: &str) -> Option<i64>
    ensures { result ≡ spec.bound_of word.now }
{
    let number = number_of(word, BOUND_DIGITS)?;
    i64::try_from(number).ok()
}

fn is_increasing(bounds: &[i64]) -> bool
    ensures { result ≡ spec.is_increasing bounds.now }
{
    bounds
        .iter()
        .zip(bounds.iter().skip(1))
        .all(|(bound, next)| *bound < *next)
}

// The bounds that words are, each for itself.
fn bounds_in(alloc: Global, words: &[&str]) -> Result<Option<Vec<i64>>, AllocError>
    ensures each { IfOk result (λ bounds. IfSome bounds (λ bounds. length bounds.items ≡ length words.now)) }
    ensures value { IfOk result (λ bounds. option_map (λ bounds. bounds.items) bounds ≡ spec.bounds_in (map (λ word. word.now) words.now)) }
{
    let mut bounds = Vec::new(alloc);
    for word in words {
        match bound_of(word) {
            Some(bound) => bounds.push(bound)?,
            None => return Ok(None),
        }
    }
    Ok(Some(bounds))
}

/// The bounds that words are: 1 to 7 in increasing order.
pub(crate) fn bounds_of(alloc: Global, words: &[&str]) -> Result<Option<Vec<i64>>, AllocError>
    ensures few { IfOk result (λ bounds. IfSome bounds (λ bounds. AreFew bounds.items)) }
    ensures value { IfOk result (λ bounds. option_map (λ bounds. bounds.items) bounds ≡ spec.bounds_of (map (λ word. word.now) words.now)) }
{
    if words.is_empty() || words.len() > MAX_BOUNDS {
        return Ok(None);
    }
    match bounds_in(alloc, words)? {
        Some(bounds) => if is_increasing(&bounds) {
            Ok(Some(bounds))
        } else {
            Ok(None)
        },
        None => Ok(None),
    }
}
