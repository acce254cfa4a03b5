ghost use Rattle.std.specs.Prelude.{◌≡◌, ◌+◌, min, IfOk};
ghost use Rattle.std.specs.List.{list_all};
ghost use Rattle.ch_lex.specs.Bytes.{is_digit, number_of};
ghost use Rattle.ch_words.specs.Numbers.{natural_of, whole_of, wholes_of};

use ch_affine::List;
use std::alloc::{AllocError, Global};

/// The largest magnitude of a value in `--at`.
pub const LARGEST_VALUE: u32 = 1_048_576;

/// The most builders that `run` takes.
pub const MOST_BUILDERS: u32 = 8;

/// The largest number of a deck of `demo`.
pub const LARGEST_NUMBER: u32 = u32::MAX;

fn is_digit(b: u8) -> bool
    ensures { result ≡ is_digit b }
{
    b'0' <= b && b <= b'9'
}

fn are_digits(text: &[u8]) -> bool
    ensures { result ≡ list_all is_digit text.now }
{
    text.iter().all(|b| is_digit(*b))
}

/// The number that the digits write, or `most + 1` where it is larger.
fn capped(most: u32, digits: &[u8]) -> u64
    ensures { result ≡ min (number_of digits.now) (most + 1) }
{
    let past = u64::from(most) + 1;
    let mut number = 0;
    for digit in digits {
        number = (number * 10 + u64::from(digit.saturating_sub(b'0'))).min(past);
    }
    number
}

/// The number of at most `most` that the text writes in decimal digits alone, with any zeros before
/// it.
pub fn natural_of(most: u32, text: &[u8]) -> Option<u32>
    ensures { result ≡ natural_of most text.now }
{
    if text.is_empty() || !are_digits(text) {
        return None;
    }
    let number = capped(most, text);
    if number > u64::from(most) {
        return None;
    }
    Some(number as u32)
}

/// The number of magnitude at most `LARGEST_VALUE` that the text writes, with one `-` before it
/// where it is negative.
pub fn whole_of(text: &[u8]) -> Option<i64>
    ensures { result ≡ whole_of text.now }
{
    let [b'-', digits @ ..] = text else {
        return natural_of(LARGEST_VALUE, text).map(i64::from);
    };
    let number = natural_of(LARGEST_VALUE, digits)?;
    if number == 0 {
        return None;
    }
    Some(-i64::from(number))
}

/// The numbers that the text has between its commas.
pub fn wholes_of(alloc: Global, text: &str) -> Result<Option<List<i64>>, AllocError>
    ensures { IfOk result (λ numbers. numbers ≡ wholes_of text.now) }
{
    let mut numbers = List::new(alloc);
    for part in text.split(',') {
        let Some(number) = whole_of(part.as_bytes()) else {
            return Ok(None);
        };
        numbers.push(number)?;
    }
    Ok(Some(numbers))
}
