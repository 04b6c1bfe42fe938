// Numbers that words write.

ghost use Rattle.std.specs.Prelude.{◌≡◌};
ghost use Rattle.std.specs.Str.{all_ascii_digits};
ghost use Rattle.cc_flags.specs.Numbers as numbers;

// The greatest whole number of the language.
const MOST_WHOLE: u64 = 9_007_199_254_740_991;

/// Whether the text is a decimal without a sign and without a leading zero.
pub(crate) fn is_decimal(text: &str) -> bool
    ensures { result ≡ numbers.is_decimal text.now }
{
    let digits = text.as_bytes();
    if digits.is_empty() || has_leading_zero(digits) {
        return false;
    }
    are_digits(digits)
}

fn has_leading_zero(digits: &[u8]) -> bool
    ensures { result ≡ numbers.has_leading_zero digits.now }
{
    digits.len() > 1 && digits[0] == b'0'
}

fn are_digits(bytes: &[u8]) -> bool
    ensures { result ≡ all_ascii_digits bytes.now }
{
    bytes.iter().all(|byte| byte.is_ascii_digit())
}

/// The number of a decimal, where it lies between these two.
pub(crate) fn decimal_within(text: &str, least: u64, most: u64) -> Option<u64>
    ensures { result ≡ numbers.within least most (numbers.decimal text.now) }
{
    if !is_decimal(text) {
        return None;
    }
    let number = text.parse::<u64>().ok()?;
    if least <= number && number <= most {
        Some(number)
    } else {
        None
    }
}

/// A whole number of the language, with a `-` before it where it is below 0.
pub(crate) fn whole(text: &str) -> Option<i64>
    ensures { result ≡ numbers.whole text.now }
{
    match text.strip_prefix('-') {
        Some(digits) => {
            let number = decimal_within(digits, 1, MOST_WHOLE)?;
            Some(-(number as i64))
        }
        None => {
            let number = decimal_within(text, 0, MOST_WHOLE)?;
            Some(number as i64)
        }
    }
}
