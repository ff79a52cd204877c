//! Reads a number at the front of a text.
ghost use Rattle.std.specs.Prelude.{◌≡◌, ◌≢◌, ◌+◌, ◌*◌, ◌^◌, ◌<◌, ◌≤◌, ◌++◌, ◌↔◌, ℕ, List, length, IsTrue, IfSome, IfNone, slice_index};
ghost use Rattle.std.specs.Fmt.{decimal};
ghost use Rattle.std.specs.Int.{IsInRange};
ghost use Rattle.batch_script.specs.Front.{HasNoDigitFirst};
ghost use Rattle.batch_script.specs.Reading.{BeginsNumber};

/// The number whose digits stand at the front, with no leading zero, and what follows its last digit.
#[inline(always)]
pub(crate) fn read_number(text: &[u8]) -> Option<(u64, &[u8])>
    ensures some { IfSome result (λ parts. (parts.0 < 2 ^ 64)
        × (text.now ≡ decimal parts.0 ++ parts.1.now)
        × HasNoDigitFirst parts.1.now) }
    ensures none { IfNone result ((number : ℕ) (rest : List ℕ) → number < 2 ^ 64
        → HasNoDigitFirst rest
        → text.now ≢ decimal number ++ rest) }
{
    let mut number = 0u64;
    let mut end = 0;
    while let Some(digit) = digit_at(text, end) {
        number = with_digit(number, digit)?;
        end += 1;
    }
    if !begins_number(&text[..end]) {
        return None;
    }
    Some((number, &text[end..]))
}

/// The number that these digits write, with no sign and no leading zero.
pub(crate) fn whole_number(digits: &[u8]) -> Option<u64>
    ensures some { IfSome result (λ number. (number < 2 ^ 64) × (digits.now ≡ decimal number)) }
    ensures none { IfNone result ((number : ℕ) → number < 2 ^ 64 → digits.now ≢ decimal number) }
{
    let (number, rest) = read_number(digits)?;
    if !rest.is_empty() {
        return None;
    }
    Some(number)
}

/// The number with one digit more behind its others.
#[inline(always)]
fn with_digit(number: u64, digit: u64) -> Option<u64>
    ensures some { IfSome result (λ more. (more ≡ number * 10 + digit) × (more < 2 ^ 64)) }
    ensures none { IfNone result (2 ^ 64 ≤ number * 10 + digit) }
{
    number.checked_mul(10)?.checked_add(digit)
}

/// The value of the digit at this place, if one stands there.
#[inline(always)]
fn digit_at(text: &[u8], place: usize) -> Option<u64>
    ensures some { IfSome result (λ digit. (place < length text.now)
        × IsInRange 48 57 (slice_index text.now place)
        × (slice_index text.now place ≡ 48 + digit)) }
    ensures none { IfNone result (place < length text.now
        → ¬ IsInRange 48 57 (slice_index text.now place)) }
{
    if place < text.len() && text[place].is_ascii_digit() {
        return Some((text[place] - b'0') as u64);
    }
    None
}

/// Whether there is a digit, and no zero before others.
#[inline(always)]
fn begins_number(digits: &[u8]) -> bool
    ensures { IsTrue result ↔ BeginsNumber digits.now }
{
    let leading_zero = digits.len() > 1 && digits[0] == b'0';
    !leading_zero && !digits.is_empty()
}
