//! The digits of a number, written from the last to the first.
ghost use Rattle.std.specs.Prelude.{◌≡◌, ◌+◌, ◌/◌, ◌%◌, ◌<◌, ◌≤◌, ◌∷◌, ◌++◌, length, drop};
ghost use Rattle.std.specs.Fmt.{decimal};

/// How many digits the greatest number has.
pub(crate) const MOST_DIGITS: usize = 20;

/// The digits of the numbers below 100, two each.
static PAIRS: [u8; 200] = *b"0001020304050607080910111213141516171819\
2021222324252627282930313233343536373839\
4041424344454647484950515253545556575859\
6061626364656667686970717273747576777879\
8081828384858687888990919293949596979899";

/// Writes the digits of a number so that they end before `end`, and returns where they start.
#[inline]
pub(crate) fn write_digits(number: u64, digits: &mut [u8], end: usize) -> usize
    requires room { MOST_DIGITS ≤ end }
    requires inside { end ≤ length digits.old }
    ensures within { result ≤ end }
    ensures written { drop result digits.new ≡ decimal number ++ drop end digits.old }
{
    let mut left = number;
    let mut start = end;
    while left >= 100 {
        start -= 2;
        write_pair(left % 100, digits, start);
        left /= 100;
    }
    write_front(left, digits, start)
}

/// Writes a number of one digit or two so that it ends before `end`, and returns where it starts.
#[inline(always)]
fn write_front(number: u64, digits: &mut [u8], end: usize) -> usize
    requires number { number < 100 }
    requires room { length (decimal number) ≤ end }
    requires inside { end ≤ length digits.old }
    ensures within { result ≤ end }
    ensures written { drop result digits.new ≡ decimal number ++ drop end digits.old }
{
    if number >= 10 {
        write_pair(number, digits, end - 2);
        return end - 2;
    }
    digits[end - 1] = b'0' + number as u8;
    end - 1
}

/// Writes the two digits of a number below 100, a leading zero among them.
#[inline(always)]
fn write_pair(number: u64, digits: &mut [u8], start: usize)
    requires number { number < 100 }
    requires inside { start + 2 ≤ length digits.old }
    ensures written { drop start digits.new
        ≡ (48 + number / 10) ∷ (48 + number % 10) ∷ drop (start + 2) digits.old }
{
    let place = number as usize * 2;
    digits[start] = PAIRS[place];
    digits[start + 1] = PAIRS[place + 1];
}
