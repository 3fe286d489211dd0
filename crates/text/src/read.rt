// Reading a number.
ghost use Rattle.std.specs.Prelude.{◌≡◌, ◌≤◌, length, take, MatchOption};
ghost use Rattle.std.specs.List.{prefix_len};
ghost use Rattle.std.specs.Char.{is_ascii_digit};
ghost use Rattle.std.specs.Str.Parse.{AllDigits, digits_value};
ghost use Rattle.text.specs.Numerals.{Begins, BeginsNone};

// How many digits a number has at the most.
const DIGITS: usize = 10;

// How many digits a text begins with.
fn count_digits(text: &[u8]) -> usize
    ensures { result ≡ prefix_len is_ascii_digit text.now }
{
    text.iter().take_while(|byte| byte.is_ascii_digit()).count()
}

// A text as far as it must be read to see that a number is too long.
fn front(text: &[u8]) -> &[u8]
    ensures { result.now ≡ take 11 text.now }
{
    text.get(..DIGITS + 1).unwrap_or(text)
}

// The value of a few digits.
fn value(digits: &[u8]) -> u64
    requires few { length digits.now ≤ 10 }
    requires digits { AllDigits 10 digits.now }
    ensures { result ≡ digits_value 10 digits.now }
{
    let mut n = 0;
    for digit in digits {
        n = 10 * n + u64::from(*digit - b'0');
    }
    n
}

// Reads the number of at most ten digits that a text begins with, and answers it with the text after it.
pub fn read_number(text: &[u8]) -> Option<(u64, &[u8])>
    ensures { MatchOption result (BeginsNone text.now) (λ r. Begins text.now r.0 r.1.now) }
{
    let (digits, rest) = text.split_at(count_digits(front(text)));
    let first = *digits.first()?;
    if digits.len() > DIGITS {
        return None;
    }
    if first == b'0' && digits.len() > 1 {
        return None;
    }
    Some((value(digits), rest))
}
