//! Numbers among a command's words.

ghost use Rattle.std.specs.Prelude.{◌≡◌, ◌≤◌, true, length, IfSome};
ghost use Rattle.std.specs.List.{list_all};
ghost use Rattle.command_line.specs.Lent.{lent_words};
ghost use Rattle.command_line.specs.Numbers.{bounded_number, digits_behind, is_decimal_digit, is_number_word, number_of_digits, number_of_word, one_number, seed_of_word};

/// Whether a byte is a decimal digit.
fn is_decimal_digit(byte: u8) -> bool
    ensures { result ≡ is_decimal_digit byte }
{
    byte >= b'0' && byte <= b'9'
}

/// Whether all bytes are decimal digits.
fn are_digits(word: &[u8]) -> bool
    ensures { result ≡ list_all is_decimal_digit word.now }
{
    word.iter().all(|byte| is_decimal_digit(*byte))
}

/// Whether a word is one decimal digit or more, but no more than so many.
fn is_number_word(most: usize, word: &[u8]) -> bool
    ensures { result ≡ is_number_word most word.now }
{
    if word.is_empty() {
        return false;
    }
    if word.len() > most {
        return false;
    }
    are_digits(word)
}

/// The number of at most nineteen digits.
fn digits_number(digits: &[u8]) -> u64
    requires short { length digits.now ≤ 19 }
    requires digits { list_all is_decimal_digit digits.now ≡ true }
    ensures { result ≡ digits_behind 0 digits.now }
{
    let mut number = 0;
    for digit in digits {
        number = 10 * number + u64::from(*digit - b'0');
    }
    number
}

/// The number that a word of so many digits at most is.
fn number_of_digits(most: usize, word: &[u8]) -> Option<u64>
    requires { most ≤ 19 }
    ensures { result ≡ number_of_digits most word.now }
{
    if !is_number_word(most, word) {
        return None;
    }
    Some(digits_number(word))
}

/// The number that a word is.
pub(crate) fn number_of_word(word: &str) -> Option<u64>
    ensures { result ≡ number_of_word word.now }
{
    number_of_digits(10, word.as_bytes())
}

/// The seed that a word is.
pub(crate) fn seed_of_word(word: &str) -> Option<u64>
    ensures { result ≡ seed_of_word word.now }
{
    number_of_digits(19, word.as_bytes())
}

/// The number within bounds that a word is.
pub(crate) fn bounded_number(least: u64, most: u64, word: &str) -> Option<u64>
    ensures is { result ≡ bounded_number least most word.now }
    ensures within { IfSome result (λ number. number ≤ most) }
{
    let number = number_of_word(word)?;
    if number < least {
        return None;
    }
    if number > most {
        return None;
    }
    Some(number)
}

/// The number within bounds that one word alone is.
pub(crate) fn one_number(least: u64, most: u64, words: &[&str]) -> Option<u64>
    ensures is { result ≡ one_number least most (lent_words words.now) }
    ensures within { IfSome result (λ number. number ≤ most) }
{
    match words {
        [word] => bounded_number(least, most, word),
        _ => None,
    }
}
