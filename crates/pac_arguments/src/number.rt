// Numbers as arguments spell them.
ghost use Rattle.std.specs.Prelude.{◌≡◌, ◌≤◌, true, length};
ghost use Rattle.std.specs.List.{list_all};
ghost use Rattle.pac_arguments.specs.Numbers.{is_decimal, digits_number, spelled_number, number_up_to};

// The number that at most eight digits are.
fn digits_number(digits: &[u8]) -> u32
    requires few { length digits.now ≤ 8 }
    requires digits { list_all is_decimal digits.now ≡ true }
    ensures { result ≡ digits_number digits.now }
{
    let mut number: u32 = 0;
    for digit in digits {
        number = number * 10 + u32::from(*digit - b'0');
    }
    number
}

fn are_digits(text: &[u8]) -> bool
    ensures { result ≡ list_all is_decimal text.now }
{
    text.iter().all(|byte| b'0' <= *byte && *byte <= b'9')
}

// The number that one to eight digits are.
fn spelled_number(text: &[u8]) -> Option<u32>
    ensures { result ≡ spelled_number text.now }
{
    if text.is_empty() || text.len() > 8 || !are_digits(text) {
        return None;
    }
    Some(digits_number(text))
}

/// The same, where it is from 1 on, and no more than this.
pub(crate) fn number_up_to(text: &[u8], most: u32) -> Option<u32>
    ensures { result ≡ number_up_to most text.now }
{
    let number = spelled_number(text)?;
    if number < 1 || most < number {
        return None;
    }
    Some(number)
}
