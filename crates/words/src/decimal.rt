// Words as decimal numbers.
ghost use Rattle.std.specs.Prelude.{◌≡◌, Some};
ghost use Rattle.words.specs.Decimal.{decimal, signed, longer, negative};

// The number that a word writes; none, if it is no run of digits or takes more than eight bytes.
pub fn number(word: &[u8]) -> Option<u64>
    ensures { result ≡ decimal word.now }
{
    if word.is_empty() {
        return None;
    }
    let mut n = 0;
    for c in word {
        n = with_digit(n, *c)?;
    }
    Some(n)
}

fn with_digit(n: u64, c: u8) -> Option<u64>
    ensures { result ≡ longer n c }
{
    match c {
        b'0'..=b'9' => n.checked_mul(10)?.checked_add(u64::from(c - b'0')),
        _ => None,
    }
}

// The same with a `-` allowed in front, in two's complement.
pub fn signed_number(word: &[u8]) -> Option<i64>
    ensures { result ≡ signed word.now }
{
    match word {
        [b'-', digits @ ..] => below_zero(number(digits)?),
        _ => i64::try_from(number(word)?).ok(),
    }
}

fn below_zero(n: u64) -> Option<i64>
    ensures { result ≡ negative (Some n) }
{
    i64::try_from(-i128::from(n)).ok()
}
