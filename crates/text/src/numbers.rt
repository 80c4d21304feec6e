// Numbers of 32 bits, written in decimal digits.
ghost use Rattle.std.specs.Prelude.{◌≡◌};
ghost use Rattle.text.specs.Numbers.{digit_of, number_of};

#[derive(Clone, Copy, PartialEq, Eq, Debug)]
pub enum NumberFault {
    NotANumber,
    OverLimit,
}

// The least number over the limit.
const PAST: u64 = 1 << 32;

fn digit_value(b: u8) -> Result<u64, NumberFault>
    ensures { result ≡ digit_of b }
{
    match b {
        b'0'..=b'9' => Ok(u64::from(b - b'0')),
        _ => Err(NumberFault::NotANumber),
    }
}

// The number that the word writes. A byte that is no digit counts before a number that is too large.
pub fn number(word: &[u8]) -> Result<u32, NumberFault>
    ensures { result ≡ number_of word.now }
{
    if word.is_empty() {
        return Err(NumberFault::NotANumber);
    }
    let mut value = 0;
    // A loop: `value` stays bounded from digit to digit, and `try_fold` takes no invariant that says so.
    for b in word {
        // Once over the limit the value stays there, whatever digits follow.
        value = (value * 10 + digit_value(*b)?).min(PAST);
    }
    u32::try_from(value).map_err(|_| NumberFault::OverLimit)
}

#[cfg(test)]
mod tests {
    use super::*;

    #[test]
    fn limits(rt: HostRuntime) {
        assert_eq!(rt; number(b"004294967295"), Ok(4294967295));
        assert_eq!(rt; number(b"4294967296"), Err(NumberFault::OverLimit));
        assert_eq!(rt;
            number(b"99999999999999999999x"),
            Err(NumberFault::NotANumber)
        );
    }
}
