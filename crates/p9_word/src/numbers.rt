//! Numbers, as they are spelled.

ghost use Rattle.std.specs.Prelude.{◌≡◌};
ghost use Rattle.p9_word.specs.Numbers.{number_of};

/// The number that the digits spell: one or more of them, leading zeros too, with a value below 2 ^ 64.
/// `None` for all other bytes.
pub fn read_number(bytes: &[u8]) -> Option<u64>
    ensures { result ≡ number_of bytes.now }
{
    if bytes.is_empty() {
        return None;
    }
    let mut value = 0u64;
    for b in bytes {
        let digit = match *b {
            b'0'..=b'9' => *b - b'0',
            _ => return None,
        };
        value = match value.checked_mul(10) {
            None => return None,
            Some(tens) => match tens.checked_add(u64::from(digit)) {
                None => return None,
                Some(sum) => sum,
            },
        };
    }
    Some(value)
}
