//! Digits as numbers.

ghost use Rattle.std.specs.Prelude.{◌≡◌, ◌<◌, ◌≤◌, ◌*◌, IsTrue};
ghost use Rattle.tick_time.specs.MomentReading.{is_digit, digit_value, pair_value, is_pair_below};

/// Whether a byte is a digit.
pub fn is_digit(byte: u8) -> bool
    ensures { result ≡ is_digit byte }
{
    byte >= b'0' && byte <= b'9'
}

/// The number that a digit spells.
pub fn digit_value(byte: u8) -> u64
    requires { IsTrue (is_digit byte) }
    ensures value { result ≡ digit_value byte }
    ensures bound { result < 10 }
{
    (byte - b'0') as u64
}

/// The number that two digits spell.
pub fn pair_value(a: u8, b: u8) -> u64
    requires a { IsTrue (is_digit a) }
    requires b { IsTrue (is_digit b) }
    ensures value { result ≡ pair_value a b }
    ensures bound { result < 100 }
{
    digit_value(a) * 10 + digit_value(b)
}

/// Whether two bytes are digits that spell a number below this one.
pub fn is_pair_below(limit: u64, a: u8, b: u8) -> bool
    ensures { result ≡ is_pair_below limit a b }
{
    is_digit(a) && is_digit(b) && pair_value(a, b) < limit
}
