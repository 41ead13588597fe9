//! What kind of byte it is.

ghost use Rattle.std.specs.Prelude.{◌≡◌, slice_index};
ghost use Rattle.query_tokens.specs.Bytes.{is_blank, is_in_line, is_digit, is_word_start, is_word_byte, ends_name, is_long_sign, is_short_sign};

/// The first byte of a text, or 0 where there is none.
pub fn first_or_zero(text: &[u8]) -> u8
    ensures { result ≡ slice_index text.now 0 }
{
    match text.first() {
        Some(byte) => *byte,
        None => 0,
    }
}

pub fn is_blank(byte: u8) -> bool
    ensures { result ≡ is_blank byte }
{
    matches!(byte, b' ' | b'\t' | b'\r' | b'\n')
}

pub fn is_in_line(byte: u8) -> bool
    ensures { result ≡ is_in_line byte }
{
    byte != b'\n'
}

pub fn is_digit(byte: u8) -> bool
    ensures { result ≡ is_digit byte }
{
    byte.is_ascii_digit()
}

pub fn is_word_start(byte: u8) -> bool
    ensures { result ≡ is_word_start byte }
{
    byte.is_ascii_alphabetic() || byte == b'_'
}

pub fn is_word_byte(byte: u8) -> bool
    ensures { result ≡ is_word_byte byte }
{
    byte.is_ascii_alphanumeric() || byte == b'_'
}

pub fn ends_name(byte: u8, next: u8) -> bool
    ensures { result ≡ ends_name byte next }
{
    byte == b']' || byte <= 0x1f || byte == 0x7f || (byte == 0xc2 && next <= 0x9f)
}

pub fn is_long_sign(byte: u8, next: u8) -> bool
    ensures { result ≡ is_long_sign byte next }
{
    matches!((byte, next), (b'<', b'>' | b'=') | (b'!' | b'>', b'='))
}

pub fn is_short_sign(byte: u8) -> bool
    ensures { result ≡ is_short_sign byte }
{
    matches!(byte, b'('..=b'/' | b'%' | b';'..=b'>')
}
