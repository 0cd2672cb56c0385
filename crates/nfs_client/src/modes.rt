//! Modes as octal digits.
ghost use Rattle.std.specs.Prelude.{◌≡◌, ◌+◌, ◌%◌, ◌<◌, ◌≤◌, IfSome};
ghost use Rattle.nfs_client.specs.Digits.{octal_in, four_in, mode_in, mode_digits};

/// The value of an octal digit.
fn octal(byte: u8) -> Option<u32>
    ensures value { result ≡ octal_in byte }
    ensures small { IfSome result (λ d. d < 8) }
{
    match byte {
        b'0'..=b'7' => Some(u32::from(byte - b'0')),
        _ => None,
    }
}

/// The value of four octal digits.
fn four(a: u8, b: u8, c: u8, d: u8) -> Option<u32>
    ensures value { result ≡ four_in a b c d }
    ensures small { IfSome result (λ mode. mode < 4096) }
{
    let a = octal(a)?;
    let b = octal(b)?;
    let c = octal(c)?;
    let d = octal(d)?;
    Some(((a * 8 + b) * 8 + c) * 8 + d)
}

/// The mode of a word of one to four octal digits.
pub fn read_mode(word: &[u8]) -> Option<u32>
    ensures value { result ≡ mode_in word.now }
    ensures small { IfSome result (λ mode. mode < 4096) }
{
    match word {
        [d] => four(b'0', b'0', b'0', *d),
        [c, d] => four(b'0', b'0', *c, *d),
        [b, c, d] => four(b'0', *b, *c, *d),
        [a, b, c, d] => four(*a, *b, *c, *d),
        _ => None,
    }
}

/// The lowest twelve bits of a mode, as four octal digits.
pub fn mode_text(mode: u32) -> [u8; 4]
    ensures { result ≡ mode_digits mode }
{
    let digit = |n: u32| -> u8
        ensures { result ≡ 48 + n % 8 }
    { b'0' + (n % 8) as u8 };
    [
        digit(mode / 512),
        digit(mode / 64),
        digit(mode / 8),
        digit(mode),
    ]
}
