//! Splits a text at the first or the last byte with a given value.
ghost use Rattle.std.specs.Prelude.{◌≡◌, option_map};
ghost use Rattle.acl_words.specs.Fields as specs;

/// Returns what precedes and what follows the first byte with this value.
pub(crate) fn split_at(text: &[u8], byte: u8) -> Option<(&[u8], &[u8])>
    ensures { option_map (λ parts. (parts.0.now, parts.1.now)) result ≡ specs.split_at byte text.now }
{
    for (place, here) in text.iter().enumerate() {
        if *here == byte {
            return Some((&text[..place], &text[place + 1..]));
        }
    }
    None
}

/// Returns what precedes and what follows the last byte with this value.
pub(crate) fn split_at_last(text: &[u8], byte: u8) -> Option<(&[u8], &[u8])>
    ensures { option_map (λ parts. (parts.0.now, parts.1.now)) result ≡ specs.split_at_last byte text.now }
{
    let mut end = text.len();
    while end > 0 {
        if text[end - 1] == byte {
            return Some((&text[..end - 1], &text[end..]));
        }
        end -= 1;
    }
    None
}
