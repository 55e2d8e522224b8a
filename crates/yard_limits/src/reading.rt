// Reading the text of the cases: its words and numbers.
// A step that cannot be read.
#[derive(Clone, Copy)]
pub(super) struct Unreadable;

// The text from its first byte on that is no space.
pub(super) fn trimmed(text: &[u8]) -> &[u8] {
    match text.iter().position(|b| *b != b' ') {
        Some(at) => &text[at..],
        None => &[],
    }
}

// The first word, and what follows it.
pub(super) fn first_word(text: &[u8]) -> (&[u8], &[u8]) {
    let word = trimmed(text);
    match word.iter().position(|b| *b == b' ') {
        Some(end) => word.split_at(end),
        None => (word, &[]),
    }
}

// A digit's value; capital letters are no digits.
fn digit(b: u8, hex: bool) -> Option<u32> {
    match b {
        b'0'..=b'9' => Some(u32::from(b - b'0')),
        b'a'..=b'f' if hex => Some(u32::from(b - b'a') + 10),
        _ => None,
    }
}

// The number with these digits.
fn unsigned(digits: &[u8], hex: bool) -> Option<u32> {
    let base = if hex { 16 } else { 10 };
    let mut sum = 0u32;
    for b in digits {
        sum = sum.checked_mul(base)?.checked_add(digit(*b, hex)?)?;
    }
    Some(sum)
}

// The same with a sign: a number below 0 as its 32 bits.
fn signed(word: &[u8], hex: bool) -> Option<u32> {
    match word {
        [b'-', digits @ ..] => match unsigned(digits, hex)? {
            n @ 1..=0x8000_0000 => Some(n.wrapping_neg()),
            _ => None,
        },
        _ => unsigned(word, hex),
    }
}

// The numbers of a part of the text, all but the first in hexadecimal where hex says so; none where one of them cannot be read or there are more than 32.
pub(super) fn parse<'a>(text: &[u8], hex: bool, buffer: &'a mut [u32; 32]) -> Option<&'a [u32]> {
    // n counts the words that are numbers, not the turns
    let mut n = 0;
    for word in text.split(|b| *b == b' ') {
        if !word.is_empty() {
            *buffer.get_mut(n)? = signed(word, hex && n > 0)?;
            n += 1;
        }
    }
    buffer.get(..n)
}
