// Sets of faults: a set's faults are the binary digits of its number.
use refusals::refusal::Refusal;

// The first fault of a set.
pub(crate) fn first_fault(set: usize, faults: &[Refusal]) -> Option<Refusal> {
    faults.get(set.trailing_zeros() as usize).copied()
}

pub(crate) fn cond(fault: usize, with: u32, without: u32) -> u32 {
    if fault % 2 == 1 { with } else { without }
}

// `a b` and further bytes, the first of them 200 for refusal 2.
pub(crate) fn text_of(set: usize) -> [u8; 4097] {
    let mut text = [b'a'; 4097];
    if set / 2 % 2 == 1 {
        text[0] = 200;
    }
    text[1] = b' ';
    text
}

// The whole text for refusal 1, else three bytes.
pub(crate) fn first_bytes(text: &[u8; 4097], fault: usize) -> &[u8] {
    if fault % 2 == 1 { text } else { &text[..3] }
}

// All words but the last one if there is this fault.
pub(crate) fn cut<T>(words: &mut [T], set: usize, fault: usize) -> &mut [T] {
    let n = if set & fault == 0 {
        words.len()
    } else {
        words.len().saturating_sub(1)
    };
    &mut words[..n]
}
