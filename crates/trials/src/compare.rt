// Whether a buffer has what it should have.
use refusals::refusal::Refusal;

// Whether every word is w.
pub(crate) fn all_are<T: Copy + PartialEq>(words: &[T], w: T) -> bool {
    words.iter().all(|word| *word == w)
}

// Whether a call that was to have this fault kept every word as it was, 7. Acceptance does not, and neither does 10.
pub(crate) fn kept(fault: Option<Refusal>, words: &[u32]) -> bool {
    matches!(fault, None | Some(Refusal::ShortPrint)) || all_are(words, 7)
}

// The same of the print buffer, which 10 keeps too.
pub(crate) fn kept_print(fault: Option<Refusal>, bytes: &[u8]) -> bool {
    fault.is_none() || all_are(bytes, 7)
}
