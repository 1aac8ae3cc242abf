// What is read: the words of a tree, and the text that its spans are of.
#[derive(Clone, Copy)]
pub(crate) struct Source<'a> {
    pub words: &'a [u32],
    pub text: &'a [u8],
}
