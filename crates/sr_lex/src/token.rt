use sr_base::Text;

/// A token of a script, with the bytes `start` to `end` of its text.
#[derive(Drop)]
pub struct Token {
    pub kind: TokenKind,
    pub start: usize,
    pub end: usize,
}

/// What a token is. Which word or sign it is, its bytes say; a number and a text are given by their values.
#[derive(Drop)]
pub enum TokenKind {
    /// A letter or `_`, then letters, digits and `_`; at most 64 bytes.
    Word,
    /// A whole number of at most 9223372036854775807.
    Number(i64),
    /// The number 9223372036854775808, which has a value only behind a `-`.
    TopNumber,
    /// A text in quotes, each quote in it twice; this is the text meant.
    Str(Text),
    /// One of `( ) , ; . + - * = < > <= >= <>`.
    Sign,
}
