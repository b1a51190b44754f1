//! The sorts of tokens, and the forms of the pieces of a line. (MACRO-11 Language Reference Manual, "Symbols and expressions" and
//! "Character set".)

/// The sort of a token.
#[derive(Clone, Copy, PartialEq, Eq, Default)]
pub enum Sort {
    /// Letters, digits, `$` and `.`, not beginning with a digit: a symbol, an operator, or the location counter `.`.
    #[default]
    Name,
    /// Digits.
    Number,
    /// Digits with a dot directly after them.
    DecimalNumber,
    /// Digits with a `$` directly after them.
    LocalSymbol,
    /// `'` and the character after it, if there is one.
    Character,
    /// `"` and the two characters after it, or as many as there are.
    TwoCharacters,
    /// `^R` and the letters, digits, `$` and `.` directly after it.
    Packed,
    /// `^B`
    BinaryRadix,
    /// `^O`
    OctalRadix,
    /// `^D`
    DecimalRadix,
    /// `^C`
    Complement,
    /// `+`
    Plus,
    /// `-`
    Minus,
    /// `*`
    Times,
    /// `/`
    Over,
    /// `&`
    And,
    /// `!`
    Or,
    /// `<`
    Less,
    /// `>`
    Greater,
    /// `%`
    Percent,
    /// `#`
    NumberSign,
    /// `@`
    At,
    /// `(`
    Open,
    /// `)`
    Close,
    /// `,`
    Comma,
    /// `:`
    Colon,
    /// `::`
    TwoColons,
    /// `=`
    Equals,
    /// `==`
    TwoEquals,
}

/// The form of a piece of a line.
#[derive(Clone, Copy, PartialEq, Eq)]
pub enum Form {
    /// A token.
    Cut(Sort),
    /// A blank or a tab.
    Blank,
    /// `;` and everything after it.
    Comment,
    /// A character that begins no token.
    Skipped,
}
