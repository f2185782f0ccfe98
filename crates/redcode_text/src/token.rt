//! Tokens, their bytes in the source, and the signs that bytes form.
ghost use Rattle.std.specs.Prelude.{◌≡◌, [], ◌∷◌};
ghost use Rattle.redcode_text.specs.Tokens.{look_up, one_byte_signs, two_byte_signs};
ghost use Rattle.redcode_text.specs.Spans.{first_span, last_span, span_of};

/// A sign: an operator or punctuation mark of one or two bytes.
#[derive(Clone, Copy, Debug, PartialEq, Eq)]
pub enum Sign {
    /// `==`
    Equal,
    /// `!=`
    NotEqual,
    /// `<=`
    LessEqual,
    /// `>=`
    GreaterEqual,
    /// `&&`
    And,
    /// `||`
    Or,
    /// `+`
    Plus,
    /// `-`
    Minus,
    /// `*`
    Star,
    /// `/`
    Slash,
    /// `%`
    Percent,
    /// `!`
    Bang,
    /// `<`
    Less,
    /// `>`
    Greater,
    /// `(`
    OpenParen,
    /// `)`
    CloseParen,
    /// `,`
    Comma,
    /// `.`
    Dot,
    /// `:`
    Colon,
    /// `#`
    Hash,
    /// `$`
    Dollar,
    /// `@`
    At,
    /// `{`
    OpenBrace,
    /// `}`
    CloseBrace,
}

/// The kind of a token.
#[derive(Clone, Copy, Debug, PartialEq, Eq)]
pub enum TokenKind {
    /// A number. It is never negative, because a minus sign is a token of its own.
    Number(i64),
    /// A name, by its index among the names in the order of their first use.
    Name(usize),
    /// A sign of one or two bytes.
    Sign(Sign),
}

/// A token, with its position.
#[derive(Clone, Copy, Debug, PartialEq, Eq)]
pub struct Token {
    pub kind: TokenKind,
    /// The line number, from 1 for the first line of the file. In the lines of a program, a token that comes from EQU has
    /// the number of the line that uses the name.
    pub line: usize,
    /// The offset of the token's first byte in the source. The token has the bytes up to, but excluding, `to`.
    pub from: usize,
    pub to: usize,
}

/// A range of bytes of a source, from `from` up to, but excluding, `to`.
#[derive(Clone, Copy, Debug, PartialEq, Eq)]
pub struct Span {
    pub from: usize,
    pub to: usize,
}

impl Token {
    /// Returns the token's bytes in the source.
    pub fn span(&self) -> Span
        ensures { result ≡ span_of self.now }
    {
        Span {
            from: self.from,
            to: self.to,
        }
    }
}

/// Returns the bytes of the first of `tokens`, if there is one.
pub fn first_span(tokens: &[Token]) -> Option<Span>
    ensures { result ≡ first_span tokens.now }
{
    match tokens {
        [first, ..] => Some(first.span()),
        [] => None,
    }
}

/// Returns the bytes of the last of `tokens`, or `before` if there are no tokens.
pub fn last_span(before: Option<Span>, tokens: &[Token]) -> Option<Span>
    ensures { result ≡ last_span before tokens.now }
{
    match tokens.last() {
        Some(last) => Some(last.span()),
        None => before,
    }
}

/// The token at the start of a text, and its number of bytes.
#[derive(Clone, Copy)]
pub struct Spelled {
    pub kind: TokenKind,
    pub len: usize,
}

/// Returns the sign that two bytes form, if they form one.
pub fn two_byte_sign(first: u8, second: u8) -> Option<Sign>
    ensures { result ≡ look_up two_byte_signs (first ∷ second ∷ []) }
{
    match (first, second) {
        (b'=', b'=') => Some(Sign::Equal),
        (b'!', b'=') => Some(Sign::NotEqual),
        (b'<', b'=') => Some(Sign::LessEqual),
        (b'>', b'=') => Some(Sign::GreaterEqual),
        (b'&', b'&') => Some(Sign::And),
        (b'|', b'|') => Some(Sign::Or),
        _ => None,
    }
}

/// Returns the sign that one byte forms, if it forms one.
pub fn one_byte_sign(byte: u8) -> Option<Sign>
    ensures { result ≡ look_up one_byte_signs (byte ∷ []) }
{
    match byte {
        b'+' => Some(Sign::Plus),
        b'-' => Some(Sign::Minus),
        b'*' => Some(Sign::Star),
        b'/' => Some(Sign::Slash),
        b'%' => Some(Sign::Percent),
        b'!' => Some(Sign::Bang),
        b'<' => Some(Sign::Less),
        b'>' => Some(Sign::Greater),
        b'(' => Some(Sign::OpenParen),
        b')' => Some(Sign::CloseParen),
        b',' => Some(Sign::Comma),
        b'.' => Some(Sign::Dot),
        b':' => Some(Sign::Colon),
        b'#' => Some(Sign::Hash),
        b'$' => Some(Sign::Dollar),
        b'@' => Some(Sign::At),
        b'{' => Some(Sign::OpenBrace),
        b'}' => Some(Sign::CloseBrace),
        _ => None,
    }
}
