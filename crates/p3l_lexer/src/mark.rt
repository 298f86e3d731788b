// Keywords and punctuation.

ghost use Rattle.std.specs.Prelude.{◌≡◌};
ghost use Rattle.p3l_lexer.specs.Mark.{mark_text, mark_among, keyword_of, punctuation_of};

use p3l_ast::BinOp;

/// A keyword or a mark of punctuation.
#[derive(Clone, Copy, Debug, Drop, PartialEq, Eq)]
pub enum Mark {
    Seq,
    Pipe,
    Farm,
    Map,
    Reduce,
    Comp,
    Loop,
    End,
    In,
    Out,
    Int,
    Const,
    Workers,
    Turns,
    Tokens,
    Budget,
    Rescue,
    While,
    If,
    Else,
    For,
    /// `${`
    OpenBody,
    /// `}$`
    CloseBody,
    /// `(`
    OpenParen,
    /// `)`
    CloseParen,
    /// `[`
    OpenBracket,
    /// `]`
    CloseBracket,
    /// `{`
    OpenBrace,
    /// `}`
    CloseBrace,
    /// `,`
    Comma,
    /// `;`
    Semicolon,
    /// `=`
    Assign,
    /// `!`
    Bang,
    /// `~`
    Tilde,
    /// The sign of an operator between operands. `-` comes before an operand too, and `*` before
    /// the name of a free index.
    Operator(BinOp),
}

impl Mark {
    /// The text of the mark.
    pub fn text(self) -> &'static str
        ensures { result.now ≡ mark_text self }
    {
        match self {
            Mark::Seq => "seq",
            Mark::Pipe => "pipe",
            Mark::Farm => "farm",
            Mark::Map => "map",
            Mark::Reduce => "reduce",
            Mark::Comp => "comp",
            Mark::Loop => "loop",
            Mark::End => "end",
            Mark::In => "in",
            Mark::Out => "out",
            Mark::Int => "int",
            Mark::Const => "const",
            Mark::Workers => "workers",
            Mark::Turns => "turns",
            Mark::Tokens => "tokens",
            Mark::Budget => "budget",
            Mark::Rescue => "rescue",
            Mark::While => "while",
            Mark::If => "if",
            Mark::Else => "else",
            Mark::For => "for",
            Mark::OpenBody => "${",
            Mark::CloseBody => "}$",
            Mark::OpenParen => "(",
            Mark::CloseParen => ")",
            Mark::OpenBracket => "[",
            Mark::CloseBracket => "]",
            Mark::OpenBrace => "{",
            Mark::CloseBrace => "}",
            Mark::Comma => ",",
            Mark::Semicolon => ";",
            Mark::Assign => "=",
            Mark::Bang => "!",
            Mark::Tilde => "~",
            Mark::Operator(op) => op.sign(),
        }
    }
}

/// The keywords.
const KEYWORDS: [Mark; 21] = [
    Mark::Seq,
    Mark::Pipe,
    Mark::Farm,
    Mark::Map,
    Mark::Reduce,
    Mark::Comp,
    Mark::Loop,
    Mark::End,
    Mark::In,
    Mark::Out,
    Mark::Int,
    Mark::Const,
    Mark::Workers,
    Mark::Turns,
    Mark::Tokens,
    Mark::Budget,
    Mark::Rescue,
    Mark::While,
    Mark::If,
    Mark::Else,
    Mark::For,
];

/// The marks of punctuation that are no operators between operands.
const PUNCTUATION: [Mark; 13] = [
    Mark::OpenBody,
    Mark::CloseBody,
    Mark::OpenParen,
    Mark::CloseParen,
    Mark::OpenBracket,
    Mark::CloseBracket,
    Mark::OpenBrace,
    Mark::CloseBrace,
    Mark::Comma,
    Mark::Semicolon,
    Mark::Assign,
    Mark::Bang,
    Mark::Tilde,
];

/// The mark among these that a text is.
fn find_mark(marks: &[Mark], text: &[u8]) -> Option<Mark>
    ensures { result ≡ mark_among marks.now text.now }
{
    marks
        .iter()
        .copied()
        .find(|mark| mark.text().as_bytes() == text)
}

/// The keyword that a text is.
#[tactic(auto, unfolding(crate::specs::Mark::keyword_of))]
pub fn keyword(text: &[u8]) -> Option<Mark>
    ensures { result ≡ keyword_of text.now }
{
    find_mark(&KEYWORDS, text)
}

/// The mark of punctuation that a text is.
#[tactic(auto, unfolding(crate::specs::Mark::punctuation_of))]
pub fn punctuation(text: &[u8]) -> Option<Mark>
    ensures { result ≡ punctuation_of text.now }
{
    match BinOp::from_sign(text) {
        Some(op) => Some(Mark::Operator(op)),
        None => find_mark(&PUNCTUATION, text),
    }
}
