// The nesting of a body: its open brackets, and the operators of the expression that goes on.

ghost use Rattle.std.specs.Prelude.{◌≡◌, ◌<◌, ◌≤◌, ◌↔◌, suc, length, take, IsTrue, IfSome, IfNone};
ghost use Rattle.p3l_grammar.specs.Symbol.{symbol, symbols};
ghost use Rattle.p3l_grammar.specs.Limits.{role_of, at_rest, at_statement, at_part, after_semicolon, after_bracket, after_role, before_body, after_symbol, nest_after, IsKept, IsPast, IsWithin};

use p3l_lexer::{Lexeme, Mark, TextToken};

/// The effect of a mark on the nesting of a body.
#[derive(Clone, Copy, Debug, Drop, PartialEq, Eq)]
pub enum Role {
    OpenBody,
    CloseBody,
    OpenBracket,
    OpenParen,
    /// A closing bracket or parenthesis.
    Close,
    OpenBrace,
    CloseBrace,
    Semicolon,
    Assign,
    /// An `if` or a `while`, after which a condition comes.
    Test,
    For,
    Operator,
    Other,
}

/// The effect of a mark on the nesting of a body.
pub fn role_of(mark: Mark) -> Role
    ensures { result ≡ role_of mark }
{
    match mark {
        Mark::OpenBody => Role::OpenBody,
        Mark::CloseBody => Role::CloseBody,
        Mark::OpenBracket => Role::OpenBracket,
        Mark::OpenParen => Role::OpenParen,
        Mark::CloseBracket => Role::Close,
        Mark::CloseParen => Role::Close,
        Mark::OpenBrace => Role::OpenBrace,
        Mark::CloseBrace => Role::CloseBrace,
        Mark::Semicolon => Role::Semicolon,
        Mark::Assign => Role::Assign,
        Mark::If => Role::Test,
        Mark::While => Role::Test,
        Mark::For => Role::For,
        Mark::Operator(_) => Role::Operator,
        Mark::Bang => Role::Operator,
        Mark::Tilde => Role::Operator,
        _ => Role::Other,
    }
}

/// The nesting after some tokens; outside bodies nothing is counted. An expression with all its parts is
/// one, and each index of a target that is assigned is an expression of its own.
#[derive(Clone, Copy, Debug, Drop, PartialEq, Eq)]
pub struct Nest {
    /// True if a body is open.
    pub in_body: bool,
    /// Its open brackets.
    pub brackets: usize,
    /// The semicolons that the head of a `for` still needs.
    pub wanted: usize,
    /// True if an expression goes on up to a mark of its statement.
    pub in_term: bool,
    /// If not, how many brackets are open outside the indices of the target.
    pub base: usize,
    /// The operators of the expression so far.
    pub operators: usize,
}

impl Nest {
    /// Before a body and after it.
    pub fn at_rest() -> Nest
        ensures { result ≡ at_rest }
    {
        Nest {
            in_body: false,
            brackets: 0,
            wanted: 0,
            in_term: false,
            base: 0,
            operators: 0,
        }
    }

    /// The nesting where a statement may begin.
    fn at_statement(brackets: usize) -> Nest
        ensures { result ≡ at_statement brackets }
    {
        Nest {
            in_body: true,
            brackets,
            wanted: 0,
            in_term: false,
            base: brackets,
            operators: 0,
        }
    }

    /// The nesting where a part of a statement begins: an expression, or a target.
    fn at_part(self, wanted: usize, in_term: bool, base: usize) -> Nest
        ensures { result ≡ at_part self wanted in_term base }
    {
        Nest {
            in_body: true,
            brackets: self.brackets,
            wanted,
            in_term,
            base,
            operators: 0,
        }
    }

    /// After a semicolon.
    fn after_semicolon(self) -> Nest
        ensures { result ≡ after_semicolon self }
    {
        if self.wanted == 2 {
            return self.at_part(1, true, self.brackets);
        }
        if self.wanted == 1 {
            return self.at_part(0, false, self.brackets);
        }
        Nest::at_statement(self.brackets)
    }

    /// After an opening bracket, which begins an expression where it begins an index of a target.
    fn after_bracket(self) -> Nest
        requires { self.brackets ≤ 64 }
        ensures { result ≡ after_bracket self }
    {
        let begins = !self.in_term && self.brackets <= self.base;
        let operators = if begins { 0 } else { self.operators };
        Nest {
            in_body: self.in_body,
            brackets: self.brackets + 1,
            wanted: self.wanted,
            in_term: self.in_term,
            base: self.base,
            operators,
        }
    }

    /// With other counts of open brackets and operators.
    fn counted(self, brackets: usize, operators: usize) -> Nest
        ensures { result ≡ record self { brackets = brackets; operators = operators } }
    {
        Nest {
            in_body: self.in_body,
            brackets,
            wanted: self.wanted,
            in_term: self.in_term,
            base: self.base,
            operators,
        }
    }

    /// After a mark in a body.
    fn after_role(self, role: Role) -> Nest
        requires { IsKept self }
        ensures { result ≡ after_role role self }
    {
        match role {
            Role::CloseBody => Nest::at_rest(),
            Role::OpenBracket => self.after_bracket(),
            Role::OpenParen => self.counted(self.brackets + 1, self.operators),
            Role::Close => self.counted(self.brackets.saturating_sub(1), self.operators),
            Role::OpenBrace => Nest::at_statement(self.brackets + 1),
            Role::CloseBrace => Nest::at_statement(self.brackets.saturating_sub(1)),
            Role::Semicolon => self.after_semicolon(),
            Role::Assign => self.at_part(self.wanted, true, self.brackets),
            Role::Test => self.at_part(0, true, self.brackets),
            Role::For => self.at_part(2, false, self.brackets + 1),
            Role::Operator => self.counted(self.brackets, self.operators + 1),
            Role::OpenBody => self,
            Role::Other => self,
        }
    }

    /// After a mark outside bodies.
    fn before_body(role: Role) -> Nest
        ensures { result ≡ before_body role }
    {
        match role {
            Role::OpenBody => Nest::at_statement(0),
            _ => Nest::at_rest(),
        }
    }

    /// After one more token.
    pub fn after(self, token: &TextToken) -> Nest
        requires { IsKept self }
        ensures { result ≡ after_symbol self (symbol token.now) }
    {
        match token.lexeme {
            Lexeme::Sign(mark) => {
                if self.in_body {
                    return self.after_role(role_of(mark));
                }
                Nest::before_body(role_of(mark))
            }
            _ => self,
        }
    }

    /// True if at most 64 brackets are open, and the expression has at most 256 operators.
    pub fn is_kept(self) -> bool
        ensures { IsTrue result ↔ IsKept self }
    {
        self.brackets <= 64 && self.operators <= 256
    }
}

/// The first token that passes a limit.
pub fn first_past(tokens: &[TextToken]) -> Option<usize>
    ensures none { IfNone result (IsWithin at_rest (symbols tokens.now)) }
    ensures inside { IfSome result (λ i. i < length tokens.now) }
    ensures before { IfSome result (λ i. IsWithin at_rest (symbols (take i tokens.now))) }
    ensures past { IfSome result (λ i.
        IsPast (nest_after at_rest (symbols (take (suc i) tokens.now)))) }
{
    let mut nest = Nest::at_rest();
    for (i, token) in tokens.iter().enumerate() {
        nest = nest.after(token);
        if !nest.is_kept() {
            return Some(i);
        }
    }
    None
}
