//! What a token can be.

/// What a token is. A word of the grammar has a kind of its own, and is a name too.
#[derive(Clone, Copy, PartialEq, Eq, Debug)]
pub enum Kind {
    /// What comes after the last token.
    End,
    /// A number.
    Number,
    /// A string.
    String,
    /// A name that is no word of the grammar.
    Name,
    /// `after`
    After,
    /// `ancestor`
    Ancestor,
    /// `and`
    And,
    /// `as`
    As,
    /// `ascending`
    Ascending,
    /// `at`
    At,
    /// `attribute`
    Attribute,
    /// `before`
    Before,
    /// `by`
    By,
    /// `child`
    Child,
    /// `comment`
    Comment,
    /// `copy`
    Copy,
    /// `delete`
    Delete,
    /// `descendant`
    Descendant,
    /// `descendant-or-self`
    DescendantOrSelf,
    /// `descending`
    Descending,
    /// `document`
    Document,
    /// `document-node`
    DocumentNode,
    /// `element`
    Element,
    /// `else`
    Else,
    /// `eq`
    Eq,
    /// `every`
    Every,
    /// `except`
    Except,
    /// `first`
    First,
    /// `following-sibling`
    FollowingSibling,
    /// `for`
    For,
    /// `ge`
    Ge,
    /// `gt`
    Gt,
    /// `idiv`
    Idiv,
    /// `if`
    If,
    /// `in`
    In,
    /// `insert`
    Insert,
    /// `intersect`
    Intersect,
    /// `into`
    Into,
    /// `is`
    Is,
    /// `last`
    Last,
    /// `le`
    Le,
    /// `let`
    Let,
    /// `lt`
    Lt,
    /// `mod`
    Mod,
    /// `modify`
    Modify,
    /// `ne`
    Ne,
    /// `node`
    Node,
    /// `nodes`
    Nodes,
    /// `of`
    Of,
    /// `or`
    Or,
    /// `order`
    Order,
    /// `parent`
    Parent,
    /// `preceding-sibling`
    PrecedingSibling,
    /// `processing-instruction`
    ProcessingInstruction,
    /// `rename`
    Rename,
    /// `replace`
    Replace,
    /// `return`
    Return,
    /// `satisfies`
    Satisfies,
    /// `self`
    SelfAxis,
    /// `some`
    Some,
    /// `text`
    Text,
    /// `then`
    Then,
    /// `to`
    To,
    /// `union`
    Union,
    /// `value`
    Value,
    /// `where`
    Where,
    /// `with`
    With,
    /// `(`
    OpenParen,
    /// `)`
    CloseParen,
    /// `[`
    OpenBracket,
    /// `]`
    CloseBracket,
    /// `{`
    OpenBrace,
    /// `}`
    CloseBrace,
    /// `,`
    Comma,
    /// `$`
    Dollar,
    /// `:=`
    Assign,
    /// `::`
    ColonColon,
    /// `@`
    AtSign,
    /// `.`
    Dot,
    /// `..`
    DotDot,
    /// `/`
    Slash,
    /// `//`
    SlashSlash,
    /// `*`
    Star,
    /// `+`
    Plus,
    /// `-`
    Minus,
    /// `|`
    Bar,
    /// `=`
    Equal,
    /// `!=`
    NotEqual,
    /// `<`
    Less,
    /// `<=`
    LessOrEqual,
    /// `>`
    Greater,
    /// `>=`
    GreaterOrEqual,
    /// `<<`
    Precedes,
    /// `>>`
    Follows,
}
