//! The words of the grammar. A name is compared with the words of its first letter's group alone.

ghost use Rattle.std.specs.Prelude.{◌≡◌, true};
ghost use Rattle.query_tokens.specs.Words.{begins_between, is_name_kind, kind_of};

use crate::kind::Kind;

// Of the names that begin with `a`.
#[tactic(auto, unfolding(crate::specs::Words::kind_of))]
fn word_a(name: &str) -> Kind
    requires { begins_between 97 97 name.now ≡ true }
    ensures { result ≡ kind_of name.now }
{
    match name {
        "after" => Kind::After,
        "ancestor" => Kind::Ancestor,
        "and" => Kind::And,
        "as" => Kind::As,
        "ascending" => Kind::Ascending,
        "at" => Kind::At,
        "attribute" => Kind::Attribute,
        _ => Kind::Name,
    }
}

// Of the names that begin with `b` to `d`.
#[tactic(auto, unfolding(crate::specs::Words::kind_of))]
fn word_b_to_d(name: &str) -> Kind
    requires { begins_between 98 100 name.now ≡ true }
    ensures { result ≡ kind_of name.now }
{
    match name {
        "before" => Kind::Before,
        "by" => Kind::By,
        "child" => Kind::Child,
        "comment" => Kind::Comment,
        "copy" => Kind::Copy,
        "delete" => Kind::Delete,
        "descendant" => Kind::Descendant,
        "descendant-or-self" => Kind::DescendantOrSelf,
        "descending" => Kind::Descending,
        "document" => Kind::Document,
        "document-node" => Kind::DocumentNode,
        _ => Kind::Name,
    }
}

// Of the names that begin with `e` to `f`.
#[tactic(auto, unfolding(crate::specs::Words::kind_of))]
fn word_e_to_f(name: &str) -> Kind
    requires { begins_between 101 102 name.now ≡ true }
    ensures { result ≡ kind_of name.now }
{
    match name {
        "element" => Kind::Element,
        "else" => Kind::Else,
        "eq" => Kind::Eq,
        "every" => Kind::Every,
        "except" => Kind::Except,
        "first" => Kind::First,
        "following-sibling" => Kind::FollowingSibling,
        "for" => Kind::For,
        _ => Kind::Name,
    }
}

// Of the names that begin with `g` to `i`.
#[tactic(auto, unfolding(crate::specs::Words::kind_of))]
fn word_g_to_i(name: &str) -> Kind
    requires { begins_between 103 105 name.now ≡ true }
    ensures { result ≡ kind_of name.now }
{
    match name {
        "ge" => Kind::Ge,
        "gt" => Kind::Gt,
        "idiv" => Kind::Idiv,
        "if" => Kind::If,
        "in" => Kind::In,
        "insert" => Kind::Insert,
        "intersect" => Kind::Intersect,
        "into" => Kind::Into,
        "is" => Kind::Is,
        _ => Kind::Name,
    }
}

// Of the names that begin with `l` to `n`.
#[tactic(auto, unfolding(crate::specs::Words::kind_of))]
fn word_l_to_n(name: &str) -> Kind
    requires { begins_between 108 110 name.now ≡ true }
    ensures { result ≡ kind_of name.now }
{
    match name {
        "last" => Kind::Last,
        "le" => Kind::Le,
        "let" => Kind::Let,
        "lt" => Kind::Lt,
        "mod" => Kind::Mod,
        "modify" => Kind::Modify,
        "ne" => Kind::Ne,
        "node" => Kind::Node,
        "nodes" => Kind::Nodes,
        _ => Kind::Name,
    }
}

// Of the names that begin with `o` to `r`.
#[tactic(auto, unfolding(crate::specs::Words::kind_of))]
fn word_o_to_r(name: &str) -> Kind
    requires { begins_between 111 114 name.now ≡ true }
    ensures { result ≡ kind_of name.now }
{
    match name {
        "of" => Kind::Of,
        "or" => Kind::Or,
        "order" => Kind::Order,
        "parent" => Kind::Parent,
        "preceding-sibling" => Kind::PrecedingSibling,
        "processing-instruction" => Kind::ProcessingInstruction,
        "rename" => Kind::Rename,
        "replace" => Kind::Replace,
        "return" => Kind::Return,
        _ => Kind::Name,
    }
}

// Of the names that begin with `s` to `t`.
#[tactic(auto, unfolding(crate::specs::Words::kind_of))]
fn word_s_to_t(name: &str) -> Kind
    requires { begins_between 115 116 name.now ≡ true }
    ensures { result ≡ kind_of name.now }
{
    match name {
        "satisfies" => Kind::Satisfies,
        "self" => Kind::SelfAxis,
        "some" => Kind::Some,
        "text" => Kind::Text,
        "then" => Kind::Then,
        "to" => Kind::To,
        _ => Kind::Name,
    }
}

// Of the names that begin with `u` to `w`.
#[tactic(auto, unfolding(crate::specs::Words::kind_of))]
fn word_u_to_w(name: &str) -> Kind
    requires { begins_between 117 119 name.now ≡ true }
    ensures { result ≡ kind_of name.now }
{
    match name {
        "union" => Kind::Union,
        "value" => Kind::Value,
        "where" => Kind::Where,
        "with" => Kind::With,
        _ => Kind::Name,
    }
}

// By the name's first letter.
#[tactic(auto, unfolding(crate::specs::Words::kind_of), using(crate::proofs::Tables::in_range))]
fn word_from(first: u8, name: &str) -> Kind
    requires { begins_between first first name.now ≡ true }
    ensures { result ≡ kind_of name.now }
{
    match first {
        b'a' => word_a(name),
        b'b'..=b'd' => word_b_to_d(name),
        b'e'..=b'f' => word_e_to_f(name),
        b'g'..=b'i' => word_g_to_i(name),
        b'l'..=b'n' => word_l_to_n(name),
        b'o'..=b'r' => word_o_to_r(name),
        b's'..=b't' => word_s_to_t(name),
        b'u'..=b'w' => word_u_to_w(name),
        _ => Kind::Name,
    }
}

/// The kind of a name: a word's own, or `Name`.
#[tactic(auto, unfolding(crate::specs::Words::kind_of))]
pub fn kind_of(name: &str) -> Kind
    ensures { result ≡ kind_of name.now }
{
    match name.as_bytes() {
        [] => Kind::Name,
        [first, ..] => word_from(*first, name),
    }
}

impl Kind {
    /// Whether a token of this kind is a name: each word is one too.
    pub fn is_name(self) -> bool
        ensures { result ≡ is_name_kind self }
    {
        match self {
            Kind::End
            | Kind::Number
            | Kind::String
            | Kind::OpenParen
            | Kind::CloseParen
            | Kind::OpenBracket
            | Kind::CloseBracket
            | Kind::OpenBrace
            | Kind::CloseBrace
            | Kind::Comma
            | Kind::Dollar
            | Kind::Assign
            | Kind::ColonColon
            | Kind::AtSign
            | Kind::Dot
            | Kind::DotDot
            | Kind::Slash
            | Kind::SlashSlash
            | Kind::Star
            | Kind::Plus
            | Kind::Minus
            | Kind::Bar
            | Kind::Equal
            | Kind::NotEqual
            | Kind::Less
            | Kind::LessOrEqual
            | Kind::Greater
            | Kind::GreaterOrEqual
            | Kind::Precedes
            | Kind::Follows => false,
            _ => true,
        }
    }
}
