//! The functions that there are.

ghost use Rattle.std.specs.Prelude.{◌≡◌};
ghost use Rattle.query_grammar.specs.Functions.{all_functions, named, signature, takes, function_of};

/// A function (XQuery 1.0 and XPath 2.0 Functions and Operators), by its name.
#[derive(Clone, Copy, PartialEq, Eq, Debug)]
pub enum Function {
    /// `doc`
    Doc,
    /// `root`
    Root,
    /// `name`
    Name,
    /// `string`
    String,
    /// `data`
    Data,
    /// `count`
    Count,
    /// `empty`
    Empty,
    /// `exists`
    Exists,
    /// `reverse`
    Reverse,
    /// `not`
    Not,
    /// `boolean`
    Boolean,
    /// `true`
    True,
    /// `false`
    False,
    /// `position`
    Position,
    /// `last`
    Last,
    /// `concat`
    Concat,
    /// `contains`
    Contains,
    /// `starts-with`
    StartsWith,
    /// `ends-with`
    EndsWith,
    /// `string-length`
    StringLength,
    /// `string-join`
    StringJoin,
    /// `sum`
    Sum,
    /// `distinct-values`
    DistinctValues,
}

impl Function {
    /// The function of that name, where there is one and it takes so many arguments.
    pub fn called(name: &str, arguments: usize) -> Option<Function>
        ensures { result ≡ function_of name.now arguments }
    {
        match Function::named(name) {
            Some(function) if function.takes(arguments) => Some(function),
            _ => None,
        }
    }

    /// The function of that name.
    fn named(name: &str) -> Option<Function>
        ensures { result ≡ named name.now all_functions }
    {
        match name {
            "doc" => Some(Function::Doc),
            "root" => Some(Function::Root),
            "name" => Some(Function::Name),
            "string" => Some(Function::String),
            "data" => Some(Function::Data),
            "count" => Some(Function::Count),
            "empty" => Some(Function::Empty),
            "exists" => Some(Function::Exists),
            "reverse" => Some(Function::Reverse),
            "not" => Some(Function::Not),
            "boolean" => Some(Function::Boolean),
            "true" => Some(Function::True),
            "false" => Some(Function::False),
            "position" => Some(Function::Position),
            "last" => Some(Function::Last),
            "concat" => Some(Function::Concat),
            "contains" => Some(Function::Contains),
            "starts-with" => Some(Function::StartsWith),
            "ends-with" => Some(Function::EndsWith),
            "string-length" => Some(Function::StringLength),
            "string-join" => Some(Function::StringJoin),
            "sum" => Some(Function::Sum),
            "distinct-values" => Some(Function::DistinctValues),
            _ => None,
        }
    }

    /// Whether it takes so many arguments.
    pub fn takes(self, arguments: usize) -> bool
        ensures { result ≡ takes arguments self }
    {
        self.least() <= arguments
            && match self.most() {
                Some(most) => arguments <= most,
                None => true,
            }
    }

    /// How many arguments it takes at least.
    fn least(self) -> usize
        ensures { result ≡ (signature self).least }
    {
        match self {
            Function::Root
            | Function::Name
            | Function::String
            | Function::True
            | Function::False
            | Function::Position
            | Function::Last => 0,
            Function::Concat
            | Function::Contains
            | Function::StartsWith
            | Function::EndsWith
            | Function::StringJoin => 2,
            _ => 1,
        }
    }

    /// How many arguments it takes at most, where there is a most.
    fn most(self) -> Option<usize>
        ensures { result ≡ (signature self).most }
    {
        match self {
            Function::True | Function::False | Function::Position | Function::Last => Some(0),
            Function::Contains | Function::StartsWith | Function::EndsWith | Function::StringJoin =>
                Some(2),
            Function::Concat => None,
            _ => Some(1),
        }
    }
}
