//! The codes of faults.

ghost use Rattle.std.specs.Prelude.{◌≡◌, ◌≤◌, ◌⊎◌, ◌<◌, Some, None, IfSome};
ghost use Rattle.fault_codes.specs.Codes.{code_name, code_number};

use std::fmt;

/// The faults that a request or a question can end in, by the names of XQuery 1.0, of its functions and operators, of the XQuery
/// Update Facility 1.0, and of this project (`PXQ`).
#[derive(Clone, Copy, PartialEq, Eq, Debug)]
pub enum Code {
    /// A text is no expression of the grammar (XQuery 1.0, section 2.1).
    XPST0003,
    /// A name of a variable isn't bound (section 2.1.1).
    XPST0008,
    /// No function has that name and number of arguments (section 3.1.5).
    XPST0017,
    /// A character reference names no XML 1.0 character (section 3.1.1).
    XQST0090,
    /// An updating expression stands where none may (XQuery Update Facility 1.0, section 2.4).
    XUST0001,
    /// The context item is used where there is none (section 2.1.2).
    XPDY0002,
    /// A value has another type or number of items than the expression takes (section 2.5.4).
    XPTY0004,
    /// The last step of a path gives nodes and atomic values (section 3.2).
    XPTY0018,
    /// A step but the last gives an atomic value (section 3.2).
    XPTY0019,
    /// The context item of an axis step is no node (section 3.2.1).
    XPTY0020,
    /// A number is divided by zero (Functions and Operators, section 6.2).
    FOAR0001,
    /// A number lies outside the range of integers (section 6.2).
    FOAR0002,
    /// No document has that name (section 15.5.4).
    FODC0002,
    /// A text doesn't read as a value of the type (section 17.1.1).
    FORG0001,
    /// A value has no effective boolean value, or can't be added (section 15.4.5).
    FORG0006,
    /// An attribute comes after other content (XQuery 1.0, section 3.7.1.3).
    XQTY0024,
    /// Two attributes of a constructed element have one name (section 3.7.1.3).
    XQDY0025,
    /// A processing instruction would contain `?>` (section 3.7.3.5).
    XQDY0026,
    /// A text is no name of a processing instruction (section 3.7.3.5).
    XQDY0041,
    /// A processing instruction would be named `xml` (section 3.7.3.5).
    XQDY0064,
    /// A comment would contain `--` or end in `-` (section 3.7.3.6).
    XQDY0072,
    /// A text is no name of an element or attribute (section 3.7.3.1).
    XQDY0074,
    /// An attribute comes after other nodes to be inserted (XQuery Update Facility 1.0, section 2.4.1).
    XUTY0004,
    /// The target of `insert .. into` is not one element or document (section 2.4.1).
    XUTY0005,
    /// The target of `insert .. before` or `after` is not one node that may have siblings (section 2.4.1).
    XUTY0006,
    /// An item to be deleted is no node (section 2.4.2).
    XUTY0007,
    /// The target of `replace` is not one node that may be replaced (section 2.4.3).
    XUTY0008,
    /// A node that isn't an attribute would be replaced by something else than nodes of its place (section 2.4.3.1).
    XUTY0010,
    /// An attribute would be replaced by something else than attributes (section 2.4.3.1).
    XUTY0011,
    /// The target of `rename` is not one node with a name (section 2.4.4).
    XUTY0012,
    /// An attribute would be inserted into a document (section 2.4.1).
    XUTY0022,
    /// The target of `replace node` has no parent (section 2.4.3.1).
    XUDY0009,
    /// Two renames have one target (section 3.2.1).
    XUDY0015,
    /// Two replacements of nodes have one target (section 3.2.1).
    XUDY0016,
    /// Two replacements of values have one target (section 3.2.1).
    XUDY0017,
    /// Two attributes of a stored element have one name (section 3.2.2).
    XUDY0021,
    /// The target of an update is empty (section 2.4.1).
    XUDY0027,
    /// The target of `insert .. before` or `after` has no parent (section 2.4.1).
    XUDY0029,
    /// An attribute would be inserted beside a child of a document (section 2.4.1).
    XUDY0030,
    /// More brackets are open at once than may be.
    PXQ0001,
    /// More items, bytes of text or turns than an evaluation may have.
    PXQ0002,
    /// More nodes, children or levels, or a longer text, than a store may have.
    PXQ0003,
    /// A question updates.
    PXQ0004,
    /// An answer's text is longer than it may be.
    PXQ0005,
    /// A `for` and its `at` bind one name (XQuery 1.0, section 3.8.1).
    XQST0089,
    /// What a `copy` copies is not one node (XQuery Update Facility 1.0, section 2.4.6).
    XUTY0013,
    /// A `modify` would change a node that its `copy` did not make (section 2.4.6).
    XUDY0014,
    /// A `modify` neither updates nor gives nothing (section 2.4.6).
    XUST0002,
}

impl Code {
    /// Its number in messages, 1 to 48.
    pub fn number(self) -> u8
        ensures { result ≡ code_number self }
    {
        match self {
            Code::XPST0003 => 1,
            Code::XPST0008 => 2,
            Code::XPST0017 => 3,
            Code::XQST0090 => 4,
            Code::XUST0001 => 5,
            Code::XPDY0002 => 6,
            Code::XPTY0004 => 7,
            Code::XPTY0018 => 8,
            Code::XPTY0019 => 9,
            Code::XPTY0020 => 10,
            Code::FOAR0001 => 11,
            Code::FOAR0002 => 12,
            Code::FODC0002 => 13,
            Code::FORG0001 => 14,
            Code::FORG0006 => 15,
            Code::XQTY0024 => 16,
            Code::XQDY0025 => 17,
            Code::XQDY0026 => 18,
            Code::XQDY0041 => 19,
            Code::XQDY0064 => 20,
            Code::XQDY0072 => 21,
            Code::XQDY0074 => 22,
            Code::XUTY0004 => 23,
            Code::XUTY0005 => 24,
            Code::XUTY0006 => 25,
            Code::XUTY0007 => 26,
            Code::XUTY0008 => 27,
            Code::XUTY0010 => 28,
            Code::XUTY0011 => 29,
            Code::XUTY0012 => 30,
            Code::XUTY0022 => 31,
            Code::XUDY0009 => 32,
            Code::XUDY0015 => 33,
            Code::XUDY0016 => 34,
            Code::XUDY0017 => 35,
            Code::XUDY0021 => 36,
            Code::XUDY0027 => 37,
            Code::XUDY0029 => 38,
            Code::XUDY0030 => 39,
            Code::PXQ0001 => 40,
            Code::PXQ0002 => 41,
            Code::PXQ0003 => 42,
            Code::PXQ0004 => 43,
            Code::PXQ0005 => 44,
            Code::XQST0089 => 45,
            Code::XUTY0013 => 46,
            Code::XUDY0014 => 47,
            Code::XUST0002 => 48,
        }
    }

    /// The code of that number, if there is one.
    pub fn of_number(number: u8) -> Option<Code>
        ensures numbered { IfSome result (λ c. code_number c ≡ number) }
        ensures none { result ≡ None → (number ≡ 0) ⊎ (48 < number) }
    {
        match number {
            1 => Some(Code::XPST0003),
            2 => Some(Code::XPST0008),
            3 => Some(Code::XPST0017),
            4 => Some(Code::XQST0090),
            5 => Some(Code::XUST0001),
            6 => Some(Code::XPDY0002),
            7 => Some(Code::XPTY0004),
            8 => Some(Code::XPTY0018),
            9 => Some(Code::XPTY0019),
            10 => Some(Code::XPTY0020),
            11 => Some(Code::FOAR0001),
            12 => Some(Code::FOAR0002),
            13 => Some(Code::FODC0002),
            14 => Some(Code::FORG0001),
            15 => Some(Code::FORG0006),
            16 => Some(Code::XQTY0024),
            17 => Some(Code::XQDY0025),
            18 => Some(Code::XQDY0026),
            19 => Some(Code::XQDY0041),
            20 => Some(Code::XQDY0064),
            21 => Some(Code::XQDY0072),
            22 => Some(Code::XQDY0074),
            23 => Some(Code::XUTY0004),
            24 => Some(Code::XUTY0005),
            25 => Some(Code::XUTY0006),
            26 => Some(Code::XUTY0007),
            27 => Some(Code::XUTY0008),
            28 => Some(Code::XUTY0010),
            29 => Some(Code::XUTY0011),
            30 => Some(Code::XUTY0012),
            31 => Some(Code::XUTY0022),
            32 => Some(Code::XUDY0009),
            33 => Some(Code::XUDY0015),
            34 => Some(Code::XUDY0016),
            35 => Some(Code::XUDY0017),
            36 => Some(Code::XUDY0021),
            37 => Some(Code::XUDY0027),
            38 => Some(Code::XUDY0029),
            39 => Some(Code::XUDY0030),
            40 => Some(Code::PXQ0001),
            41 => Some(Code::PXQ0002),
            42 => Some(Code::PXQ0003),
            43 => Some(Code::PXQ0004),
            44 => Some(Code::PXQ0005),
            45 => Some(Code::XQST0089),
            46 => Some(Code::XUTY0013),
            47 => Some(Code::XUDY0014),
            48 => Some(Code::XUST0002),
            _ => None,
        }
    }

    /// Its name.
    fn name(self) -> &'static str
        ensures { result.now ≡ code_name self }
    {
        match self {
            Code::XPST0003 => "XPST0003",
            Code::XPST0008 => "XPST0008",
            Code::XPST0017 => "XPST0017",
            Code::XQST0090 => "XQST0090",
            Code::XUST0001 => "XUST0001",
            Code::XPDY0002 => "XPDY0002",
            Code::XPTY0004 => "XPTY0004",
            Code::XPTY0018 => "XPTY0018",
            Code::XPTY0019 => "XPTY0019",
            Code::XPTY0020 => "XPTY0020",
            Code::FOAR0001 => "FOAR0001",
            Code::FOAR0002 => "FOAR0002",
            Code::FODC0002 => "FODC0002",
            Code::FORG0001 => "FORG0001",
            Code::FORG0006 => "FORG0006",
            Code::XQTY0024 => "XQTY0024",
            Code::XQDY0025 => "XQDY0025",
            Code::XQDY0026 => "XQDY0026",
            Code::XQDY0041 => "XQDY0041",
            Code::XQDY0064 => "XQDY0064",
            Code::XQDY0072 => "XQDY0072",
            Code::XQDY0074 => "XQDY0074",
            Code::XUTY0004 => "XUTY0004",
            Code::XUTY0005 => "XUTY0005",
            Code::XUTY0006 => "XUTY0006",
            Code::XUTY0007 => "XUTY0007",
            Code::XUTY0008 => "XUTY0008",
            Code::XUTY0010 => "XUTY0010",
            Code::XUTY0011 => "XUTY0011",
            Code::XUTY0012 => "XUTY0012",
            Code::XUTY0022 => "XUTY0022",
            Code::XUDY0009 => "XUDY0009",
            Code::XUDY0015 => "XUDY0015",
            Code::XUDY0016 => "XUDY0016",
            Code::XUDY0017 => "XUDY0017",
            Code::XUDY0021 => "XUDY0021",
            Code::XUDY0027 => "XUDY0027",
            Code::XUDY0029 => "XUDY0029",
            Code::XUDY0030 => "XUDY0030",
            Code::PXQ0001 => "PXQ0001",
            Code::PXQ0002 => "PXQ0002",
            Code::PXQ0003 => "PXQ0003",
            Code::PXQ0004 => "PXQ0004",
            Code::PXQ0005 => "PXQ0005",
            Code::XQST0089 => "XQST0089",
            Code::XUTY0013 => "XUTY0013",
            Code::XUDY0014 => "XUDY0014",
            Code::XUST0002 => "XUST0002",
        }
    }
}

impl fmt::Display for Code {
    ghost output = { λ c. Some (code_name c) };

    fn fmt<W: fmt::Write>(&self, f: &mut fmt::Formatter<W>) -> fmt::Result {
        f.write_str(self.name())
    }
}
