//! The codes of refusals.

ghost use Rattle.std.specs.Prelude.{◌≡◌};
ghost use Rattle.fast_fault.specs.Codes.{number_of, name_of};

/// The codes of refusals, in the order of their numbers: 1 to 24 refuse a text, 30 to 38 an item or a tree as it runs.
#[derive(Clone, Copy, Debug, PartialEq, Eq)]
pub enum Code {
    /// The text is longer than a text may be.
    TooLong,
    /// The bytes are no UTF-8.
    NotUtf8,
    /// The text is not made of tokens.
    Token,
    /// The tokens are no program, or no trees.
    Syntax,
    /// Parentheses are nested too deep.
    Nested,
    /// A type's name was declared before.
    DuplicateType,
    /// A type has no constructor without children.
    NoLeaf,
    /// A name was declared before, or stands twice in its type.
    DuplicateName,
    /// No such name.
    UnknownName,
    /// Another kind of thing is needed here.
    WrongKind,
    /// The type is not the needed one.
    WrongType,
    /// The number of children or labels is not the declared one.
    WrongRank,
    /// A child variable stands twice in a rule's head.
    DuplicateVariable,
    /// No such field.
    UnknownField,
    /// The sort is not the needed one.
    WrongSort,
    /// Both sides of a product name a field.
    NotLinear,
    /// The right side of a remainder is no number that may stand there.
    BadModulus,
    /// A number is out of range.
    NumberRange,
    /// A name stands in its own item or before it.
    UsedTooEarly,
    /// More of something than there may be.
    TooMany,
    /// More classes of trees than the limit.
    Classes,
    /// A chain of choices needs too wide a number.
    Width,
    /// A number of a label form is out of range.
    FormRange,
    /// A number of an output label is out of range.
    LabelRange,
    /// Two transformations whose composition is not exact.
    NotComposable,
    /// No tree to show.
    EmptyLanguage,
    /// Not exactly one output.
    OutputCount,
    /// More outputs, or larger ones, than the limits.
    Outputs,
    /// A tree larger than the limits.
    TreeSize,
}

impl Code {
    /// The number that reports show.
    pub fn number(&self) -> u8
        ensures { result ≡ number_of self.now }
    {
        match self {
            Code::TooLong => 1,
            Code::NotUtf8 => 2,
            Code::Token => 3,
            Code::Syntax => 4,
            Code::Nested => 5,
            Code::DuplicateType => 10,
            Code::NoLeaf => 11,
            Code::DuplicateName => 12,
            Code::UnknownName => 13,
            Code::WrongKind => 14,
            Code::WrongType => 15,
            Code::WrongRank => 16,
            Code::DuplicateVariable => 17,
            Code::UnknownField => 18,
            Code::WrongSort => 19,
            Code::NotLinear => 20,
            Code::BadModulus => 21,
            Code::NumberRange => 22,
            Code::UsedTooEarly => 23,
            Code::TooMany => 24,
            Code::Classes => 30,
            Code::Width => 31,
            Code::FormRange => 32,
            Code::LabelRange => 33,
            Code::NotComposable => 34,
            Code::EmptyLanguage => 35,
            Code::OutputCount => 36,
            Code::Outputs => 37,
            Code::TreeSize => 38,
        }
    }

    /// The name that reports show.
    pub fn name(&self) -> &'static str
        ensures { result.now ≡ name_of self.now }
    {
        match self {
            Code::TooLong => "TooLong",
            Code::NotUtf8 => "NotUtf8",
            Code::Token => "Token",
            Code::Syntax => "Syntax",
            Code::Nested => "Nested",
            Code::DuplicateType => "DuplicateType",
            Code::NoLeaf => "NoLeaf",
            Code::DuplicateName => "DuplicateName",
            Code::UnknownName => "UnknownName",
            Code::WrongKind => "WrongKind",
            Code::WrongType => "WrongType",
            Code::WrongRank => "WrongRank",
            Code::DuplicateVariable => "DuplicateVariable",
            Code::UnknownField => "UnknownField",
            Code::WrongSort => "WrongSort",
            Code::NotLinear => "NotLinear",
            Code::BadModulus => "BadModulus",
            Code::NumberRange => "NumberRange",
            Code::UsedTooEarly => "UsedTooEarly",
            Code::TooMany => "TooMany",
            Code::Classes => "Classes",
            Code::Width => "Width",
            Code::FormRange => "FormRange",
            Code::LabelRange => "LabelRange",
            Code::NotComposable => "NotComposable",
            Code::EmptyLanguage => "EmptyLanguage",
            Code::OutputCount => "OutputCount",
            Code::Outputs => "Outputs",
            Code::TreeSize => "TreeSize",
        }
    }
}
