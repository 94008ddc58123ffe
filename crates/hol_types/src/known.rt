//! The commonest names.
ghost use Rattle.std.specs.Prelude.{◌≡◌, ◌∷◌, []};
ghost use Rattle.hol_types.specs.Known.{known_text, known_at};

/// A name that takes no memory: those of the prelude's types and constants, and most letters of its general theorems.
#[derive(Clone, Copy, PartialEq, Eq)]
pub enum KnownName {
    /// `fun`, the constructor of the types of functions.
    FunType,
    /// `bool`, the constructor of the type of truth values.
    BoolType,
    /// `ind`, the constructor of the type of individuals.
    IndType,
    /// `=`.
    Equality,
    /// `@`.
    Choice,
    /// `T`.
    Truth,
    /// `F`.
    Falsity,
    /// `/\`.
    Conjunction,
    /// `\/`.
    Disjunction,
    /// `==>`.
    Implication,
    /// `~`.
    Negation,
    /// `!`.
    Forall,
    /// `?`.
    Exists,
    /// `?!`.
    ExistsUnique,
    /// `ONE_ONE`.
    OneOne,
    /// `ONTO`.
    Onto,
    /// `A`.
    UpperA,
    /// `P`.
    UpperP,
    /// `p`.
    LowerP,
    /// `q`.
    LowerQ,
    /// `x`.
    LowerX,
}

impl KnownName {
    /// The text of the name.
    pub(crate) fn text(self) -> &'static str
        ensures { result.now ≡ known_text self }
    {
        match self {
            KnownName::FunType => "fun",
            KnownName::BoolType => "bool",
            KnownName::IndType => "ind",
            KnownName::Equality => "=",
            KnownName::Choice => "@",
            KnownName::Truth => "T",
            KnownName::Falsity => "F",
            KnownName::Conjunction => "/\\",
            KnownName::Disjunction => "\\/",
            KnownName::Implication => "==>",
            KnownName::Negation => "~",
            KnownName::Forall => "!",
            KnownName::Exists => "?",
            KnownName::ExistsUnique => "?!",
            KnownName::OneOne => "ONE_ONE",
            KnownName::Onto => "ONTO",
            KnownName::UpperA => "A",
            KnownName::UpperP => "P",
            KnownName::LowerP => "p",
            KnownName::LowerQ => "q",
            KnownName::LowerX => "x",
        }
    }

    /// The name of the text, if it is one of these.
    pub(crate) fn of(text: &str) -> Option<KnownName>
        ensures { result ≡ known_at text.now }
    {
        match text.as_bytes() {
            [byte] => KnownName::of_byte(*byte),
            _ => KnownName::of_text(text),
        }
    }

    // The name of one byte, if it is one of these: most names are of one byte, and no texts are compared for them.
    fn of_byte(byte: u8) -> Option<KnownName>
        ensures { result ≡ known_at (byte ∷ []) }
    {
        match byte {
            b'=' => Some(KnownName::Equality),
            b'@' => Some(KnownName::Choice),
            b'T' => Some(KnownName::Truth),
            b'F' => Some(KnownName::Falsity),
            b'~' => Some(KnownName::Negation),
            b'!' => Some(KnownName::Forall),
            b'?' => Some(KnownName::Exists),
            b'A' => Some(KnownName::UpperA),
            b'P' => Some(KnownName::UpperP),
            b'p' => Some(KnownName::LowerP),
            b'q' => Some(KnownName::LowerQ),
            b'x' => Some(KnownName::LowerX),
            _ => None,
        }
    }

    // The name of the text, if it is one of these.
    fn of_text(text: &str) -> Option<KnownName>
        ensures { result ≡ known_at text.now }
    {
        match text {
            "fun" => Some(KnownName::FunType),
            "bool" => Some(KnownName::BoolType),
            "ind" => Some(KnownName::IndType),
            "=" => Some(KnownName::Equality),
            "@" => Some(KnownName::Choice),
            "T" => Some(KnownName::Truth),
            "F" => Some(KnownName::Falsity),
            "/\\" => Some(KnownName::Conjunction),
            "\\/" => Some(KnownName::Disjunction),
            "==>" => Some(KnownName::Implication),
            "~" => Some(KnownName::Negation),
            "!" => Some(KnownName::Forall),
            "?" => Some(KnownName::Exists),
            "?!" => Some(KnownName::ExistsUnique),
            "ONE_ONE" => Some(KnownName::OneOne),
            "ONTO" => Some(KnownName::Onto),
            "A" => Some(KnownName::UpperA),
            "P" => Some(KnownName::UpperP),
            "p" => Some(KnownName::LowerP),
            "q" => Some(KnownName::LowerQ),
            "x" => Some(KnownName::LowerX),
            _ => None,
        }
    }
}
