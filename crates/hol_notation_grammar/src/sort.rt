//! What a token is for the grammar.
ghost use Rattle.std.specs.Prelude.{◌≡◌};
ghost use Rattle.hol_notation_tokens.specs.Lexeme.{seen};
ghost use Rattle.hol_notation_grammar.specs.Sort.{word_sort, number_sort, sort_of};

use crate::number::number_value;
use hol_notation_tokens::{Kind, Word};

/// What a token is for the grammar: an identifier by its word, a number by its size, or a symbol.
#[derive(Clone, Copy)]
pub enum Sort {
    /// An identifier that is no reserved word and no command's.
    Name,
    /// `THEN`
    Then,
    /// `THENL`
    ThenL,
    /// `ORELSE`
    OrElse,
    /// `REPEAT`
    Repeat,
    /// `TRY`
    Try,
    /// `CHANGED_TAC`
    Changed,
    /// `EVERY`
    Every,
    /// `FIRST`
    First,
    /// `REPLICATE_TAC`
    Replicate,
    /// `DISCH_THEN`
    DischThen,
    /// `POP_ASSUM`
    PopAssum,
    /// `FIRST_ASSUM`
    FirstAssum,
    /// `SUBGOAL_THEN`
    SubgoalThen,
    /// `ASSUME`
    Assume,
    /// `REFL`
    Refl,
    /// `SPEC`
    Spec,
    /// `SYM`
    Sym,
    /// `CONJUNCT1`
    Conjunct1,
    /// `CONJUNCT2`
    Conjunct2,
    /// `MP`
    Mp,
    /// `INST_TYPE`
    InstType,
    /// `g`
    Goal,
    /// `e`
    Apply,
    /// `deftac`
    DefineTac,
    /// `b`
    Back,
    /// `r`
    Rotate,
    /// `qed`
    Qed,
    /// `oops`
    Oops,
    /// `import`
    Import,
    /// `new_type`
    NewType,
    /// `new_constant`
    NewConstant,
    /// `new_axiom`
    NewAxiom,
    /// `new_definition`
    NewDefinition,
    /// `new_basic_type_definition`
    NewBasicTypeDefinition,
    /// A number up to 16.
    Small,
    /// A number over 16.
    Large,
    /// `<=>`
    Iff,
    /// `==>`
    Implies,
    /// `\/`
    Or,
    /// `/\`
    And,
    /// `->`
    Arrow,
    /// `?!`
    ExistsUnique,
    /// `=`
    Equals,
    /// `~`
    Not,
    /// `\`
    Lambda,
    /// `!`
    ForAll,
    /// `?`
    Exists,
    /// `@`
    Choice,
    /// `(`
    Open,
    /// `)`
    Close,
    /// `[`
    OpenList,
    /// `]`
    CloseList,
    /// `.`
    Dot,
    /// `:`
    Colon,
    /// `,`
    Comma,
    /// `;`
    Semicolon,
    /// The backquote.
    Backquote,
}

// The most arguments that `new_type` gives a type constructor.
const MAX_ARITY: usize = 16;

// What an identifier is.
fn word_sort(text: &str) -> Sort
    ensures { result ≡ word_sort text.now }
{
    match text {
        "THEN" => Sort::Then,
        "THENL" => Sort::ThenL,
        "ORELSE" => Sort::OrElse,
        "REPEAT" => Sort::Repeat,
        "TRY" => Sort::Try,
        "CHANGED_TAC" => Sort::Changed,
        "EVERY" => Sort::Every,
        "FIRST" => Sort::First,
        "REPLICATE_TAC" => Sort::Replicate,
        "DISCH_THEN" => Sort::DischThen,
        "POP_ASSUM" => Sort::PopAssum,
        "FIRST_ASSUM" => Sort::FirstAssum,
        "SUBGOAL_THEN" => Sort::SubgoalThen,
        "ASSUME" => Sort::Assume,
        "REFL" => Sort::Refl,
        "SPEC" => Sort::Spec,
        "SYM" => Sort::Sym,
        "CONJUNCT1" => Sort::Conjunct1,
        "CONJUNCT2" => Sort::Conjunct2,
        "MP" => Sort::Mp,
        "INST_TYPE" => Sort::InstType,
        "g" => Sort::Goal,
        "e" => Sort::Apply,
        "deftac" => Sort::DefineTac,
        "b" => Sort::Back,
        "r" => Sort::Rotate,
        "qed" => Sort::Qed,
        "oops" => Sort::Oops,
        "import" => Sort::Import,
        "new_type" => Sort::NewType,
        "new_constant" => Sort::NewConstant,
        "new_axiom" => Sort::NewAxiom,
        "new_definition" => Sort::NewDefinition,
        "new_basic_type_definition" => Sort::NewBasicTypeDefinition,
        _ => Sort::Name,
    }
}

// What a number is.
fn number_sort(text: &str) -> Sort
    ensures { result ≡ number_sort text.now }
{
    if number_value(text) <= MAX_ARITY {
        Sort::Small
    } else {
        Sort::Large
    }
}

// What a word is.
pub(crate) fn sort_of(word: &Word<'_>) -> Sort
    ensures { result ≡ sort_of (seen word.now) }
{
    match word.kind {
        Kind::Ident => word_sort(word.text),
        Kind::Number => number_sort(word.text),
        Kind::Iff => Sort::Iff,
        Kind::Implies => Sort::Implies,
        Kind::Or => Sort::Or,
        Kind::And => Sort::And,
        Kind::Arrow => Sort::Arrow,
        Kind::ExistsUnique => Sort::ExistsUnique,
        Kind::Equals => Sort::Equals,
        Kind::Not => Sort::Not,
        Kind::Lambda => Sort::Lambda,
        Kind::ForAll => Sort::ForAll,
        Kind::Exists => Sort::Exists,
        Kind::Choice => Sort::Choice,
        Kind::Open => Sort::Open,
        Kind::Close => Sort::Close,
        Kind::OpenList => Sort::OpenList,
        Kind::CloseList => Sort::CloseList,
        Kind::Dot => Sort::Dot,
        Kind::Colon => Sort::Colon,
        Kind::Comma => Sort::Comma,
        Kind::Semicolon => Sort::Semicolon,
        Kind::Backquote => Sort::Backquote,
    }
}
