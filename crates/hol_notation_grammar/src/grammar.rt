//! The grammar: the rules, the ways to write each, and the symbols of each way.
ghost use Rattle.std.specs.Prelude.{◌≡◌};
ghost use Rattle.hol_notation_grammar.specs.Table.{has, binds, productions, symbols};

use crate::sort::Sort;

/// The classes of tokens.
#[derive(Clone, Copy)]
pub enum Class {
    /// Any identifier.
    Identifier,
    /// An identifier that names a parameter.
    Parameter,
    /// An identifier that is no reserved word.
    FreeName,
    /// An identifier, no reserved word, that names the constant that is defined.
    Constant,
    /// A number.
    Number,
    /// A number up to 16.
    Arity,
    /// A symbol that stands between two terms.
    Infix,
    /// A binder.
    Binder,
    /// A binder that is a constant.
    Quantifier,
    /// `g`
    Goal,
    /// `e`
    Apply,
    /// `deftac`
    DefineTac,
    /// `b`
    Back,
    /// `r`
    Rotate,
    /// `qed`
    Qed,
    /// `oops`
    Oops,
    /// `import`
    Import,
    /// `new_type`
    NewType,
    /// `new_constant`
    NewConstant,
    /// `new_axiom`
    NewAxiom,
    /// `new_definition`
    NewDefinition,
    /// `new_basic_type_definition`
    NewBasicTypeDefinition,
    /// `ORELSE`
    OrElse,
    /// `THEN`
    Then,
    /// `THENL`
    ThenL,
    /// `(`
    Open,
    /// `)`
    Close,
    /// `EVERY`
    Every,
    /// `FIRST`
    First,
    /// `REPEAT`
    Repeat,
    /// `TRY`
    Try,
    /// `CHANGED_TAC`
    Changed,
    /// `REPLICATE_TAC`
    Replicate,
    /// `DISCH_THEN`
    DischThen,
    /// `POP_ASSUM`
    PopAssum,
    /// `FIRST_ASSUM`
    FirstAssum,
    /// `SUBGOAL_THEN`
    SubgoalThen,
    /// `[`
    OpenList,
    /// `]`
    CloseList,
    /// `;`
    Semicolon,
    /// `,`
    Comma,
    /// `ASSUME`
    Assume,
    /// `REFL`
    Refl,
    /// `SPEC`
    Spec,
    /// `SYM`
    Sym,
    /// `CONJUNCT1`
    Conjunct1,
    /// `CONJUNCT2`
    Conjunct2,
    /// `MP`
    Mp,
    /// `INST_TYPE`
    InstType,
    /// The backquote.
    Backquote,
    /// `:`
    Colon,
    /// `=`
    Equals,
    /// `<=>`
    Iff,
    /// `->`
    Arrow,
    /// `==>`
    Implies,
    /// `\/`
    Or,
    /// `/\`
    And,
    /// `~`
    Not,
    /// `\`
    Lambda,
    /// `.`
    Dot,
}

/// What is written: the rules of the grammar.
#[derive(Clone, Copy)]
pub enum Rule {
    Command,
    Tactic,
    Alternative,
    Sequence,
    MoreSteps,
    Application,
    TacticAtom,
    TacticList,
    Tactics,
    MoreTactics,
    TheoremTactic,
    TacticArguments,
    TacticArgument,
    Group,
    Theorems,
    MoreTheorems,
    Theorem,
    SimpleTheorem,
    TypePair,
    MorePairs,
    TypeQuotation,
    Definition,
    Parameters,
    RightSide,
    Equation,
    Quotation,
    Type,
    ArrowTail,
    AppliedType,
    TypeList,
    TypeRest,
    Postfix,
    Term,
    IffTail,
    Implication,
    ImpliesTail,
    Disjunction,
    OrTail,
    Conjunction,
    AndTail,
    Equality,
    EqualsTail,
    Unary,
    Typed,
    Arguments,
    Annotation,
    Atom,
    Inside,
    AfterNot,
    AfterBinder,
    Bound,
    AfterName,
    AfterBound,
}

/// The ways to write a rule.
#[derive(Clone, Copy)]
pub enum Production {
    OpenGoal,
    RunTactic,
    DefineTactic,
    Undo,
    RotateGoals,
    Finish,
    GiveUp,
    ImportTheory,
    MakeType,
    MakeConstant,
    MakeAxiom,
    MakeDefinition,
    MakeTypeDefinition,
    SequenceFirst,
    NoAlternative,
    OrElseTactic,
    ApplicationFirst,
    NoStep,
    ThenOne,
    ThenEach,
    Called,
    BracketedTactic,
    EveryTactic,
    FirstTactic,
    RepeatTactic,
    TryTactic,
    ChangedTactic,
    ReplicateTactic,
    Discharge,
    PopAssumption,
    FirstAssumption,
    Subgoal,
    NamedAtom,
    BracketedAtom,
    ListedTactics,
    NoTactics,
    SomeTactics,
    LastTactic,
    NextTactic,
    NamedTheoremTactic,
    BracketedTheoremTactic,
    NoTacticArgument,
    MoreTacticArguments,
    TheoremArgument,
    TermArgument,
    GroupedArgument,
    ListedArgument,
    OneTheorem,
    TwoTerms,
    NoTheorems,
    SomeTheorems,
    LastTheorem,
    NextTheorem,
    Simple,
    Assumption,
    Reflexivity,
    Specialisation,
    Symmetry,
    FirstConjunct,
    SecondConjunct,
    ModusPonens,
    Instantiation,
    Cited,
    BracketedTheorem,
    TwoTypes,
    LastPair,
    NextPair,
    QuotedType,
    Defined,
    NoParameter,
    NamedParameter,
    TypedParameter,
    PlainSide,
    TypedSide,
    EqualsSide,
    IffSide,
    QuotedTerm,
    AppliedFirst,
    NoArrow,
    ToType,
    NamedType,
    ListedType,
    OneType,
    SecondType,
    LastType,
    NextType,
    NoPostfix,
    PostfixName,
    IffFirst,
    NoIff,
    MoreIff,
    ImpliesFirst,
    NoImplies,
    MoreImplies,
    OrFirst,
    NoOr,
    MoreOr,
    AndFirst,
    NoAnd,
    MoreAnd,
    EqualsFirst,
    NoEquals,
    MoreEquals,
    Plain,
    Negation,
    Binding,
    TypedTerm,
    NoArgument,
    MoreArguments,
    NoAnnotation,
    Annotated,
    Named,
    Parenthesised,
    PlainInside,
    InfixAlone,
    NotInside,
    BinderInside,
    LambdaInside,
    NotAlone,
    NotApplied,
    BinderAlone,
    BinderApplied,
    NamedBound,
    TypedBound,
    NameAlone,
    LastTyped,
    BoundBody,
    BoundMore,
}

/// A part of a production: a token of a class, or what is written of a rule.
#[derive(Clone, Copy)]
pub enum Symbol {
    /// A token of a class.
    Token(Class),
    /// What is written of a rule.
    Part(Rule),
}

impl Class {
    /// Whether a token of this sort is one of the class.
    pub fn has(self, sort: Sort) -> bool
        ensures { result ≡ has self sort }
    {
        match self {
            Class::Identifier => matches!(
                sort,
                Sort::Name
                    | Sort::Then
                    | Sort::ThenL
                    | Sort::OrElse
                    | Sort::Repeat
                    | Sort::Try
                    | Sort::Changed
                    | Sort::Every
                    | Sort::First
                    | Sort::Replicate
                    | Sort::DischThen
                    | Sort::PopAssum
                    | Sort::FirstAssum
                    | Sort::SubgoalThen
                    | Sort::Assume
                    | Sort::Refl
                    | Sort::Spec
                    | Sort::Sym
                    | Sort::Conjunct1
                    | Sort::Conjunct2
                    | Sort::Mp
                    | Sort::InstType
                    | Sort::Goal
                    | Sort::Apply
                    | Sort::DefineTac
                    | Sort::Back
                    | Sort::Rotate
                    | Sort::Qed
                    | Sort::Oops
                    | Sort::Import
                    | Sort::NewType
                    | Sort::NewConstant
                    | Sort::NewAxiom
                    | Sort::NewDefinition
                    | Sort::NewBasicTypeDefinition
            ),
            Class::Parameter => matches!(
                sort,
                Sort::Name
                    | Sort::Then
                    | Sort::ThenL
                    | Sort::OrElse
                    | Sort::Repeat
                    | Sort::Try
                    | Sort::Changed
                    | Sort::Every
                    | Sort::First
                    | Sort::Replicate
                    | Sort::DischThen
                    | Sort::PopAssum
                    | Sort::FirstAssum
                    | Sort::SubgoalThen
                    | Sort::Assume
                    | Sort::Refl
                    | Sort::Spec
                    | Sort::Sym
                    | Sort::Conjunct1
                    | Sort::Conjunct2
                    | Sort::Mp
                    | Sort::InstType
                    | Sort::Goal
                    | Sort::Apply
                    | Sort::DefineTac
                    | Sort::Back
                    | Sort::Rotate
                    | Sort::Qed
                    | Sort::Oops
                    | Sort::Import
                    | Sort::NewType
                    | Sort::NewConstant
                    | Sort::NewAxiom
                    | Sort::NewDefinition
                    | Sort::NewBasicTypeDefinition
            ),
            Class::FreeName => matches!(
                sort,
                Sort::Name
                    | Sort::Goal
                    | Sort::Apply
                    | Sort::DefineTac
                    | Sort::Back
                    | Sort::Rotate
                    | Sort::Qed
                    | Sort::Oops
                    | Sort::Import
                    | Sort::NewType
                    | Sort::NewConstant
                    | Sort::NewAxiom
                    | Sort::NewDefinition
                    | Sort::NewBasicTypeDefinition
            ),
            Class::Constant => matches!(
                sort,
                Sort::Name
                    | Sort::Goal
                    | Sort::Apply
                    | Sort::DefineTac
                    | Sort::Back
                    | Sort::Rotate
                    | Sort::Qed
                    | Sort::Oops
                    | Sort::Import
                    | Sort::NewType
                    | Sort::NewConstant
                    | Sort::NewAxiom
                    | Sort::NewDefinition
                    | Sort::NewBasicTypeDefinition
            ),
            Class::Number => matches!(sort, Sort::Small | Sort::Large),
            Class::Arity => matches!(sort, Sort::Small),
            Class::Infix => matches!(
                sort,
                Sort::Equals | Sort::And | Sort::Or | Sort::Implies | Sort::Iff
            ),
            Class::Binder => matches!(
                sort,
                Sort::Lambda | Sort::ForAll | Sort::Exists | Sort::ExistsUnique | Sort::Choice
            ),
            Class::Quantifier => matches!(
                sort,
                Sort::ForAll | Sort::Exists | Sort::ExistsUnique | Sort::Choice
            ),
            Class::Goal => matches!(sort, Sort::Goal),
            Class::Apply => matches!(sort, Sort::Apply),
            Class::DefineTac => matches!(sort, Sort::DefineTac),
            Class::Back => matches!(sort, Sort::Back),
            Class::Rotate => matches!(sort, Sort::Rotate),
            Class::Qed => matches!(sort, Sort::Qed),
            Class::Oops => matches!(sort, Sort::Oops),
            Class::Import => matches!(sort, Sort::Import),
            Class::NewType => matches!(sort, Sort::NewType),
            Class::NewConstant => matches!(sort, Sort::NewConstant),
            Class::NewAxiom => matches!(sort, Sort::NewAxiom),
            Class::NewDefinition => matches!(sort, Sort::NewDefinition),
            Class::NewBasicTypeDefinition => matches!(sort, Sort::NewBasicTypeDefinition),
            Class::OrElse => matches!(sort, Sort::OrElse),
            Class::Then => matches!(sort, Sort::Then),
            Class::ThenL => matches!(sort, Sort::ThenL),
            Class::Open => matches!(sort, Sort::Open),
            Class::Close => matches!(sort, Sort::Close),
            Class::Every => matches!(sort, Sort::Every),
            Class::First => matches!(sort, Sort::First),
            Class::Repeat => matches!(sort, Sort::Repeat),
            Class::Try => matches!(sort, Sort::Try),
            Class::Changed => matches!(sort, Sort::Changed),
            Class::Replicate => matches!(sort, Sort::Replicate),
            Class::DischThen => matches!(sort, Sort::DischThen),
            Class::PopAssum => matches!(sort, Sort::PopAssum),
            Class::FirstAssum => matches!(sort, Sort::FirstAssum),
            Class::SubgoalThen => matches!(sort, Sort::SubgoalThen),
            Class::OpenList => matches!(sort, Sort::OpenList),
            Class::CloseList => matches!(sort, Sort::CloseList),
            Class::Semicolon => matches!(sort, Sort::Semicolon),
            Class::Comma => matches!(sort, Sort::Comma),
            Class::Assume => matches!(sort, Sort::Assume),
            Class::Refl => matches!(sort, Sort::Refl),
            Class::Spec => matches!(sort, Sort::Spec),
            Class::Sym => matches!(sort, Sort::Sym),
            Class::Conjunct1 => matches!(sort, Sort::Conjunct1),
            Class::Conjunct2 => matches!(sort, Sort::Conjunct2),
            Class::Mp => matches!(sort, Sort::Mp),
            Class::InstType => matches!(sort, Sort::InstType),
            Class::Backquote => matches!(sort, Sort::Backquote),
            Class::Colon => matches!(sort, Sort::Colon),
            Class::Equals => matches!(sort, Sort::Equals),
            Class::Iff => matches!(sort, Sort::Iff),
            Class::Arrow => matches!(sort, Sort::Arrow),
            Class::Implies => matches!(sort, Sort::Implies),
            Class::Or => matches!(sort, Sort::Or),
            Class::And => matches!(sort, Sort::And),
            Class::Not => matches!(sort, Sort::Not),
            Class::Lambda => matches!(sort, Sort::Lambda),
            Class::Dot => matches!(sort, Sort::Dot),
        }
    }

    /// Whether its tokens are names that have to differ: of the constant that is defined, and of its parameters.
    pub fn binds(self) -> bool
        ensures { result ≡ binds self }
    {
        matches!(self, Class::Parameter | Class::Constant)
    }
}

impl Rule {
    /// The ways to write it.
    pub fn productions(self) -> &'static [Production]
        ensures { result.now ≡ productions self }
    {
        match self {
            Rule::Command => &[
                Production::OpenGoal,
                Production::RunTactic,
                Production::DefineTactic,
                Production::Undo,
                Production::RotateGoals,
                Production::Finish,
                Production::GiveUp,
                Production::ImportTheory,
                Production::MakeType,
                Production::MakeConstant,
                Production::MakeAxiom,
                Production::MakeDefinition,
                Production::MakeTypeDefinition,
            ],
            Rule::Tactic => &[Production::SequenceFirst],
            Rule::Alternative => &[Production::NoAlternative, Production::OrElseTactic],
            Rule::Sequence => &[Production::ApplicationFirst],
            Rule::MoreSteps => &[
                Production::NoStep,
                Production::ThenOne,
                Production::ThenEach,
            ],
            Rule::Application => &[
                Production::Called,
                Production::BracketedTactic,
                Production::EveryTactic,
                Production::FirstTactic,
                Production::RepeatTactic,
                Production::TryTactic,
                Production::ChangedTactic,
                Production::ReplicateTactic,
                Production::Discharge,
                Production::PopAssumption,
                Production::FirstAssumption,
                Production::Subgoal,
            ],
            Rule::TacticAtom => &[Production::NamedAtom, Production::BracketedAtom],
            Rule::TacticList => &[Production::ListedTactics],
            Rule::Tactics => &[Production::NoTactics, Production::SomeTactics],
            Rule::MoreTactics => &[Production::LastTactic, Production::NextTactic],
            Rule::TheoremTactic => &[
                Production::NamedTheoremTactic,
                Production::BracketedTheoremTactic,
            ],
            Rule::TacticArguments => &[
                Production::NoTacticArgument,
                Production::MoreTacticArguments,
            ],
            Rule::TacticArgument => &[
                Production::TheoremArgument,
                Production::TermArgument,
                Production::GroupedArgument,
                Production::ListedArgument,
            ],
            Rule::Group => &[Production::OneTheorem, Production::TwoTerms],
            Rule::Theorems => &[Production::NoTheorems, Production::SomeTheorems],
            Rule::MoreTheorems => &[Production::LastTheorem, Production::NextTheorem],
            Rule::Theorem => &[
                Production::Simple,
                Production::Assumption,
                Production::Reflexivity,
                Production::Specialisation,
                Production::Symmetry,
                Production::FirstConjunct,
                Production::SecondConjunct,
                Production::ModusPonens,
                Production::Instantiation,
            ],
            Rule::SimpleTheorem => &[Production::Cited, Production::BracketedTheorem],
            Rule::TypePair => &[Production::TwoTypes],
            Rule::MorePairs => &[Production::LastPair, Production::NextPair],
            Rule::TypeQuotation => &[Production::QuotedType],
            Rule::Definition => &[Production::Defined],
            Rule::Parameters => &[
                Production::NoParameter,
                Production::NamedParameter,
                Production::TypedParameter,
            ],
            Rule::RightSide => &[Production::PlainSide, Production::TypedSide],
            Rule::Equation => &[Production::EqualsSide, Production::IffSide],
            Rule::Quotation => &[Production::QuotedTerm],
            Rule::Type => &[Production::AppliedFirst],
            Rule::ArrowTail => &[Production::NoArrow, Production::ToType],
            Rule::AppliedType => &[Production::NamedType, Production::ListedType],
            Rule::TypeList => &[Production::OneType, Production::SecondType],
            Rule::TypeRest => &[Production::LastType, Production::NextType],
            Rule::Postfix => &[Production::NoPostfix, Production::PostfixName],
            Rule::Term => &[Production::IffFirst],
            Rule::IffTail => &[Production::NoIff, Production::MoreIff],
            Rule::Implication => &[Production::ImpliesFirst],
            Rule::ImpliesTail => &[Production::NoImplies, Production::MoreImplies],
            Rule::Disjunction => &[Production::OrFirst],
            Rule::OrTail => &[Production::NoOr, Production::MoreOr],
            Rule::Conjunction => &[Production::AndFirst],
            Rule::AndTail => &[Production::NoAnd, Production::MoreAnd],
            Rule::Equality => &[Production::EqualsFirst],
            Rule::EqualsTail => &[Production::NoEquals, Production::MoreEquals],
            Rule::Unary => &[Production::Plain, Production::Negation, Production::Binding],
            Rule::Typed => &[Production::TypedTerm],
            Rule::Arguments => &[Production::NoArgument, Production::MoreArguments],
            Rule::Annotation => &[Production::NoAnnotation, Production::Annotated],
            Rule::Atom => &[Production::Named, Production::Parenthesised],
            Rule::Inside => &[
                Production::PlainInside,
                Production::InfixAlone,
                Production::NotInside,
                Production::BinderInside,
                Production::LambdaInside,
            ],
            Rule::AfterNot => &[Production::NotAlone, Production::NotApplied],
            Rule::AfterBinder => &[Production::BinderAlone, Production::BinderApplied],
            Rule::Bound => &[Production::NamedBound, Production::TypedBound],
            Rule::AfterName => &[Production::NameAlone, Production::LastTyped],
            Rule::AfterBound => &[Production::BoundBody, Production::BoundMore],
        }
    }
}

impl Production {
    /// Its parts.
    pub fn symbols(self) -> &'static [Symbol]
        ensures { result.now ≡ symbols self }
    {
        match self {
            Production::OpenGoal => &[
                Symbol::Token(Class::Goal),
                Symbol::Token(Class::FreeName),
                Symbol::Part(Rule::Quotation),
            ],
            Production::RunTactic => &[Symbol::Token(Class::Apply), Symbol::Part(Rule::Tactic)],
            Production::DefineTactic => &[
                Symbol::Token(Class::DefineTac),
                Symbol::Token(Class::FreeName),
                Symbol::Part(Rule::Tactic),
            ],
            Production::Undo => &[Symbol::Token(Class::Back)],
            Production::RotateGoals => &[
                Symbol::Token(Class::Rotate),
                Symbol::Token(Class::Number),
            ],
            Production::Finish => &[Symbol::Token(Class::Qed)],
            Production::GiveUp => &[Symbol::Token(Class::Oops)],
            Production::ImportTheory => &[
                Symbol::Token(Class::Import),
                Symbol::Token(Class::FreeName),
            ],
            Production::MakeType => &[
                Symbol::Token(Class::NewType),
                Symbol::Token(Class::FreeName),
                Symbol::Token(Class::Arity),
            ],
            Production::MakeConstant => &[
                Symbol::Token(Class::NewConstant),
                Symbol::Token(Class::FreeName),
                Symbol::Part(Rule::TypeQuotation),
            ],
            Production::MakeAxiom => &[
                Symbol::Token(Class::NewAxiom),
                Symbol::Token(Class::FreeName),
                Symbol::Part(Rule::Quotation),
            ],
            Production::MakeDefinition => &[
                Symbol::Token(Class::NewDefinition),
                Symbol::Token(Class::FreeName),
                Symbol::Part(Rule::Definition),
            ],
            Production::MakeTypeDefinition => &[
                Symbol::Token(Class::NewBasicTypeDefinition),
                Symbol::Token(Class::FreeName),
                Symbol::Token(Class::FreeName),
                Symbol::Token(Class::FreeName),
                Symbol::Token(Class::FreeName),
                Symbol::Token(Class::FreeName),
                Symbol::Token(Class::FreeName),
            ],
            Production::SequenceFirst => &[
                Symbol::Part(Rule::Sequence),
                Symbol::Part(Rule::Alternative),
            ],
            Production::NoAlternative => &[],
            Production::OrElseTactic => &[Symbol::Token(Class::OrElse), Symbol::Part(Rule::Tactic)],
            Production::ApplicationFirst => &[
                Symbol::Part(Rule::Application),
                Symbol::Part(Rule::MoreSteps),
            ],
            Production::NoStep => &[],
            Production::ThenOne => &[
                Symbol::Token(Class::Then),
                Symbol::Part(Rule::Application),
                Symbol::Part(Rule::MoreSteps),
            ],
            Production::ThenEach => &[
                Symbol::Token(Class::ThenL),
                Symbol::Part(Rule::TacticList),
                Symbol::Part(Rule::MoreSteps),
            ],
            Production::Called => &[
                Symbol::Token(Class::FreeName),
                Symbol::Part(Rule::TacticArguments),
            ],
            Production::BracketedTactic => &[
                Symbol::Token(Class::Open),
                Symbol::Part(Rule::Tactic),
                Symbol::Token(Class::Close),
            ],
            Production::EveryTactic => &[
                Symbol::Token(Class::Every),
                Symbol::Part(Rule::TacticList),
            ],
            Production::FirstTactic => &[
                Symbol::Token(Class::First),
                Symbol::Part(Rule::TacticList),
            ],
            Production::RepeatTactic => &[
                Symbol::Token(Class::Repeat),
                Symbol::Part(Rule::TacticAtom),
            ],
            Production::TryTactic => &[Symbol::Token(Class::Try), Symbol::Part(Rule::TacticAtom)],
            Production::ChangedTactic => &[
                Symbol::Token(Class::Changed),
                Symbol::Part(Rule::TacticAtom),
            ],
            Production::ReplicateTactic => &[
                Symbol::Token(Class::Replicate),
                Symbol::Token(Class::Number),
                Symbol::Part(Rule::TacticAtom),
            ],
            Production::Discharge => &[
                Symbol::Token(Class::DischThen),
                Symbol::Part(Rule::TheoremTactic),
            ],
            Production::PopAssumption => &[
                Symbol::Token(Class::PopAssum),
                Symbol::Part(Rule::TheoremTactic),
            ],
            Production::FirstAssumption => &[
                Symbol::Token(Class::FirstAssum),
                Symbol::Part(Rule::TheoremTactic),
            ],
            Production::Subgoal => &[
                Symbol::Token(Class::SubgoalThen),
                Symbol::Part(Rule::Quotation),
                Symbol::Part(Rule::TheoremTactic),
            ],
            Production::NamedAtom => &[Symbol::Token(Class::FreeName)],
            Production::BracketedAtom => &[
                Symbol::Token(Class::Open),
                Symbol::Part(Rule::Tactic),
                Symbol::Token(Class::Close),
            ],
            Production::ListedTactics => &[
                Symbol::Token(Class::OpenList),
                Symbol::Part(Rule::Tactics),
            ],
            Production::NoTactics => &[Symbol::Token(Class::CloseList)],
            Production::SomeTactics => &[
                Symbol::Part(Rule::Tactic),
                Symbol::Part(Rule::MoreTactics),
            ],
            Production::LastTactic => &[Symbol::Token(Class::CloseList)],
            Production::NextTactic => &[
                Symbol::Token(Class::Semicolon),
                Symbol::Part(Rule::Tactic),
                Symbol::Part(Rule::MoreTactics),
            ],
            Production::NamedTheoremTactic => &[Symbol::Token(Class::FreeName)],
            Production::BracketedTheoremTactic => &[
                Symbol::Token(Class::Open),
                Symbol::Token(Class::FreeName),
                Symbol::Part(Rule::TacticArguments),
                Symbol::Token(Class::Close),
            ],
            Production::NoTacticArgument => &[],
            Production::MoreTacticArguments => &[
                Symbol::Part(Rule::TacticArgument),
                Symbol::Part(Rule::TacticArguments),
            ],
            Production::TheoremArgument => &[Symbol::Token(Class::FreeName)],
            Production::TermArgument => &[Symbol::Part(Rule::Quotation)],
            Production::GroupedArgument => &[Symbol::Token(Class::Open), Symbol::Part(Rule::Group)],
            Production::ListedArgument => &[
                Symbol::Token(Class::OpenList),
                Symbol::Part(Rule::Theorems),
            ],
            Production::OneTheorem => &[Symbol::Part(Rule::Theorem), Symbol::Token(Class::Close)],
            Production::TwoTerms => &[
                Symbol::Part(Rule::Quotation),
                Symbol::Token(Class::Comma),
                Symbol::Part(Rule::Quotation),
                Symbol::Token(Class::Close),
            ],
            Production::NoTheorems => &[Symbol::Token(Class::CloseList)],
            Production::SomeTheorems => &[
                Symbol::Part(Rule::Theorem),
                Symbol::Part(Rule::MoreTheorems),
            ],
            Production::LastTheorem => &[Symbol::Token(Class::CloseList)],
            Production::NextTheorem => &[
                Symbol::Token(Class::Semicolon),
                Symbol::Part(Rule::Theorem),
                Symbol::Part(Rule::MoreTheorems),
            ],
            Production::Simple => &[Symbol::Part(Rule::SimpleTheorem)],
            Production::Assumption => &[
                Symbol::Token(Class::Assume),
                Symbol::Part(Rule::Quotation),
            ],
            Production::Reflexivity => &[Symbol::Token(Class::Refl), Symbol::Part(Rule::Quotation)],
            Production::Specialisation => &[
                Symbol::Token(Class::Spec),
                Symbol::Part(Rule::Quotation),
                Symbol::Part(Rule::SimpleTheorem),
            ],
            Production::Symmetry => &[Symbol::Token(Class::Sym), Symbol::Part(Rule::SimpleTheorem)],
            Production::FirstConjunct => &[
                Symbol::Token(Class::Conjunct1),
                Symbol::Part(Rule::SimpleTheorem),
            ],
            Production::SecondConjunct => &[
                Symbol::Token(Class::Conjunct2),
                Symbol::Part(Rule::SimpleTheorem),
            ],
            Production::ModusPonens => &[
                Symbol::Token(Class::Mp),
                Symbol::Part(Rule::SimpleTheorem),
                Symbol::Part(Rule::SimpleTheorem),
            ],
            Production::Instantiation => &[
                Symbol::Token(Class::InstType),
                Symbol::Token(Class::OpenList),
                Symbol::Part(Rule::TypePair),
                Symbol::Part(Rule::MorePairs),
                Symbol::Part(Rule::SimpleTheorem),
            ],
            Production::Cited => &[Symbol::Token(Class::FreeName)],
            Production::BracketedTheorem => &[
                Symbol::Token(Class::Open),
                Symbol::Part(Rule::Theorem),
                Symbol::Token(Class::Close),
            ],
            Production::TwoTypes => &[
                Symbol::Part(Rule::TypeQuotation),
                Symbol::Token(Class::Comma),
                Symbol::Part(Rule::TypeQuotation),
            ],
            Production::LastPair => &[Symbol::Token(Class::CloseList)],
            Production::NextPair => &[
                Symbol::Token(Class::Semicolon),
                Symbol::Part(Rule::TypePair),
                Symbol::Part(Rule::MorePairs),
            ],
            Production::QuotedType => &[
                Symbol::Token(Class::Backquote),
                Symbol::Token(Class::Colon),
                Symbol::Part(Rule::Type),
                Symbol::Token(Class::Backquote),
            ],
            Production::Defined => &[
                Symbol::Token(Class::Backquote),
                Symbol::Token(Class::Constant),
                Symbol::Part(Rule::Parameters),
            ],
            Production::NoParameter => &[Symbol::Part(Rule::RightSide)],
            Production::NamedParameter => &[
                Symbol::Token(Class::Parameter),
                Symbol::Part(Rule::Parameters),
            ],
            Production::TypedParameter => &[
                Symbol::Token(Class::Open),
                Symbol::Token(Class::Parameter),
                Symbol::Token(Class::Colon),
                Symbol::Part(Rule::Type),
                Symbol::Token(Class::Close),
                Symbol::Part(Rule::Parameters),
            ],
            Production::PlainSide => &[Symbol::Part(Rule::Equation)],
            Production::TypedSide => &[
                Symbol::Token(Class::Colon),
                Symbol::Part(Rule::Type),
                Symbol::Part(Rule::Equation),
            ],
            Production::EqualsSide => &[
                Symbol::Token(Class::Equals),
                Symbol::Part(Rule::Equality),
                Symbol::Token(Class::Backquote),
            ],
            Production::IffSide => &[
                Symbol::Token(Class::Iff),
                Symbol::Part(Rule::Term),
                Symbol::Token(Class::Backquote),
            ],
            Production::QuotedTerm => &[
                Symbol::Token(Class::Backquote),
                Symbol::Part(Rule::Term),
                Symbol::Token(Class::Backquote),
            ],
            Production::AppliedFirst => &[
                Symbol::Part(Rule::AppliedType),
                Symbol::Part(Rule::ArrowTail),
            ],
            Production::NoArrow => &[],
            Production::ToType => &[Symbol::Token(Class::Arrow), Symbol::Part(Rule::Type)],
            Production::NamedType => &[
                Symbol::Token(Class::Identifier),
                Symbol::Part(Rule::Postfix),
            ],
            Production::ListedType => &[
                Symbol::Token(Class::Open),
                Symbol::Part(Rule::Type),
                Symbol::Part(Rule::TypeList),
            ],
            Production::OneType => &[Symbol::Token(Class::Close), Symbol::Part(Rule::Postfix)],
            Production::SecondType => &[
                Symbol::Token(Class::Comma),
                Symbol::Part(Rule::Type),
                Symbol::Part(Rule::TypeRest),
            ],
            Production::LastType => &[
                Symbol::Token(Class::Close),
                Symbol::Token(Class::Identifier),
                Symbol::Part(Rule::Postfix),
            ],
            Production::NextType => &[
                Symbol::Token(Class::Comma),
                Symbol::Part(Rule::Type),
                Symbol::Part(Rule::TypeRest),
            ],
            Production::NoPostfix => &[],
            Production::PostfixName => &[
                Symbol::Token(Class::Identifier),
                Symbol::Part(Rule::Postfix),
            ],
            Production::IffFirst => &[Symbol::Part(Rule::Implication), Symbol::Part(Rule::IffTail)],
            Production::NoIff => &[],
            Production::MoreIff => &[Symbol::Token(Class::Iff), Symbol::Part(Rule::Term)],
            Production::ImpliesFirst => &[
                Symbol::Part(Rule::Disjunction),
                Symbol::Part(Rule::ImpliesTail),
            ],
            Production::NoImplies => &[],
            Production::MoreImplies => &[
                Symbol::Token(Class::Implies),
                Symbol::Part(Rule::Implication),
            ],
            Production::OrFirst => &[Symbol::Part(Rule::Conjunction), Symbol::Part(Rule::OrTail)],
            Production::NoOr => &[],
            Production::MoreOr => &[Symbol::Token(Class::Or), Symbol::Part(Rule::Disjunction)],
            Production::AndFirst => &[Symbol::Part(Rule::Equality), Symbol::Part(Rule::AndTail)],
            Production::NoAnd => &[],
            Production::MoreAnd => &[Symbol::Token(Class::And), Symbol::Part(Rule::Conjunction)],
            Production::EqualsFirst => &[Symbol::Part(Rule::Unary), Symbol::Part(Rule::EqualsTail)],
            Production::NoEquals => &[],
            Production::MoreEquals => &[Symbol::Token(Class::Equals), Symbol::Part(Rule::Equality)],
            Production::Plain => &[Symbol::Part(Rule::Typed)],
            Production::Negation => &[Symbol::Token(Class::Not), Symbol::Part(Rule::Unary)],
            Production::Binding => &[Symbol::Token(Class::Binder), Symbol::Part(Rule::Bound)],
            Production::TypedTerm => &[
                Symbol::Part(Rule::Atom),
                Symbol::Part(Rule::Arguments),
                Symbol::Part(Rule::Annotation),
            ],
            Production::NoArgument => &[],
            Production::MoreArguments => &[Symbol::Part(Rule::Atom), Symbol::Part(Rule::Arguments)],
            Production::NoAnnotation => &[],
            Production::Annotated => &[Symbol::Token(Class::Colon), Symbol::Part(Rule::Type)],
            Production::Named => &[Symbol::Token(Class::Identifier)],
            Production::Parenthesised => &[Symbol::Token(Class::Open), Symbol::Part(Rule::Inside)],
            Production::PlainInside => &[
                Symbol::Part(Rule::Typed),
                Symbol::Part(Rule::EqualsTail),
                Symbol::Part(Rule::AndTail),
                Symbol::Part(Rule::OrTail),
                Symbol::Part(Rule::ImpliesTail),
                Symbol::Part(Rule::IffTail),
                Symbol::Token(Class::Close),
            ],
            Production::InfixAlone => &[Symbol::Token(Class::Infix), Symbol::Token(Class::Close)],
            Production::NotInside => &[Symbol::Token(Class::Not), Symbol::Part(Rule::AfterNot)],
            Production::BinderInside => &[
                Symbol::Token(Class::Quantifier),
                Symbol::Part(Rule::AfterBinder),
            ],
            Production::LambdaInside => &[
                Symbol::Token(Class::Lambda),
                Symbol::Part(Rule::Bound),
                Symbol::Part(Rule::EqualsTail),
                Symbol::Part(Rule::AndTail),
                Symbol::Part(Rule::OrTail),
                Symbol::Part(Rule::ImpliesTail),
                Symbol::Part(Rule::IffTail),
                Symbol::Token(Class::Close),
            ],
            Production::NotAlone => &[Symbol::Token(Class::Close)],
            Production::NotApplied => &[
                Symbol::Part(Rule::Unary),
                Symbol::Part(Rule::EqualsTail),
                Symbol::Part(Rule::AndTail),
                Symbol::Part(Rule::OrTail),
                Symbol::Part(Rule::ImpliesTail),
                Symbol::Part(Rule::IffTail),
                Symbol::Token(Class::Close),
            ],
            Production::BinderAlone => &[Symbol::Token(Class::Close)],
            Production::BinderApplied => &[
                Symbol::Part(Rule::Bound),
                Symbol::Part(Rule::EqualsTail),
                Symbol::Part(Rule::AndTail),
                Symbol::Part(Rule::OrTail),
                Symbol::Part(Rule::ImpliesTail),
                Symbol::Part(Rule::IffTail),
                Symbol::Token(Class::Close),
            ],
            Production::NamedBound => &[
                Symbol::Token(Class::Identifier),
                Symbol::Part(Rule::AfterName),
            ],
            Production::TypedBound => &[
                Symbol::Token(Class::Open),
                Symbol::Token(Class::Identifier),
                Symbol::Token(Class::Colon),
                Symbol::Part(Rule::Type),
                Symbol::Token(Class::Close),
                Symbol::Part(Rule::AfterBound),
            ],
            Production::NameAlone => &[Symbol::Part(Rule::AfterBound)],
            Production::LastTyped => &[
                Symbol::Token(Class::Colon),
                Symbol::Part(Rule::Type),
                Symbol::Token(Class::Dot),
                Symbol::Part(Rule::Term),
            ],
            Production::BoundBody => &[Symbol::Token(Class::Dot), Symbol::Part(Rule::Term)],
            Production::BoundMore => &[Symbol::Part(Rule::Bound)],
        }
    }
}
