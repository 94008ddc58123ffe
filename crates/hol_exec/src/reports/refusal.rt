//! Why a command was refused.

/// The kinds of refusals of commands. Each has a number and a text that clients see.
#[derive(Clone, Copy, Debug, PartialEq, Eq)]
pub enum RefusalKind {
    /// The text is no command.
    Syntax,
    /// The command opens a proof, imports or makes something while a proof is open.
    InProof,
    /// The command needs an open proof.
    NoProofOpen,
    /// No theory of that name stands earlier.
    UnknownTheory,
    /// A theorem that is cited neither stands nor is the prelude's.
    UnknownTheorem,
    /// No TAC of that name is known, or its arguments are not of its kind.
    UnknownTac,
    /// The term has no typing.
    Untypable,
    /// The term is of another type than `bool`.
    NotBool,
    /// A type constructor has another number of arguments than its arity.
    Arity,
    /// The name of what the command makes stands already, or is made twice.
    NameTaken,
    /// A variable is free in the right side of a definition, or in the predicate of a type definition.
    NotClosed,
    /// A type variable of a definition's right side is none of its type.
    NotReflected,
    /// A term that is read, a theorem that a rule gives, or a goal that is left has over 20,000 nodes.
    TooLarge,
    /// A rule by which a theorem is written doesn't apply, or a type definition's theorem is no application.
    BadRule,
    /// A theorem given to a TAC has hypotheses that are no assumptions of the goal.
    HypsNotAssumed,
    /// A TAC needs an open goal.
    NoGoalOpen,
    /// The TAC doesn't fit the goal.
    Refused,
    /// A command has no turn left to go on with.
    TurnLimit,
    /// A proof is finished only where no goal is open.
    GoalsRemain,
    /// The proof's history has its first element alone.
    NothingToUndo,
    /// Something else stands under a key of the theory that is imported.
    ImportClash,
}

impl RefusalKind {
    ghost use Rattle.std.specs.Prelude.{◌≡◌};
    ghost use Rattle.hol_exec.specs.Refusal.{kind_number, kind_text};

    /// The number that clients see.
    pub fn number(self) -> u8
        ensures { result ≡ kind_number self }
    {
        match self {
            RefusalKind::Syntax => 1,
            RefusalKind::InProof => 2,
            RefusalKind::NoProofOpen => 3,
            RefusalKind::UnknownTheory => 4,
            RefusalKind::UnknownTheorem => 5,
            RefusalKind::UnknownTac => 6,
            RefusalKind::Untypable => 7,
            RefusalKind::NotBool => 8,
            RefusalKind::Arity => 9,
            RefusalKind::NameTaken => 10,
            RefusalKind::NotClosed => 11,
            RefusalKind::NotReflected => 12,
            RefusalKind::TooLarge => 13,
            RefusalKind::BadRule => 14,
            RefusalKind::HypsNotAssumed => 15,
            RefusalKind::NoGoalOpen => 16,
            RefusalKind::Refused => 17,
            RefusalKind::TurnLimit => 18,
            RefusalKind::GoalsRemain => 19,
            RefusalKind::NothingToUndo => 20,
            RefusalKind::ImportClash => 21,
        }
    }

    /// The text that clients see.
    pub fn text(self) -> &'static str
        ensures { result.now ≡ kind_text self }
    {
        match self {
            RefusalKind::Syntax => "syntax",
            RefusalKind::InProof => "in a proof",
            RefusalKind::NoProofOpen => "no proof open",
            RefusalKind::UnknownTheory => "unknown theory",
            RefusalKind::UnknownTheorem => "unknown theorem",
            RefusalKind::UnknownTac => "unknown TAC or wrong arguments",
            RefusalKind::Untypable => "untypable",
            RefusalKind::NotBool => "not bool",
            RefusalKind::Arity => "type constructor's arity",
            RefusalKind::NameTaken => "name taken",
            RefusalKind::NotClosed => "not closed",
            RefusalKind::NotReflected => "type variables not reflected",
            RefusalKind::TooLarge => "too large",
            RefusalKind::BadRule => "bad rule",
            RefusalKind::HypsNotAssumed => "hypotheses not among assumptions",
            RefusalKind::NoGoalOpen => "no goal open",
            RefusalKind::Refused => "refused",
            RefusalKind::TurnLimit => "turn limit",
            RefusalKind::GoalsRemain => "goals remain",
            RefusalKind::NothingToUndo => "nothing to undo",
            RefusalKind::ImportClash => "import clash",
        }
    }
}
