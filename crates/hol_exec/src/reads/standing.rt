//! Under which keys something stands.
ghost use Rattle.std.specs.Prelude.{◌≡◌};
ghost use Rattle.hol_exec.specs.Standing.{in_prelude, is_standing, is_unknown};

use hol_theory::{Key, Kind, Value};

// Whether the name is one of the prelude's of this kind.
fn in_prelude(kind: Kind, name: &str) -> bool
    ensures { result ≡ in_prelude kind name.now }
{
    match kind {
        Kind::Type => matches!(name, "bool" | "fun" | "ind"),
        Kind::Constant => matches!(
            name,
            "=" | "@"
                | "T"
                | "F"
                | "/\\"
                | "\\/"
                | "==>"
                | "~"
                | "!"
                | "?"
                | "?!"
                | "ONE_ONE"
                | "ONTO"
        ),
        Kind::Theorem => is_prelude_theorem(name),
        Kind::Tac => false,
    }
}

// Whether the name is that of a theorem of the prelude.
fn is_prelude_theorem(name: &str) -> bool
    ensures { result ≡ in_prelude Kind.Theorem name.now }
{
    matches!(
        name,
        "T_DEF"
            | "AND_DEF"
            | "IMP_DEF"
            | "FORALL_DEF"
            | "EXISTS_DEF"
            | "OR_DEF"
            | "F_DEF"
            | "NOT_DEF"
            | "EXISTS_UNIQUE_DEF"
            | "ETA_AX"
            | "SELECT_AX"
            | "ONE_ONE"
            | "ONTO"
            | "INFINITY_AX"
            | "TRUTH"
            | "REFL_CLAUSE"
            | "EQ_CLAUSES"
            | "NOT_CLAUSES_WEAK"
            | "AND_CLAUSES"
            | "OR_CLAUSES"
            | "IMP_CLAUSES"
    )
}

/// Whether something stands under the key, which has this value.
pub(crate) fn is_standing(key: &Key, value: &Option<Value>) -> bool
    ensures { result ≡ is_standing key.now value.now }
{
    value.is_some() || in_prelude(key.kind(), key.name())
}

/// Whether a key of this kind is unknown. An identifier of a term or type under whose key nothing stands is a variable.
pub(crate) fn is_unknown(kind: Kind, standing: bool) -> bool
    ensures { result ≡ is_unknown kind standing }
{
    match kind {
        Kind::Type | Kind::Constant | Kind::Tac => false,
        Kind::Theorem => !standing,
    }
}
