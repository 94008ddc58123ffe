//! The names of the prelude, in their kinds.
ghost use Rattle.std.specs.Prelude.{◌≡◌, bytes_eq};
ghost use Rattle.std.specs.List.{list_any};
ghost use Rattle.hol_formulas.specs.Constants.{prelude_types, prelude_constants, prelude_axioms};

use hol_types::Name;

/// Whether the prelude has a type constructor of the name.
pub fn has_type_name(name: &Name) -> bool
    ensures { result ≡ list_any (λ p. bytes_eq name.now p.0) prelude_types }
{
    matches!(name.as_str(), "bool" | "fun" | "ind")
}

/// Whether the prelude has an axiom of the name.
pub fn has_axiom_name(name: &Name) -> bool
    ensures { result ≡ list_any (bytes_eq name.now) prelude_axioms }
{
    matches!(name.as_str(), "ETA_AX" | "SELECT_AX" | "INFINITY_AX")
}

/// Whether the prelude has a constant of the name.
pub fn has_constant_name(name: &Name) -> bool
    ensures { result ≡ list_any (λ p. bytes_eq name.now p.0) prelude_constants }
{
    match name.as_str() {
        "="
        | "@"
        | "T"
        | "F"
        | "/\\"
        | "\\/"
        | "==>"
        | "~"
        | "!"
        | "?"
        | "?!"
        | "ONE_ONE"
        | "ONTO" => true,
        _ => false,
    }
}
