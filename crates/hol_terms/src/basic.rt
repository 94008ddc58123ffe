//! Which constants stand over every basis, with their types: each type is told by its form, without memory.
ghost use Rattle.std.specs.Prelude.{◌≡◌};
ghost use Rattle.hol_types.specs.Fun.{fun_parts};
ghost use Rattle.hol_terms.specs.Basic.{is_property, is_predicate, is_equality, is_choice, is_negation, is_connective, is_binder, is_function_property, is_basic_constant};

use hol_types::{Name, Ty};

// `a->bool`, for the type `a`.
fn is_property(ty: &Ty, domain: &Ty) -> bool
    ensures { result ≡ is_property domain.now (fun_parts ty.now) }
{
    match ty.dest_fun() {
        None => false,
        Some((own, truth)) => own.same(domain) && truth.is_bool(),
    }
}

// `a->bool`, for some type `a`.
fn is_predicate(ty: &Ty) -> bool
    ensures { result ≡ is_predicate (fun_parts ty.now) }
{
    match ty.dest_fun() {
        None => false,
        Some((_, truth)) => truth.is_bool(),
    }
}

// `a->a->bool`, for some type `a`.
fn is_equality(ty: &Ty) -> bool
    ensures { result ≡ is_equality (fun_parts ty.now) }
{
    match ty.dest_fun() {
        None => false,
        Some((left, property)) => is_property(property, left),
    }
}

// `(a->bool)->a`, for some type `a`.
fn is_choice(ty: &Ty) -> bool
    ensures { result ≡ is_choice (fun_parts ty.now) }
{
    match ty.dest_fun() {
        None => false,
        Some((property, chosen)) => is_property(property, chosen),
    }
}

// `bool->bool`.
fn is_negation(ty: &Ty) -> bool
    ensures { result ≡ is_negation (fun_parts ty.now) }
{
    match ty.dest_fun() {
        None => false,
        Some((domain, range)) => domain.is_bool() && range.is_bool(),
    }
}

// `bool->bool->bool`.
fn is_connective(ty: &Ty) -> bool
    ensures { result ≡ is_connective (fun_parts ty.now) }
{
    match ty.dest_fun() {
        None => false,
        Some((domain, range)) => domain.is_bool() && is_negation(range),
    }
}

// `(a->bool)->bool`, for some type `a`.
fn is_binder(ty: &Ty) -> bool
    ensures { result ≡ is_binder (fun_parts ty.now) }
{
    match ty.dest_fun() {
        None => false,
        Some((property, truth)) => is_predicate(property) && truth.is_bool(),
    }
}

// `(a->b)->bool`, for some types `a` and `b`.
fn is_function_property(ty: &Ty) -> bool
    ensures { result ≡ is_function_property (fun_parts ty.now) }
{
    match ty.dest_fun() {
        None => false,
        Some((function, truth)) => function.dest_fun().is_some() && truth.is_bool(),
    }
}

/// Whether the constant is one of the prelude's, at an instance of its generic type.
///
/// Takes no memory.
pub(crate) fn is_basic_constant(constant: &Name, ty: &Ty) -> bool
    ensures { result ≡ is_basic_constant constant.now ty.now }
{
    match constant.as_str() {
        "=" => is_equality(ty),
        "@" => is_choice(ty),
        "T" | "F" => ty.is_bool(),
        "/\\" | "\\/" | "==>" => is_connective(ty),
        "~" => is_negation(ty),
        "!" | "?" | "?!" => is_binder(ty),
        "ONE_ONE" | "ONTO" => is_function_property(ty),
        _ => false,
    }
}
