//! What the identifiers of types and terms as they are written mean.
ghost use Rattle.std.specs.Prelude.{◌≡◌, codes, IfOk, IfErr, IsOkUnless, MatchOption, Some, None, true, false};
ghost use Rattle.hol_types.specs.Tree.{TyApp, type_list};
ghost use Rattle.hol_types.specs.Fun.{fun_type};
ghost use Rattle.hol_typing.specs.RawView.{raw_tree};
ghost use Rattle.hol_infer.specs.NamesView.{scope_names};
ghost use Rattle.hol_infer.specs.Resolving.{arity_of, generic_type_of, ident_type, begins_with_mark, written_variable, stands_alone, takes, type_of_text, has_arities, option_has_arities, term_has_arities, name_index, identifier, sign, bool_type, operator_raw, raw_of};
ghost use Rattle.std.specs.Option.{option_map};
ghost use Rattle.hol_infer.specs.declared.resolving.ResolveError.TheVariants.{Memory};
ghost use Rattle.hol_typing.specs.Raw.{RawConstant, RawApply, RawAbstraction, RawAnnotated};

use hol_notation_terms::{Operator, PreTerm, PreTermNode, PreType, PreTypeNode, PreVariable};
use hol_types::{Name, Ty};
use hol_typing::{RawTerm, Scheme, Variables};
use std::alloc::{AllocError, AllocFailed, Global};

/// Why identifiers are not resolved.
#[derive(Clone, Copy, Debug, PartialEq, Eq)]
pub(crate) enum ResolveError {
    /// A type constructor with another number of arguments than its arity, or arguments given to a name that is no constructor.
    Arity,
    /// There is no memory left.
    Memory,
}

impl From<AllocError> for ResolveError {
    ghost from_gives = { λ _ e. e ≡ Memory };

    fn from(_e: AllocError) -> ResolveError {
        ResolveError::Memory
    }
}

impl<T: Drop> From<AllocFailed<T>> for ResolveError {
    ghost from_gives = { λ _ e. e ≡ Memory };

    fn from(_e: AllocFailed<T>) -> ResolveError {
        ResolveError::Memory
    }
}

/// The names of the variables of the enclosing abstractions, the innermost first.
#[derive(Clone, Copy)]
pub(crate) enum Names<'a> {
    /// Under no abstraction.
    Outermost,
    /// Under an abstraction over a variable of this name, which stands in that scope.
    Inside(&'a str, &'a Names<'a>),
}

impl<'a> Names<'a> {
    // How many abstractions outwards the innermost variable of the name is.
    fn index(&self, name: &str) -> Result<Option<usize>, ResolveError>
        ensures found { IfOk result (λ i. i ≡ name_index (scope_names self.now) name.now) }
        ensures memory { IsOkUnless result ResolveError.Memory }
    {
        match self {
            Names::Outermost => Ok(None),
            Names::Inside(inner, outer) => {
                if *inner == name {
                    return Ok(Some(0));
                }
                match outer.index(name)? {
                    // More abstractions than a number can count need more memory than there is.
                    Some(index) => match index.checked_add(1) {
                        Some(next) => Ok(Some(next)),
                        None => Err(ResolveError::Memory),
                    },
                    None => Ok(None),
                }
            }
        }
    }
}

// The arity of the constructor of this name, if it stands.
fn arity(arities: &[(Name, usize)], name: &str) -> Option<usize>
    ensures { result ≡ arity_of arities.now name.now }
{
    for entry in arities {
        if entry.0.as_str() == name {
            return Some(entry.1);
        }
    }
    None
}

// The generic type of the constant of this name, if it stands.
fn generic_type<'a>(constants: &'a [(Name, Scheme)], name: &str) -> Option<&'a Scheme>
    ensures { MatchOption result (generic_type_of constants.now name.now ≡ None) (λ ty. generic_type_of constants.now name.now ≡ Some ty.now) }
{
    for entry in constants {
        if entry.0.as_str() == name {
            return Some(&entry.1);
        }
    }
    None
}

// Whether the name is a constructor of so many arguments.
fn takes(arities: &[(Name, usize)], name: &str, count: usize) -> bool
    ensures { result ≡ takes (arity_of arities.now name.now) count }
{
    match arity(arities, name) {
        Some(arity) => arity == count,
        None => false,
    }
}

// Whether the name is one that types that are left open have.
fn begins_with_mark(name: &str) -> bool
    ensures { result ≡ begins_with_mark name.now }
{
    name.as_bytes().first() == Some(&b'?')
}

// The name of the type variable that is written so.
fn written_variable(alloc: Global, name: &str) -> Result<Name, AllocError>
    ensures { IfOk result (λ variable. variable ≡ written_variable name.now) }
{
    if !begins_with_mark(name) {
        return Name::new(alloc, name);
    }
    let marked = format!(in alloc; "?{name}")?;
    Name::new(alloc, marked.as_str())
}

// The type of an identifier without arguments.
fn ident_type(alloc: Global, arities: &[(Name, usize)], name: &str) -> Result<Ty, ResolveError>
    ensures ok { IfOk result (λ t. (t ≡ ident_type (arity_of arities.now name.now) name.now) × (stands_alone (arity_of arities.now name.now) ≡ true)) }
    ensures arity { IfErr result (λ e. e ≡ ResolveError.Arity → stands_alone (arity_of arities.now name.now) ≡ false) }
{
    match arity(arities, name) {
        None => Ok(Ty::var(alloc, &written_variable(alloc, name)?)?),
        Some(count) => {
            if count != 0 {
                return Err(ResolveError::Arity);
            }
            Ok(Ty::app(alloc, &Name::new(alloc, name)?, &[])?)
        }
    }
}

// The type of functions.
fn arrow(alloc: Global, domain: &Ty, range: &Ty) -> Result<Ty, ResolveError>
    ensures ok { IfOk result (λ t. t ≡ fun_type domain.now range.now) }
    ensures memory { IsOkUnless result ResolveError.Memory }
{
    Ok(Ty::fun(alloc, domain, range)?)
}

// The constructor of the name applied to the types.
fn constructed(alloc: Global, constructor: &str, types: &[Ty]) -> Result<Ty, ResolveError>
    ensures ok { IfOk result (λ t. t ≡ TyApp constructor.now (type_list types.now)) }
    ensures memory { IsOkUnless result ResolveError.Memory }
{
    let name = Name::new(alloc, constructor)?;
    Ok(Ty::app(alloc, &name, types)?)
}

/// The type that is written, among constructors of these arities.
///
/// Answers `Arity` only where a constructor stands with another number of arguments than its arity, or arguments are given to a name
/// that is no constructor.
pub(crate) fn resolve_type(
    alloc: Global,
    arities: &[(Name, usize)],
    ty: &PreType,
) -> Result<Ty, ResolveError>
    ensures ok { IfOk result (λ t. (t ≡ type_of_text arities.now ty.now) × (has_arities arities.now ty.now ≡ true)) }
    ensures arity { IfErr result (λ e. e ≡ ResolveError.Arity → has_arities arities.now ty.now ≡ false) }
{
    match ty.node() {
        PreTypeNode::Ident(name) => ident_type(alloc, arities, name.as_str()),
        PreTypeNode::Arrow(from, to) => {
            let domain = resolve_type(alloc, arities, from)?;
            let range = resolve_type(alloc, arities, to)?;
            arrow(alloc, &domain, &range)
        }
        PreTypeNode::Apply(constructor, args) => {
            if !takes(arities, constructor.as_str(), args.len()) {
                return Err(ResolveError::Arity);
            }
            let mut types = Vec::with_capacity(alloc, args.len())?;
            for arg in args {
                let ty = resolve_type(alloc, arities, arg)?;
                types.push(ty)?;
            }
            constructed(alloc, constructor.as_str(), &types)
        }
    }
}

/// The type that is written for a bound variable, if there is one.
pub(crate) fn resolve_annotation(
    alloc: Global,
    arities: &[(Name, usize)],
    annotation: &Option<PreType>,
) -> Result<Option<Ty>, ResolveError>
    ensures ok { IfOk result (λ o. (o ≡ option_map (type_of_text arities.now) annotation.now) × (option_has_arities arities.now annotation.now ≡ true)) }
    ensures arity { IfErr result (λ e. e ≡ ResolveError.Arity → option_has_arities arities.now annotation.now ≡ false) }
{
    match annotation {
        Some(ty) => {
            let own_type = resolve_type(alloc, arities, ty)?;
            Ok(Some(own_type))
        }
        None => Ok(None),
    }
}

/// The term in a box.
pub(crate) fn boxed(alloc: Global, term: RawTerm) -> Result<Box<RawTerm>, ResolveError>
    ensures ok { IfOk result (λ b. b.value ≡ term) }
    ensures memory { IsOkUnless result ResolveError.Memory }
{
    Ok(RawTerm::boxed(alloc, term)?)
}

// What an identifier means.
#[inline(never)]
fn identifier(
    alloc: Global,
    constants: &[(Name, Scheme)],
    names: &Names<'_>,
    name: &str,
) -> Result<Box<RawTerm>, ResolveError>
    ensures ok { IfOk result (λ t. raw_tree t.value ≡ identifier constants.now (scope_names names.now) name.now) }
    ensures memory { IsOkUnless result ResolveError.Memory }
{
    match names.index(name)? {
        Some(index) => boxed(alloc, RawTerm::Bound(index)),
        None => {
            let own_name = Name::new(alloc, name)?;
            match generic_type(constants, name) {
                Some(generic) => {
                    let own_type = generic.copy()?;
                    boxed(alloc, RawTerm::Constant(own_name, own_type))
                }
                None => boxed(alloc, RawTerm::Free(own_name)),
            }
        }
    }
}

// What a sign of the notation means.
fn sign(
    alloc: Global,
    constants: &[(Name, Scheme)],
    names: &Names<'_>,
    name: &str,
) -> Result<Box<RawTerm>, ResolveError>
    ensures ok { IfOk result (λ t. raw_tree t.value ≡ sign constants.now (scope_names names.now) name.now) }
    ensures memory { IsOkUnless result ResolveError.Memory }
{
    match generic_type(constants, name) {
        Some(generic) => boxed(
            alloc,
            RawTerm::Constant(Name::new(alloc, name)?, generic.copy()?),
        ),
        None => match names.index(name)? {
            Some(index) => boxed(alloc, RawTerm::Bound(index)),
            None => boxed(alloc, RawTerm::Free(Name::new(alloc, name)?)),
        },
    }
}

/// `bool`
pub(crate) fn truth_type(alloc: Global) -> Result<Ty, AllocError>
    ensures { IfOk result (λ ty. ty ≡ bool_type) }
{
    let name = Name::new(alloc, "bool")?;
    Ty::app(alloc, &name, &[])
}

// Equality of truth values.
fn equivalence(alloc: Global) -> Result<Box<RawTerm>, ResolveError>
    ensures ok { IfOk result (λ t. raw_tree t.value ≡ RawConstant (codes "=") (fun_type bool_type (fun_type bool_type bool_type))) }
    ensures memory { IsOkUnless result ResolveError.Memory }
{
    let truth = truth_type(alloc)?;
    let range = Ty::fun(alloc, &truth, &truth)?;
    let ty = Ty::fun(alloc, &truth, &range)?;
    let scheme = Scheme::of(&ty, Variables::Unknown)?;
    boxed(alloc, RawTerm::Constant(Name::new(alloc, "=")?, scheme))
}

/// What an operator means.
#[inline(never)]
pub(crate) fn operator(
    alloc: Global,
    constants: &[(Name, Scheme)],
    names: &Names<'_>,
    operator: Operator,
) -> Result<Box<RawTerm>, ResolveError>
    ensures ok { IfOk result (λ t. raw_tree t.value ≡ operator_raw constants.now (scope_names names.now) operator) }
    ensures memory { IsOkUnless result ResolveError.Memory }
{
    match operator {
        Operator::Iff => equivalence(alloc),
        Operator::Implies => sign(alloc, constants, names, "==>"),
        Operator::Or => sign(alloc, constants, names, "\\/"),
        Operator::And => sign(alloc, constants, names, "/\\"),
        Operator::Equals => sign(alloc, constants, names, "="),
        Operator::Not => sign(alloc, constants, names, "~"),
        Operator::ForAll => sign(alloc, constants, names, "!"),
        Operator::Exists => sign(alloc, constants, names, "?"),
        Operator::ExistsUnique => sign(alloc, constants, names, "?!"),
        Operator::Choice => sign(alloc, constants, names, "@"),
    }
}

/// The application of the first to the second.
#[inline(never)]
pub(crate) fn applied(
    alloc: Global,
    function: Box<RawTerm>,
    argument: Box<RawTerm>,
) -> Result<Box<RawTerm>, ResolveError>
    ensures ok { IfOk result (λ t. raw_tree t.value ≡ RawApply (raw_tree function.value) (raw_tree argument.value)) }
    ensures memory { IsOkUnless result ResolveError.Memory }
{
    Ok(RawTerm::apply(alloc, function, argument)?)
}

// The abstraction over a variable of this name.
fn over(
    alloc: Global,
    name: &str,
    annotation: Option<Ty>,
    body: Box<RawTerm>,
) -> Result<Box<RawTerm>, ResolveError>
    ensures ok { IfOk result (λ t. raw_tree t.value ≡ RawAbstraction name.now annotation (raw_tree body.value)) }
    ensures memory { IsOkUnless result ResolveError.Memory }
{
    Ok(RawTerm::abstraction(alloc, name, annotation, body)?)
}

/// The abstraction over the variable that is written.
///
/// Answers `Arity` only where its type has that fault.
#[inline(never)]
pub(crate) fn abstracted(
    alloc: Global,
    arities: &[(Name, usize)],
    variable: &PreVariable,
    body: Box<RawTerm>,
) -> Result<Box<RawTerm>, ResolveError>
    ensures ok { IfOk result (λ t. (raw_tree t.value ≡ RawAbstraction variable.now.name (option_map (type_of_text arities.now) variable.now.annotation) (raw_tree body.value)) × (option_has_arities arities.now variable.now.annotation ≡ true)) }
    ensures arity { IfErr result (λ e. e ≡ ResolveError.Arity → option_has_arities arities.now variable.now.annotation ≡ false) }
{
    let annotation = resolve_annotation(alloc, arities, &variable.annotation)?;
    over(alloc, variable.name.as_str(), annotation, body)
}

// The term with the type that is written.
#[inline(never)]
fn typed(
    alloc: Global,
    arities: &[(Name, usize)],
    term: Box<RawTerm>,
    ty: &PreType,
) -> Result<Box<RawTerm>, ResolveError>
    ensures ok { IfOk result (λ t. (raw_tree t.value ≡ RawAnnotated (raw_tree term.value) (type_of_text arities.now ty.now)) × (has_arities arities.now ty.now ≡ true)) }
    ensures arity { IfErr result (λ e. e ≡ ResolveError.Arity → has_arities arities.now ty.now ≡ false) }
{
    let ty = resolve_type(alloc, arities, ty)?;
    Ok(RawTerm::annotated(alloc, term, ty)?)
}

/// The term whose identifiers are resolved, under abstractions over variables of these names.
///
/// Answers `Arity` only where a type that is written has that fault. What it answers is in a box, so that a level of it takes little stack.
pub(crate) fn resolve(
    alloc: Global,
    constants: &[(Name, Scheme)],
    arities: &[(Name, usize)],
    names: &Names<'_>,
    term: &PreTerm,
) -> Result<Box<RawTerm>, ResolveError>
    ensures ok { IfOk result (λ t. (raw_tree t.value ≡ raw_of arities.now constants.now (scope_names names.now) term.now) × (term_has_arities arities.now term.now ≡ true)) }
    ensures arity { IfErr result (λ e. e ≡ ResolveError.Arity → term_has_arities arities.now term.now ≡ false) }
{
    match term.node() {
        PreTermNode::Ident(name) => { identifier(alloc, constants, &*names, name.as_str()) }
        PreTermNode::Operator(sign) => { operator(alloc, constants, &*names, *sign) }
        PreTermNode::Apply(function, argument) => {
            let left = resolve(alloc, constants, arities, &*names, function)?;
            let right = resolve(alloc, constants, arities, &*names, argument)?;
            applied(alloc, left, right)
        }
        PreTermNode::Abstraction(variable, body) => {
            let inside = Names::Inside(variable.name.as_str(), &*names);
            let inner = resolve(alloc, constants, arities, &inside, body)?;
            abstracted(alloc, arities, variable, inner)
        }
        PreTermNode::Typed(inner, ty) => {
            let inner = resolve(alloc, constants, arities, &*names, inner)?;
            typed(alloc, arities, inner, ty)
        }
    }
}
