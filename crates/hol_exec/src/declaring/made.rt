//! The outcome of a command that makes types, constants, axioms and definitions.
ghost use Rattle.std.specs.Prelude.{◌≡◌, IfOk, MatchOption, [], ◌∷◌, Some, None};
ghost use Rattle.std.specs.List.{IsDistinct};
ghost use Rattle.std.specs.Map.{keys_of};
ghost use Rattle.hol_terms.specs.Nameless.{nameless, nameless_type};
ghost use Rattle.hol_formulas.specs.Equation.{bool_type, dest_comb};
ghost use Rattle.hol_kernel.specs.Items.{Items};
ghost use Rattle.hol_kernel.specs.Extends.{IsDefine, IsTypeDefine};
ghost use Rattle.hol_kernel.specs.Sequent.{no_hyps};
ghost use Rattle.hol_kernel.specs.Theorem.{Theorem};
ghost use Rattle.hol_kernel.specs.Typing.{is_type_at};
ghost use Rattle.hol_equal.specs.Applied.{rand};
ghost use Rattle.hol_notation_terms.specs.Text.{TermText, TypeText};
ghost use Rattle.hol_resolve.specs.Reading.{ReadsAs, IsTermReadAs, type_reading};
ghost use Rattle.hol_theory.specs.Entry.{IsEntry};
ghost use Rattle.hol_theory.specs.Key.{key_eq, type_key, constant_key, theorem_key};
ghost use Rattle.hol_theory.specs.Making.{IsNewConstant, IsNewAxiom};
ghost use Rattle.hol_notation_commands.specs.Text.{Make, NewBasicTypeDefinition};
ghost use Rattle.hol_exec.specs.Keys.{made_by_making};
ghost use Rattle.hol_notation_commands.specs.CommandView.{making_text};
ghost use Rattle.hol_exec.specs.ReadsValue.{AreKeyed};
ghost use Rattle.hol_exec.specs.Signature.{signature_of};
ghost use Rattle.hol_exec.specs.Resolved.{cited_theorem};
ghost use Rattle.hol_exec.specs.OutcomeValue.{Makes};
ghost use Rattle.hol_exec.specs.Defining.{IsDefinitionReadAs};
ghost use Rattle.hol_exec.specs.Making.{UnlessTaken, taken, MakesOne, MakesType, constant_basis, MakesConstant, formula_basis, StatesAxiom, MakesAxiom, MakesDefined, DefinesBy, MakesDefinition, MakesTypeBy, MakesTypeOf, MakesTypeDefinition, IsMaking};
ghost use Rattle.hol_exec.specs.Valid.{IsStatement, AreNewNames};

use crate::declaring::defining::{first_free, first_unreflected, read_definition, right_of};
use crate::reading::{is_statement, read_cited, signature_of};
use crate::reads::Reads;
use crate::reports::RefusalKind;
use crate::resolving::{term_basis, theorem_at, type_basis};
use crate::running::{Outcome, Setup, name_taken, refused, refused_at, refused_name};
use hol_definition::for_all;
use hol_infer::{ReadingError, elaborate_type};
use hol_kernel::{Basis, KernelError, Thm};
use hol_notation_commands::{Making, TypeDefinition};
use hol_notation_terms::{Definition, Quotation, TypeQuotation};
use hol_resolve::Reading;
use hol_terms::{Term, TermNode};
use hol_theory::{
    DefinedNames, Key, Kind, Value, new_axiom, new_constant, new_definition, new_type,
    new_type_definition,
};
use hol_types::{Name, Ty};
use std::alloc::{AllocError, Global};

/// The outcome of a command that makes something: in a proof; then what is refused of it.
pub(crate) fn making(
    alloc: Global,
    setup: &Setup,
    command: &Making,
    reads: &Reads,
) -> Result<Outcome, AllocError>
    requires { AreKeyed (Make (making_text command.now)) reads.now }
    ensures { IfOk result (λ outcome. IsMaking reads.now.in_proof (making_text command.now) reads.now outcome) }
{
    if reads.in_proof() {
        return Ok(refused(alloc, RefusalKind::InProof));
    }
    match command {
        Making::Type { name, arity } => makes_type(alloc, name.as_str(), *arity, reads),
        Making::Constant { name, quotation } => {
            makes_constant(alloc, setup, name.as_str(), quotation, reads)
        }
        Making::Axiom { name, quotation } => {
            makes_axiom(alloc, setup, name.as_str(), quotation, reads)
        }
        Making::Definition { name, definition } => {
            makes_definition(alloc, setup, name.as_str(), definition, reads)
        }
        Making::BasicTypeDefinition(definition) => {
            makes_type_definition(alloc, setup, definition, reads)
        }
    }
}

// `new_type`: name taken.
fn makes_type(alloc: Global, name: &str, arity: u32, reads: &Reads) -> Result<Outcome, AllocError>
    requires { keys_of reads.now.made ≡ type_key name.now ∷ [] }
    ensures { IfOk result (MakesType name.now arity reads.now) }
{
    if let Some(key) = reads.first_taken() {
        return name_taken(alloc, key);
    }
    let basis = Basis::empty(alloc)?;
    let name = Name::new(alloc, name)?;
    match new_type(alloc, &basis, &name, arity) {
        Ok(entry) => one_made(alloc, entry),
        Err(error) => Err(memory_alone(error)),
    }
}

// What the kernel answers where it refuses nothing and memory is short.
fn memory_alone(error: KernelError) -> AllocError
    requires { error ≡ KernelError.Memory }
{
    match error {
        KernelError::Memory => AllocError,
        KernelError::Refused(_) => unreachable!(),
        KernelError::Clash(_) => unreachable!(),
    }
}

// One entry is made.
fn one_made(alloc: Global, entry: (Key, Value)) -> Result<Outcome, AllocError>
    requires { IsEntry entry.0 entry.1 }
    ensures { IfOk result (λ outcome. outcome ≡ Makes (entry ∷ [])) }
{
    let mut entries = Vec::new(alloc);
    entries.push(entry)?;
    Ok(Outcome::makes(entries))
}

// `new_constant`: arity; too large; name taken.
fn makes_constant(
    alloc: Global,
    setup: &Setup,
    name: &str,
    quotation: &TypeQuotation,
    reads: &Reads,
) -> Result<Outcome, AllocError>
    requires { keys_of reads.now.made ≡ constant_key name.now ∷ [] }
    ensures { IfOk result (MakesConstant name.now quotation.now reads.now) }
{
    let signature = signature_of(alloc, setup, reads.cited())?;
    match elaborate_type(alloc, &quotation.ty, &signature.types) {
        Ok(ty) => constant_of(alloc, name, quotation.place, ty, reads),
        Err(ReadingError::Arity) => refused_at(alloc, RefusalKind::Arity, quotation.place),
        Err(ReadingError::Untypable) => unreachable!(),
        Err(ReadingError::TooLarge) => Ok(refused(alloc, RefusalKind::TooLarge)),
        Err(ReadingError::Memory) => Err(AllocError),
    }
}

// A constant of the type that is read: name taken.
fn constant_of(
    alloc: Global,
    name: &str,
    place: usize,
    ty: Ty,
    reads: &Reads,
) -> Result<Outcome, AllocError>
    requires made { keys_of reads.now.made ≡ constant_key name.now ∷ [] }
    requires read { (t : TypeText) × (type_reading (signature_of reads.now.cited) t ≡ ReadsAs ty) }
    ensures { IfOk result (UnlessTaken (taken reads.now) (MakesOne (IsNewConstant (constant_basis reads.now place ty) name.now ty))) }
{
    if let Some(key) = reads.first_taken() {
        return name_taken(alloc, key);
    }
    let name = Name::new(alloc, name)?;
    let basis = type_basis(alloc, reads, place, &ty)?;
    match new_constant(alloc, &basis, &name, &ty) {
        Ok(entry) => one_made(alloc, entry),
        Err(error) => Err(memory_alone(error)),
    }
}

// `new_axiom`: arity; untypable; too large; then what is read.
fn makes_axiom(
    alloc: Global,
    setup: &Setup,
    name: &str,
    quotation: &Quotation,
    reads: &Reads,
) -> Result<Outcome, AllocError>
    requires { keys_of reads.now.made ≡ theorem_key name.now ∷ [] }
    ensures { IfOk result (MakesAxiom name.now quotation.now reads.now) }
{
    match read_cited(alloc, setup, &quotation.term, reads)? {
        Reading::WrongArity => refused_at(alloc, RefusalKind::Arity, quotation.place),
        Reading::NoTyping => refused_at(alloc, RefusalKind::Untypable, quotation.place),
        Reading::LargeReading => Ok(refused(alloc, RefusalKind::TooLarge)),
        Reading::ReadsAs(term) => axiom_of(alloc, name, quotation.place, &term, reads),
    }
}

// An axiom that reads as a term: not bool; name taken.
fn axiom_of(
    alloc: Global,
    name: &str,
    place: usize,
    term: &Term,
    reads: &Reads,
) -> Result<Outcome, AllocError>
    requires made { keys_of reads.now.made ≡ theorem_key name.now ∷ [] }
    requires read { (t : TermText) × IsTermReadAs (signature_of reads.now.cited) t (ReadsAs (nameless [] term.now)) }
    ensures { IfOk result (StatesAxiom name.now place reads.now (nameless [] term.now) (is_type_at (nameless_type [] (nameless [] term.now)) bool_type)) }
{
    if !is_statement(term) {
        return refused_at(alloc, RefusalKind::NotBool, place);
    }
    if let Some(key) = reads.first_taken() {
        return name_taken(alloc, key);
    }
    axiom_stated(alloc, name, place, term, reads)
}

// An axiom of a statement, under a new name.
fn axiom_stated(
    alloc: Global,
    name: &str,
    place: usize,
    statement: &Term,
    reads: &Reads,
) -> Result<Outcome, AllocError>
    requires made { keys_of reads.now.made ≡ theorem_key name.now ∷ [] }
    requires new { taken reads.now ≡ None }
    requires statement { IsStatement (formula_basis reads.now place (nameless [] statement.now)) (nameless [] statement.now) }
    ensures { IfOk result (MakesOne (IsNewAxiom (formula_basis reads.now place (nameless [] statement.now)) name.now (nameless [] statement.now))) }
{
    reads.promise();
    let name = Name::new(alloc, name)?;
    let basis = term_basis(alloc, reads, place, statement)?;
    match new_axiom(alloc, &basis, &name, statement) {
        Ok(entry) => one_made(alloc, entry),
        Err(error) => Err(memory_alone(error)),
    }
}

// `new_definition`: arity; untypable; too large; then what is read.
fn makes_definition(
    alloc: Global,
    setup: &Setup,
    name: &str,
    definition: &Definition,
    reads: &Reads,
) -> Result<Outcome, AllocError>
    requires { keys_of reads.now.made ≡ theorem_key name.now ∷ constant_key definition.now.name ∷ [] }
    ensures { IfOk result (MakesDefinition name.now definition.now reads.now) }
{
    match read_definition(alloc, setup, definition, reads)? {
        Reading::WrongArity => refused_at(alloc, RefusalKind::Arity, definition.place),
        Reading::NoTyping => refused_at(alloc, RefusalKind::Untypable, definition.place),
        Reading::LargeReading => Ok(refused(alloc, RefusalKind::TooLarge)),
        Reading::ReadsAs(equation) => defined_by(alloc, name, definition, &equation, reads),
    }
}

// A definition that reads as an equation: name taken; not closed; type variables not reflected.
fn defined_by(
    alloc: Global,
    name: &str,
    definition: &Definition,
    equation: &Term,
    reads: &Reads,
) -> Result<Outcome, AllocError>
    requires made { keys_of reads.now.made ≡ theorem_key name.now ∷ constant_key definition.now.name ∷ [] }
    requires read { IsDefinitionReadAs (signature_of reads.now.cited) definition.now (ReadsAs (nameless [] equation.now)) }
    ensures { IfOk result (DefinesBy name.now definition.now reads.now (nameless [] equation.now) (rand (nameless [] equation.now))) }
{
    if let Some(key) = reads.first_taken() {
        return name_taken(alloc, key);
    }
    let right = right_of(equation);
    let _ty = right.type_of();
    if let Some(variable) = first_free(alloc, right)? {
        return refused_name(alloc, RefusalKind::NotClosed, variable.as_str());
    }
    if let Some(variable) = first_unreflected(alloc, right)? {
        return refused_name(alloc, RefusalKind::NotReflected, variable.as_str());
    }
    let basis = term_basis(alloc, reads, definition.place, equation)?;
    defined(alloc, name, definition, &basis, right)
}

// The constant and the theorem of a definition.
fn defined(
    alloc: Global,
    name: &str,
    definition: &Definition,
    basis: &Basis,
    right: &Term,
) -> Result<Outcome, AllocError>
    requires { (larger : Items) × ((th : Theorem) × IsDefine basis.now definition.now.name (nameless [] right.now) larger th) }
    ensures { IfOk result (MakesDefined basis.now name.now definition.now (nameless [] right.now)) }
{
    let constant = Name::new(alloc, definition.name.as_str())?;
    match new_definition(alloc, basis, &constant, right) {
        Ok((mut entries, definition_theorem)) => {
            let theorem = for_all(alloc, definition_theorem, definition.parameters.len())?;
            theorem.promise();
            let key = Key::new(alloc, Kind::Theorem, name)?;
            let value = Value::theorem(alloc, theorem)?;
            entries.push((key, value))?;
            Ok(Outcome::makes(entries))
        }
        Err(error) => Err(memory_alone(error)),
    }
}

// `new_basic_type_definition`: unknown theorem; name taken; then what the theorem says.
fn makes_type_definition(
    alloc: Global,
    setup: &Setup,
    definition: &TypeDefinition,
    reads: &Reads,
) -> Result<Outcome, AllocError>
    requires { AreKeyed (Make (NewBasicTypeDefinition definition.now)) reads.now }
    ensures { IfOk result (MakesTypeDefinition definition.now reads.now) }
{
    let Some(member) = cited_theorem(setup, reads) else {
        return refused_name(
            alloc,
            RefusalKind::UnknownTheorem,
            definition.theorem.as_str(),
        );
    };
    if let Some(key) = reads.first_taken() {
        return name_taken(alloc, key);
    }
    type_by(alloc, definition, member)
}

// The theorem that the command cites, if it is known.
fn cited_theorem<'a>(setup: &'a Setup, reads: &'a Reads) -> Option<&'a Thm>
    ensures { MatchOption result (cited_theorem reads.now.cited ≡ None) (λ th. cited_theorem reads.now.cited ≡ Some th.now) }
{
    match reads.cited() {
        [value, ..] => theorem_at(setup, value),
        [] => None,
    }
}

// A type definition by a theorem: not closed; bad rule.
fn type_by(alloc: Global, definition: &TypeDefinition, member: &Thm) -> Result<Outcome, AllocError>
    requires unconditional { member.now.sequent.hyps ≡ no_hyps }
    requires new { AreNewNames member.now.basis definition.now }
    ensures { IfOk result (MakesTypeOf definition.now member.now (dest_comb member.now.sequent.concl)) }
{
    member.promise();
    match member.concl().node() {
        TermNode::Comb(predicate, _) => match first_free(alloc, predicate)? {
            Some(variable) => refused_name(alloc, RefusalKind::NotClosed, variable.as_str()),
            None => type_defined(alloc, definition, member),
        },
        TermNode::Var(_) | TermNode::Const(_, _) | TermNode::Abs(_, _) => {
            refused_name(alloc, RefusalKind::BadRule, "new_basic_type_definition")
        }
    }
}

// The entries of a type definition.
fn type_defined(
    alloc: Global,
    definition: &TypeDefinition,
    member: &Thm,
) -> Result<Outcome, AllocError>
    requires distinct { IsDistinct key_eq (made_by_making (NewBasicTypeDefinition definition.now)) }
    requires some { (larger : Items) × ((first : Theorem) × ((second : Theorem) × IsTypeDefine member.now.basis definition.now.ty definition.now.abs definition.now.rep member.now larger first second)) }
    ensures { IfOk result (MakesTypeBy definition.now member.now) }
{
    let name = Name::new(alloc, definition.ty.as_str())?;
    let abs = Name::new(alloc, definition.abs.as_str())?;
    let rep = Name::new(alloc, definition.rep.as_str())?;
    let names = DefinedNames {
        name: &name,
        abs: &abs,
        rep: &rep,
        abs_rep: definition.abs_rep.as_str(),
        rep_abs: definition.rep_abs.as_str(),
    };
    match new_type_definition(alloc, member.basis(), &names, member) {
        Ok(entries) => Ok(Outcome::makes(entries)),
        Err(error) => Err(memory_alone(error)),
    }
}
