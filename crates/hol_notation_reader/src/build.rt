//! What a production builds of its parts: the table of the functions that build.
ghost use Rattle.std.specs.Prelude.{◌≡◌, IfOk};
ghost use Rattle.hol_notation_grammar.specs.Table.{symbols};
ghost use Rattle.hol_notation_reader.specs.Piece.{AreOf};
ghost use Rattle.hol_notation_reader.specs.Build.{reduced};
ghost use Rattle.hol_notation_reader.specs.View.{pieces_of};

use crate::piece::Piece;
use crate::{arguments, commands, definitions, insides, tactics, terms, theorems, types};
use hol_notation_grammar::Production;
use std::alloc::{AllocError, Global};

/// Puts what the production builds in the place of its parts, which stand on top, the first on top.
pub(crate) fn reduce(
    alloc: Global,
    production: Production,
    pieces: &mut Vec<Piece<'_>>,
) -> Result<(), AllocError>
    requires { AreOf (symbols production) (pieces_of pieces.old.items) }
    ensures { IfOk result (λ _. pieces_of pieces.new.items ≡ reduced production (pieces_of pieces.old.items)) }
{
    match production {
        Production::OpenGoal => commands::open_goal(alloc, pieces),
        Production::RunTactic => commands::run_tactic(pieces),
        Production::DefineTactic => commands::define_tactic(alloc, pieces),
        Production::Undo => commands::undo(pieces),
        Production::RotateGoals => commands::rotate_goals(pieces),
        Production::Finish => commands::finish(pieces),
        Production::GiveUp => commands::give_up(pieces),
        Production::ImportTheory => commands::import_theory(alloc, pieces),
        Production::MakeType => commands::make_type(alloc, pieces),
        Production::MakeConstant => commands::make_constant(alloc, pieces),
        Production::MakeAxiom => commands::make_axiom(alloc, pieces),
        Production::MakeDefinition => commands::make_definition(alloc, pieces),
        Production::MakeTypeDefinition => commands::make_type_definition(alloc, pieces),
        Production::SequenceFirst => tactics::sequence_first(alloc, pieces),
        Production::NoAlternative => tactics::no_alternative(pieces),
        Production::OrElseTactic => tactics::or_else_tactic(pieces),
        Production::ApplicationFirst => tactics::application_first(alloc, pieces),
        Production::NoStep => tactics::no_step(alloc, pieces),
        Production::ThenOne => tactics::then_one(pieces),
        Production::ThenEach => tactics::then_each(pieces),
        Production::Called => tactics::called(alloc, pieces),
        Production::BracketedTactic | Production::BracketedAtom => tactics::bracketed_tactic(
            pieces,
        ),
        Production::EveryTactic => tactics::every_tactic(alloc, pieces),
        Production::FirstTactic => tactics::first_tactic(alloc, pieces),
        Production::RepeatTactic => tactics::repeat_tactic(alloc, pieces),
        Production::TryTactic => tactics::try_tactic(alloc, pieces),
        Production::ChangedTactic => tactics::changed_tactic(alloc, pieces),
        Production::ReplicateTactic => tactics::replicate_tactic(alloc, pieces),
        Production::Discharge => tactics::discharge(alloc, pieces),
        Production::PopAssumption => tactics::pop_assumption(alloc, pieces),
        Production::FirstAssumption => tactics::first_assumption(alloc, pieces),
        Production::Subgoal => tactics::subgoal(alloc, pieces),
        Production::NamedAtom => tactics::named_atom(alloc, pieces),
        Production::ListedTactics => tactics::listed_tactics(pieces),
        Production::NoTactics | Production::LastTactic => tactics::no_tactics(alloc, pieces),
        Production::SomeTactics => tactics::some_tactics(pieces),
        Production::NextTactic => tactics::next_tactic(pieces),
        Production::NamedTheoremTactic => arguments::named_theorem_tactic(alloc, pieces),
        Production::BracketedTheoremTactic => arguments::bracketed_theorem_tactic(alloc, pieces),
        Production::NoTacticArgument => arguments::no_tactic_argument(alloc, pieces),
        Production::MoreTacticArguments => arguments::more_tactic_arguments(pieces),
        Production::TheoremArgument => arguments::theorem_argument(alloc, pieces),
        Production::TermArgument => arguments::term_argument(pieces),
        Production::GroupedArgument => arguments::grouped_argument(pieces),
        Production::ListedArgument => arguments::listed_argument(pieces),
        Production::OneTheorem => arguments::one_theorem(pieces),
        Production::TwoTerms => arguments::two_terms(pieces),
        Production::NoTheorems | Production::LastTheorem => theorems::no_theorems(alloc, pieces),
        Production::SomeTheorems => theorems::some_theorems(pieces),
        Production::NextTheorem => theorems::next_theorem(pieces),
        Production::Simple => theorems::simple(pieces),
        Production::Assumption => theorems::assumption(alloc, pieces),
        Production::Reflexivity => theorems::reflexivity(alloc, pieces),
        Production::Specialisation => theorems::specialisation(alloc, pieces),
        Production::Symmetry => theorems::symmetry(alloc, pieces),
        Production::FirstConjunct => theorems::first_conjunct(alloc, pieces),
        Production::SecondConjunct => theorems::second_conjunct(alloc, pieces),
        Production::ModusPonens => theorems::modus_ponens(alloc, pieces),
        Production::Instantiation => theorems::instantiation(alloc, pieces),
        Production::Cited => theorems::cited(alloc, pieces),
        Production::BracketedTheorem => theorems::bracketed_theorem(pieces),
        Production::TwoTypes => theorems::two_types(pieces),
        Production::LastPair => theorems::last_pair(alloc, pieces),
        Production::NextPair => theorems::next_pair(pieces),
        Production::QuotedType => definitions::quoted_type(pieces),
        Production::Defined => definitions::defined(alloc, pieces),
        Production::NoParameter => definitions::no_parameter(alloc, pieces),
        Production::NamedParameter => definitions::named_parameter(alloc, pieces),
        Production::TypedParameter => definitions::typed_parameter(alloc, pieces),
        Production::PlainSide => definitions::plain_side(pieces),
        Production::TypedSide => definitions::typed_side(pieces),
        Production::EqualsSide => definitions::equals_side(pieces),
        Production::IffSide => definitions::iff_side(pieces),
        Production::QuotedTerm => definitions::quoted_term(pieces),
        Production::AppliedFirst => types::applied_first(alloc, pieces),
        Production::NoArrow | Production::NoAnnotation => types::no_arrow(pieces),
        Production::ToType | Production::Annotated => types::to_type(pieces),
        Production::NamedType => types::named_type(alloc, pieces),
        Production::ListedType => types::listed_type(alloc, pieces),
        Production::OneType => types::one_type(alloc, pieces),
        Production::SecondType | Production::NextType => types::second_type(pieces),
        Production::LastType => types::last_type(alloc, pieces),
        Production::NoPostfix => types::no_postfix(alloc, pieces),
        Production::PostfixName => types::postfix_name(pieces),
        Production::IffFirst => terms::iff_first(alloc, pieces),
        Production::NoIff
        | Production::NoImplies
        | Production::NoOr
        | Production::NoAnd
        | Production::NoEquals => terms::no_iff(pieces),
        Production::MoreIff
        | Production::MoreImplies
        | Production::MoreOr
        | Production::MoreAnd
        | Production::MoreEquals => terms::more_iff(pieces),
        Production::ImpliesFirst => terms::implies_first(alloc, pieces),
        Production::OrFirst => terms::or_first(alloc, pieces),
        Production::AndFirst => terms::and_first(alloc, pieces),
        Production::EqualsFirst => terms::equals_first(alloc, pieces),
        Production::Plain => terms::plain(pieces),
        Production::Negation => terms::negation(alloc, pieces),
        Production::Binding => terms::binding(alloc, pieces),
        Production::TypedTerm => terms::typed_term(alloc, pieces),
        Production::NoArgument => terms::no_argument(alloc, pieces),
        Production::MoreArguments => terms::more_arguments(pieces),
        Production::Named => terms::named(alloc, pieces),
        Production::Parenthesised => terms::parenthesised(pieces),
        Production::PlainInside => insides::plain_inside(alloc, pieces),
        Production::InfixAlone => insides::infix_alone(alloc, pieces),
        Production::NotInside => insides::not_inside(alloc, pieces),
        Production::BinderInside => insides::binder_inside(alloc, pieces),
        Production::LambdaInside => insides::lambda_inside(alloc, pieces),
        Production::NotAlone => insides::not_alone(alloc, pieces),
        Production::NotApplied => insides::not_applied(alloc, pieces),
        Production::BinderAlone => insides::binder_alone(alloc, pieces),
        Production::BinderApplied => insides::binder_applied(alloc, pieces),
        Production::NamedBound => terms::named_bound(alloc, pieces),
        Production::TypedBound => terms::typed_bound(alloc, pieces),
        Production::NameAlone => terms::name_alone(pieces),
        Production::LastTyped => terms::last_typed(alloc, pieces),
        Production::BoundBody => terms::bound_body(alloc, pieces),
        Production::BoundMore => terms::bound_more(pieces),
    }
}
