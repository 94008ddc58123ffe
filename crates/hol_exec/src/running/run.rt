//! The outcome of a command from what it reads.
ghost use Rattle.std.specs.Prelude.{◌≡◌, true, ◌≤◌, ◌+◌, ◌-◌, ◌^◌, ℕ, List, min, IfOk, [], ◌∷◌};
ghost use Rattle.hol_terms.specs.Nameless.{nameless};
ghost use Rattle.hol_resolve.specs.Reading.{ReadsAs, IsTermReadAs};
ghost use Rattle.hol_resolve.specs.Readings.{ATerm};
ghost use Rattle.hol_notation_terms.specs.Text.{TermText};
ghost use Rattle.hol_notation_commands.specs.CommandView.{local_text};
ghost use Rattle.hol_exec.specs.ReadsValue.{AreKeyed};
ghost use Rattle.hol_exec.specs.MeterView.{setup_of, ran_of};
ghost use Rattle.hol_exec.specs.SetupView.{setup_value};
ghost use Rattle.hol_kernel.specs.Items.{Items};
ghost use Rattle.hol_goal.specs.Goal.{GoalValue};
ghost use Rattle.hol_combine.specs.Runs.{RunValue};
ghost use Rattle.hol_combine.specs.Suits.{suits_expr};
ghost use Rattle.hol_combine.specs.RunView.{refusal_value, IsError};
ghost use Rattle.hol_exec.specs.Local.{IsLocalOutcome, IsOpening, IsApplying, given_by, refused_outcome, run_outcome, opens, opens_term, applied, finishes, finished};
ghost use Rattle.hol_exec.specs.Signature.{signature_of};
ghost use Rattle.hol_exec.specs.Resolved.{resolved_basis};
ghost use Rattle.hol_exec.specs.Standing.{first_taken};
ghost use Rattle.hol_exec.specs.OutcomeValue.{Leaves};
ghost use Rattle.hol_exec.specs.Valid.{IsStatement, IsLeft};

use crate::declaring::making;
use crate::reading::{is_statement, read_cited};
use crate::reads::{Closing, Reads};
use crate::reports::RefusalKind;
use crate::resolving::{Resolution, resolve, term_basis};
use crate::running::meter::Meter;
use crate::running::naming::name_tactic;
use crate::running::outcome::Outcome;
use crate::running::refused::{name_taken, refused, refused_at, refused_name};
use crate::running::setup::Setup;
use crate::running::tested::Tested;
use hol_combine::{Expr, Refusal, RunError, run};
use hol_goal::{Goal, Names};
use hol_just::Step;
use hol_kernel::Basis;
use hol_notation_commands::LocalCommand;
use hol_notation_tactics::TacExpr;
use hol_notation_terms::Quotation;
use hol_resolve::Reading;
use hol_stack::SharedStep;
use hol_terms::Term;
use hol_theory::{Key, Kind, Value};
use hol_types::Name;
use std::alloc::{AllocError, Global};

/// The outcome of a command, from what it reads of a state where constants have these names, and which of these were tested for it: it is determined by the set-up, the
/// command, what it reads and these. It counts one.
pub fn run_local(
    alloc: Global,
    meter: &mut Meter,
    command: &LocalCommand,
    reads: &Reads,
    names: &Names,
) -> Result<(Outcome, Tested), AllocError>
    requires { AreKeyed (local_text command.now) reads.now }
    ensures outcome { IfOk result (λ r. IsLocalOutcome (setup_of meter.old) names.now (local_text command.now) reads.now (record { outcome = r.0; tested = r.1 })) }
    ensures setup { setup_of meter.new ≡ setup_of meter.old }
    ensures ran { ran_of meter.new ≡ min (ran_of meter.old + 1) (2 ^ 64 - 1) }
    ensures rises { ran_of meter.old ≤ ran_of meter.new }
{
    meter.count();
    outcome_from(alloc, meter.setup(), command, reads, names)
}

// The outcome alone.
fn outcome_from(
    alloc: Global,
    setup: &Setup,
    command: &LocalCommand,
    reads: &Reads,
    names: &Names,
) -> Result<(Outcome, Tested), AllocError>
    requires { AreKeyed (local_text command.now) reads.now }
    ensures { IfOk result (λ r. IsLocalOutcome (setup_value setup.now) names.now (local_text command.now) reads.now (record { outcome = r.0; tested = r.1 })) }
{
    match command {
        LocalCommand::Goal { name, quotation } => Ok((
            open_goal(alloc, setup, name.as_str(), quotation, reads)?,
            Tested::none(alloc),
        )),
        LocalCommand::Apply(tactic) => apply_tactic(alloc, setup, tactic, reads, names),
        LocalCommand::Qed => Ok((finish(alloc, setup, reads)?, Tested::none(alloc))),
        LocalCommand::DefineTac { name, tactic } => Ok((
            name_tactic(alloc, setup, name.as_str(), tactic, reads)?,
            Tested::none(alloc),
        )),
        LocalCommand::Make(command) => Ok((
            making(alloc, setup, command, reads)?,
            Tested::none(alloc),
        )),
    }
}

// `g`: in a proof; arity; untypable; too large; then what is read.
fn open_goal(
    alloc: Global,
    setup: &Setup,
    name: &str,
    quotation: &Quotation,
    reads: &Reads,
) -> Result<Outcome, AllocError>
    ensures { IfOk result (λ outcome. IsOpening reads.now.in_proof name.now quotation.now reads.now outcome) }
{
    if reads.in_proof() {
        return Ok(refused(alloc, RefusalKind::InProof));
    }
    match read_cited(alloc, setup, &quotation.term, reads)? {
        Reading::WrongArity => refused_at(alloc, RefusalKind::Arity, quotation.place),
        Reading::NoTyping => refused_at(alloc, RefusalKind::Untypable, quotation.place),
        Reading::LargeReading => Ok(refused(alloc, RefusalKind::TooLarge)),
        Reading::ReadsAs(term) => open_term(alloc, name, quotation.place, term, reads),
    }
}

// A goal that reads as a term: not bool; name taken.
fn open_term(
    alloc: Global,
    name: &str,
    place: usize,
    term: Term,
    reads: &Reads,
) -> Result<Outcome, AllocError>
    requires { (t : TermText) × IsTermReadAs (signature_of reads.now.cited) t (ReadsAs (nameless [] term)) }
    ensures { IfOk result (λ outcome. outcome ≡ opens_term name.now place reads.now (nameless [] term)) }
{
    reads.promise();
    if !is_statement(&term) {
        return refused_at(alloc, RefusalKind::NotBool, place);
    }
    open_statement(alloc, name, place, term, reads)
}

// A goal that reads as a statement: name taken.
fn open_statement(
    alloc: Global,
    name: &str,
    place: usize,
    statement: Term,
    reads: &Reads,
) -> Result<Outcome, AllocError>
    requires { IsStatement (resolved_basis reads.now.cited ((place, ATerm (nameless [] statement)) ∷ [])) (nameless [] statement) }
    ensures { IfOk result (λ outcome. outcome ≡ opens name.now (nameless [] statement) (resolved_basis reads.now.cited ((place, ATerm (nameless [] statement)) ∷ [])) (first_taken [] reads.now.made)) }
{
    if let Some(key) = reads.first_taken() {
        return name_taken(alloc, key);
    }
    let name = String::from_str(alloc, name)?;
    let basis = term_basis(alloc, reads, place, &statement)?;
    Ok(Outcome::opens(name, statement, basis))
}

// `e`: no proof open; then what resolving refuses; then the run.
fn apply_tactic(
    alloc: Global,
    setup: &Setup,
    tactic: &TacExpr,
    reads: &Reads,
    names: &Names,
) -> Result<(Outcome, Tested), AllocError>
    ensures { IfOk result (λ r. IsApplying reads.now.in_proof (setup_value setup.now) names.now tactic.now reads.now (record { outcome = r.0; tested = r.1 })) }
{
    if !reads.in_proof() {
        return Ok((
            refused(alloc, RefusalKind::NoProofOpen),
            Tested::none(alloc),
        ));
    }
    match resolve(alloc, setup, None, None, tactic, reads)? {
        Resolution::Resolved(expr, basis, _) => applied(alloc, setup, reads, names, &expr, basis),
        Resolution::Unresolved(kind, arg) => {
            Ok((Outcome::refuses(kind, arg), Tested::none(alloc)))
        }
    }
}

// A resolved expression: no goal open; then what its run comes to.
fn applied(
    alloc: Global,
    setup: &Setup,
    reads: &Reads,
    names: &Names,
    expr: &Expr,
    basis: Basis,
) -> Result<(Outcome, Tested), AllocError>
    requires { suits_expr expr.now basis ≡ true }
    ensures { IfOk result (λ r. record { outcome = r.0; tested = r.1 } ≡ applied (setup_value setup.now) names.now reads.now.goal expr.now basis) }
{
    let Some(goal) = reads.goal() else {
        return Ok((refused(alloc, RefusalKind::NoGoalOpen), Tested::none(alloc)));
    };
    match run(alloc, expr, goal, setup.registry(), names, setup.turns()) {
        Ok(ran) => {
            let outcome = left(alloc, goal, ran.step, basis)?;
            with_tested(alloc, outcome, ran.tested, names)
        }
        Err(error) => {
            let (outcome, tested) = not_left(alloc, error)?;
            with_tested(alloc, outcome, tested, names)
        }
    }
}

// The outcome with the names that were tested, where constants have those.
fn with_tested(
    alloc: Global,
    outcome: Outcome,
    tested: Vec<Name>,
    names: &Names,
) -> Result<(Outcome, Tested), AllocError>
    ensures { IfOk result (λ r. record { outcome = r.0; tested = r.1 } ≡ given_by names.now outcome tested.items) }
{
    Ok((outcome, Tested::of(alloc, &tested, names)?))
}

// The outcome of a run that left no goals, and the names that were tested.
fn not_left(alloc: Global, error: RunError) -> Result<(Outcome, Vec<Name>), AllocError>
    ensures { (run : RunValue) (names : List (List ℕ)) (goal : GoalValue) (basis : Items) → IsError run error → IfOk result (λ r. given_by names r.0 r.1.items ≡ run_outcome names goal basis run) }
{
    match error {
        RunError::Refused(refusal, _, tested) => Ok((refused_by(refusal), tested)),
        RunError::TurnLimit(tested) => Ok((refused(alloc, RefusalKind::TurnLimit), tested)),
        RunError::LargeGoal(tested) => Ok((refused(alloc, RefusalKind::TooLarge), tested)),
        RunError::Memory => Err(AllocError),
    }
}

// The outcome of a refusal.
fn refused_by(refusal: Refusal) -> Outcome
    ensures { result ≡ refused_outcome (refusal_value refusal) }
{
    match refusal {
        Refusal::DoesNotFit(name) => Outcome::refuses(RefusalKind::Refused, name),
        Refusal::LacksHyps(name) => Outcome::refuses(RefusalKind::HypsNotAssumed, name),
    }
}

// What a step left of the goal.
fn left(alloc: Global, goal: &Goal, step: Step, basis: Basis) -> Result<Outcome, AllocError>
    requires { IsLeft basis step.just goal.now step.goals.items }
    ensures { IfOk result (λ outcome. outcome ≡ Leaves goal.now step.goals.items basis) }
{
    let goal = goal.copy()?;
    let step = SharedStep::new(alloc, step)?;
    Ok(Outcome::leaves(goal, step, basis))
}

// `qed`: no proof open; goals remain.
fn finish(alloc: Global, setup: &Setup, reads: &Reads) -> Result<Outcome, AllocError>
    ensures { IfOk result (λ outcome. outcome ≡ finishes reads.now.closing) }
{
    let Some(closing) = reads.closing() else {
        return Ok(refused(alloc, RefusalKind::NoProofOpen));
    };
    if closing.open_goals() > 0 {
        return Ok(refused(alloc, RefusalKind::GoalsRemain));
    }
    finished(alloc, setup, closing)
}

fn finished(alloc: Global, setup: &Setup, closing: &Closing) -> Result<Outcome, AllocError>
    requires { closing.now.open_goals ≡ 0 }
    ensures { IfOk result (λ outcome. outcome ≡ finished closing.now) }
{
    let theorem = closing.theorem(alloc)?;
    theorem.promise();
    let key = Key::new(alloc, Kind::Theorem, closing.name())?;
    let mut entries = Vec::new(alloc);
    let value = Value::theorem(alloc, theorem)?;
    entries.push((key, value))?;
    Ok(Outcome::makes(entries))
}
