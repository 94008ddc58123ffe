//! The theorems of the prelude by their names.
ghost use Rattle.std.specs.Prelude.{◌≡◌, ◌++◌, ◌∷◌, [], IfOk, MatchOption, Some, None, map, take, drop};
ghost use Rattle.hol_kernel.specs.Given.{proved};
ghost use Rattle.hol_kernel.specs.Items.{no_items};
ghost use Rattle.hol_kernel.specs.Rules.{postulate_of};
ghost use Rattle.hol_kernel.specs.Theorem.{theorem_on};
ghost use Rattle.hol_prelude.specs.Statements.{prelude_statements, prelude_theorem, basic_rewrites};
ghost use Rattle.hol_prelude.specs.Prelude.{named_theorems, prelude_theorems, theorem_in};

use hol_clauses::{
    and_clauses, eq_clauses, imp_clauses, not_clauses_weak, one_one, onto, or_clauses, refl_clause,
};
use hol_derived::applied::truth;
use hol_formulas::Postulate;
use hol_kernel::{Basis, Given, Thm};
use hol_match::KeptRules;
use hol_types::Name;
use std::alloc::{AllocError, Global};
use std::marker::Model;

/// The theorems of the prelude over no items, each with its name, the basic rewrites last; and the rules of these, which are made once.
#[derive(Drop)]
pub struct Prelude {
    theorems: Vec<(Name, Thm)>,
    basic: Vec<KeptRules>,
}

impl Model for Prelude {
    ghost use Rattle.std.specs.Prelude.{◌≡◌, ℕ, List, map};
    ghost use Rattle.hol_kernel.specs.Given.{proved};
    ghost use Rattle.hol_kernel.specs.Theorem.{Theorem};
    ghost use Rattle.hol_prelude.specs.Prelude.{prelude_theorems, theorems_code};
    ghost use Rattle.hol_prelude.specs.Statements.{basic_rewrites};

    ghost Value = { List (List ℕ × Theorem) };

    ghost coded = { theorems_code };

    ghost view = { λ p. p.theorems.items };

    ghost invariant = { λ p. (p.theorems.items ≡ prelude_theorems) × (p.basic.items ≡ map proved basic_rewrites) };
}

impl Prelude {
    /// The prelude.
    pub fn new(alloc: Global) -> Result<Prelude, AllocError>
        ensures { IfOk result (λ prelude. prelude ≡ prelude_theorems) }
    {
        let mut theorems = Vec::new(alloc);
        add_given(alloc, &mut theorems)?;
        add_rewrites(alloc, &mut theorems)?;
        let basic = kept_rules(alloc, &theorems[15..])?;
        Ok(Prelude { theorems, basic })
    }

    /// The theorem of the name, and `None` of another name.
    pub fn get(&self, name: &str) -> Option<&Thm>
        ensures { MatchOption result (prelude_theorem name.now ≡ None) (λ th. prelude_theorem name.now ≡ Some th.now) }
    {
        find(&self.theorems, name)
    }

    /// The rules of the basic rewrites, in their order.
    pub fn basic(&self) -> &[KeptRules]
        ensures { result.now ≡ map proved basic_rewrites }
    {
        &self.basic
    }
}

// The rules of the theorems.
fn kept_rules(alloc: Global, entries: &[(Name, Thm)]) -> Result<Vec<KeptRules>, AllocError>
    ensures { IfOk result (λ kept. kept.items ≡ map proved (map (λ e. e.1) entries.now)) }
{
    let mut kept = Vec::new(alloc);
    for entry in entries {
        let given = Given::theorem(&entry.1)?;
        kept.push(KeptRules::of(alloc, &given)?)?;
    }
    Ok(kept)
}

// The theorem of the name in the list.
fn find<'a>(theorems: &'a [(Name, Thm)], name: &str) -> Option<&'a Thm>
    ensures { MatchOption result (theorem_in theorems.now name.now ≡ None) (λ th. theorem_in theorems.now name.now ≡ Some th.now) }
{
    for entry in theorems {
        if name == entry.0.as_str() {
            return Some(&entry.1);
        }
    }
    None
}

// The theorem at the end of the list.
fn add(
    alloc: Global,
    theorems: &mut Vec<(Name, Thm)>,
    name: &str,
    th: Thm,
) -> Result<(), AllocError>
    ensures { IfOk result (λ _. theorems.new.items ≡ theorems.old.items ++ (name.now, th) ∷ []) }
{
    let own = Name::new(alloc, name)?;
    theorems.push((own, th))?;
    Ok(())
}

// A definition or an axiom of the kernel, at the end of the list.
fn add_postulate(
    alloc: Global,
    theorems: &mut Vec<(Name, Thm)>,
    name: &str,
    which: Postulate,
) -> Result<(), AllocError>
    ensures { IfOk result (λ _. theorems.new.items ≡ theorems.old.items ++ (name.now, theorem_on no_items (postulate_of which)) ∷ []) }
{
    let th = Thm::prelude(alloc, which)?;
    add(alloc, theorems, name, th)
}

// T_DEF to OR_DEF.
fn add_connectives(alloc: Global, theorems: &mut Vec<(Name, Thm)>) -> Result<(), AllocError>
    ensures { IfOk result (λ _. theorems.new.items ≡ theorems.old.items ++ named_theorems (take 6 prelude_statements)) }
{
    add_postulate(alloc, theorems, "T_DEF", Postulate::TDef)?;
    add_postulate(alloc, theorems, "AND_DEF", Postulate::AndDef)?;
    add_postulate(alloc, theorems, "IMP_DEF", Postulate::ImpDef)?;
    add_postulate(alloc, theorems, "FORALL_DEF", Postulate::ForallDef)?;
    add_postulate(alloc, theorems, "EXISTS_DEF", Postulate::ExistsDef)?;
    add_postulate(alloc, theorems, "OR_DEF", Postulate::OrDef)
}

// F_DEF to SELECT_AX.
fn add_axioms(alloc: Global, theorems: &mut Vec<(Name, Thm)>) -> Result<(), AllocError>
    ensures { IfOk result (λ _. theorems.new.items ≡ theorems.old.items ++ named_theorems (take 5 (drop 6 prelude_statements))) }
{
    add_postulate(alloc, theorems, "F_DEF", Postulate::FDef)?;
    add_postulate(alloc, theorems, "NOT_DEF", Postulate::NotDef)?;
    add_postulate(
        alloc,
        theorems,
        "EXISTS_UNIQUE_DEF",
        Postulate::ExistsUniqueDef,
    )?;
    add_postulate(alloc, theorems, "ETA_AX", Postulate::EtaAx)?;
    add_postulate(alloc, theorems, "SELECT_AX", Postulate::SelectAx)
}

// ONE_ONE to TRUTH.
fn add_functions(alloc: Global, theorems: &mut Vec<(Name, Thm)>) -> Result<(), AllocError>
    ensures { IfOk result (λ _. theorems.new.items ≡ theorems.old.items ++ named_theorems (take 4 (drop 11 prelude_statements))) }
{
    add(alloc, theorems, "ONE_ONE", one_one(alloc)?)?;
    add(alloc, theorems, "ONTO", onto(alloc)?)?;
    add_postulate(alloc, theorems, "INFINITY_AX", Postulate::InfinityAx)?;
    let none = Basis::empty(alloc)?;
    add(alloc, theorems, "TRUTH", truth(alloc, &none)?)
}

// T_DEF to TRUTH.
fn add_given(alloc: Global, theorems: &mut Vec<(Name, Thm)>) -> Result<(), AllocError>
    ensures { IfOk result (λ _. theorems.new.items ≡ theorems.old.items ++ named_theorems (take 15 prelude_statements)) }
{
    add_connectives(alloc, theorems)?;
    add_axioms(alloc, theorems)?;
    add_functions(alloc, theorems)
}

// REFL_CLAUSE to NOT_CLAUSES_WEAK.
fn add_first_rewrites(alloc: Global, theorems: &mut Vec<(Name, Thm)>) -> Result<(), AllocError>
    ensures { IfOk result (λ _. theorems.new.items ≡ theorems.old.items ++ named_theorems (take 3 (drop 15 prelude_statements))) }
{
    add(alloc, theorems, "REFL_CLAUSE", refl_clause(alloc)?)?;
    add(alloc, theorems, "EQ_CLAUSES", eq_clauses(alloc)?)?;
    add(
        alloc,
        theorems,
        "NOT_CLAUSES_WEAK",
        not_clauses_weak(alloc)?,
    )
}

// AND_CLAUSES to IMP_CLAUSES.
fn add_last_rewrites(alloc: Global, theorems: &mut Vec<(Name, Thm)>) -> Result<(), AllocError>
    ensures { IfOk result (λ _. theorems.new.items ≡ theorems.old.items ++ named_theorems (drop 18 prelude_statements)) }
{
    add(alloc, theorems, "AND_CLAUSES", and_clauses(alloc)?)?;
    add(alloc, theorems, "OR_CLAUSES", or_clauses(alloc)?)?;
    add(alloc, theorems, "IMP_CLAUSES", imp_clauses(alloc)?)
}

// The basic rewrites.
fn add_rewrites(alloc: Global, theorems: &mut Vec<(Name, Thm)>) -> Result<(), AllocError>
    ensures { IfOk result (λ _. theorems.new.items ≡ theorems.old.items ++ named_theorems (drop 15 prelude_statements)) }
{
    add_first_rewrites(alloc, theorems)?;
    add_last_rewrites(alloc, theorems)
}
