//! Laws over the definitions of running documents afresh.
ghost use Rattle.std.specs.Prelude.{◌≡◌, ℕ, List, [], Option, Result};
ghost use Rattle.hol_exec.specs.Setup.{SetupValue};
ghost use Rattle.hol_exec.specs.StateValue.{StateValue, EndedTheory, start};
ghost use Rattle.hol_exec.specs.ReportValue.{ReportValue};
ghost use Rattle.hol_document.specs.declared.error.Refusal.{Refusal};
ghost use Rattle.hol_document.specs.Documents.{Documents};
ghost use Rattle.hol_document.specs.Afresh.{Row, AreRows, TheoryRun, AreRunsOf};
ghost use Rattle.hol_document.specs.Asked.{Reported, BasisOf, TheoremsOf};
ghost use Rattle.hol_document.specs.Shown.{EachFinishes};

/// Documents have at most one run: the rows of all their theories, and the last states.
#[tactic(auto, using(crate::proofs::Unique::runs_are_one))]
pub fn rows_are_unique()
    ensures { (docs : Documents) (a b : List TheoryRun) → AreRunsOf docs a → AreRunsOf docs b → a ≡ b }
{}

/// The documents have at most one answer to the question for a report.
#[tactic(auto, using(crate::proofs::Unique::one_answer))]
pub fn reports_are_unique()
    ensures { (docs : Documents) (name : List ℕ) (at : ℕ) (r q : Result ReportValue Refusal) → Reported docs name at r → Reported docs name at q → r ≡ q }
{}

/// The documents have at most one answer to the question for a basis.
#[tactic(auto, using(crate::proofs::Bases::one_basis_answer))]
pub fn bases_are_unique()
    ensures { (docs : Documents) (theory name : List ℕ) (r q : Result (Option (List (List ℕ))) Refusal) → BasisOf docs theory name r → BasisOf docs theory name q → r ≡ q }
{}

/// The documents have at most one answer to the question for the theorems of a theory.
#[tactic(auto, using(crate::proofs::Bases::one_list_answer))]
pub fn lists_are_unique()
    ensures { (docs : Documents) (theory : List ℕ) (r q : Result (List (List ℕ)) Refusal) → TheoremsOf docs theory r → TheoremsOf docs theory q → r ≡ q }
{}

/// What a `qed` makes is the theorem of the last `g` that was accepted before it: under its name, with its statement, without hypotheses.
#[tactic(auto, using(crate::proofs::Goals::finished_goals))]
pub fn finished_proofs_have_their_goals()
    ensures { (setup : SetupValue) (earlier : List EndedTheory) (texts : List (List ℕ)) (rows : List Row) (last : StateValue)
        → AreRows setup earlier start texts rows last → EachFinishes [] rows }
{}
