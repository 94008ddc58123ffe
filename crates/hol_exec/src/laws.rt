//! Laws of outcomes.
ghost use Rattle.std.specs.Prelude.{◌≡◌, ℕ, true, List, Option};
ghost use Rattle.std.specs.List.{list_all};
ghost use Rattle.hol_exec.specs.Setup.{SetupValue};
ghost use Rattle.hol_notation_commands.specs.Text.{LocalText};
ghost use Rattle.hol_notation_reader.specs.Reading.{ReadText};
ghost use Rattle.hol_notation_tactics.specs.Parts.{parts_of_theorem};
ghost use Rattle.hol_notation_tactics.specs.Text.{ThmText};
ghost use Rattle.hol_resolve.specs.Quotations.{quotations_in};
ghost use Rattle.hol_resolve.specs.Readings.{ReadingsValue};
ghost use Rattle.hol_theory.specs.Entry.{Entries};
ghost use Rattle.hol_theory.specs.Key.{KeyValue};
ghost use Rattle.hol_exec.specs.StateValue.{StateValue, EndedTheory};
ghost use Rattle.hol_exec.specs.OutcomeValue.{OutcomeValue};
ghost use Rattle.hol_exec.specs.ReadsValue.{ReadsValue, values_of};
ghost use Rattle.hol_exec.specs.Tested.{TestedValue, is_marked};
ghost use Rattle.hol_exec.specs.Local.{LocalValue, IsLocalOutcome};
ghost use Rattle.hol_exec.specs.At.{IsOutcome};
ghost use Rattle.hol_exec.specs.ChangedKeys.{is_one_of};
ghost use Rattle.hol_exec.specs.Keys.{keys_in};
ghost use Rattle.hol_exec.specs.OwnBases.{readings_of, own_basis};
ghost use Rattle.hol_exec.specs.Resolved.{resolved_basis};

/// A command has at most one outcome from what it reads, where constants have the same names, and what a text reads as has at most one from its reads at a state; each
/// with one list of tested names.
pub fn one_outcome()
    ensures local { (setup : SetupValue) (names : List (List ℕ)) (command : LocalText) (reads : ReadsValue) (a b : LocalValue) → IsLocalOutcome setup names command reads a → IsLocalOutcome setup names command reads b → a ≡ b }
    ensures at_state { (setup : SetupValue) (earlier : List EndedTheory) (s : StateValue) (value : ReadText) (reads : Option ReadsValue) (tested more : TestedValue) (a b : OutcomeValue) → IsOutcome setup earlier s value reads tested a → IsOutcome setup earlier s value reads more b → (a ≡ b) × (tested ≡ more) }
{}

/// An outcome depends on the names of constants by those that were tested for it: where these are the names of constants, or not, as they were, it is the outcome as
/// well.
pub fn outcomes_need_the_tested_names_alone()
    ensures { (setup : SetupValue) (names more : List (List ℕ)) (command : LocalText) (reads : ReadsValue) (given : LocalValue) → IsLocalOutcome setup names command reads given → list_all (is_marked more) given.tested ≡ true → IsLocalOutcome setup more command reads given }
{}

/// A written theorem rests by itself on what would be resolved of it alone, whatever else the command cites: its own keys are among those that are read.
pub fn own_bases_are_of_own_keys()
    ensures { (entries : Entries) (keys : List KeyValue) (readings : ReadingsValue) (th : ThmText) → list_all (is_one_of keys) (keys_in (parts_of_theorem th)) ≡ true → own_basis (values_of entries keys) readings th ≡ resolved_basis (values_of entries (keys_in (parts_of_theorem th))) (readings_of readings (quotations_in (parts_of_theorem th))) }
{}
