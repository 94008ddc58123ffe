//! Documents under edit, as lines are answered over them.
ghost use Rattle.std.specs.Prelude.{◌≡◌, ◌≤◌, ℕ, Ok, Err, IfOk, IfErr, OnOk, OnErr, map, string_bytes};
ghost use Rattle.std.specs.Option.{option_map};
ghost use Rattle.hol_exec.specs.ReportView.{report_value};
ghost use Rattle.hol_document.specs.Affected.{AddsTheory, DropsTheory, InsertsAt, ReplacesAt, RemovesAt, RunsAffected, RunsAt};
ghost use Rattle.hol_document.specs.Asked.{IfRefused, Reported, BasisOf, TheoremsOf};
ghost use Rattle.hol_document.specs.Documents.{Documents, with_theory, without_theory, with_command, with_text, without_command};
ghost use Rattle.hol_document.specs.Shown.{ShowsProved, TellsOfProved, ListsProved};

use crate::docs::Docs;
use crate::error::DocsError;
use hol_exec::Report;

/// Documents under edit, as those who answer requests over them see them. [`Docs`] are such; they hold closures, and what is generic over this trait may make
/// closures of its own, as reading and writing JSON does.
pub trait Editable {
    /// What they are.
    ghost value: { Self → Documents };

    /// How many commands were run.
    ghost ran: { Self → ℕ };

    /// Makes a theory, as [`Docs::new_theory`].
    fn new_theory(&mut self, name: &str, at: usize) -> Result<(), DocsError>
        ensures ok { OnOk result (with_theory (value self.old).theories name.now at ≡ Ok (value self.new).theories) }
        ensures refused { IfErr result (IfRefused (λ refusal. with_theory (value self.old).theories name.now at ≡ Err refusal)) }
        ensures kept { OnErr result (value self.new ≡ value self.old) }
        ensures setup { (value self.new).setup ≡ (value self.old).setup }
        ensures cache { (value self.new).cache ≡ (value self.old).cache }
        ensures ran { OnOk result (RunsAffected (value self.old) (value self.new) (AddsTheory at) (ran self.old) (ran self.new)) }
        ensures uncounted { IfErr result (IfRefused (λ refusal. ran self.new ≡ ran self.old)) }
        ensures rises { ran self.old ≤ ran self.new };

    /// Drops a theory, as [`Docs::drop_theory`].
    fn drop_theory(&mut self, name: &str) -> Result<(), DocsError>
        ensures ok { OnOk result (without_theory (value self.old).theories name.now ≡ Ok (value self.new).theories) }
        ensures refused { IfErr result (IfRefused (λ refusal. without_theory (value self.old).theories name.now ≡ Err refusal)) }
        ensures kept { OnErr result (value self.new ≡ value self.old) }
        ensures setup { (value self.new).setup ≡ (value self.old).setup }
        ensures cache { (value self.new).cache ≡ (value self.old).cache }
        ensures ran { OnOk result (RunsAt DropsTheory name.now (value self.old) (value self.new) (ran self.old) (ran self.new)) }
        ensures uncounted { IfErr result (IfRefused (λ refusal. ran self.new ≡ ran self.old)) }
        ensures rises { ran self.old ≤ ran self.new };

    /// Puts a command's text at a place, as [`Docs::insert`].
    fn insert(&mut self, theory: &str, at: usize, text: &str) -> Result<(), DocsError>
        ensures ok { OnOk result (with_command (value self.old).theories theory.now at text.now ≡ Ok (value self.new).theories) }
        ensures refused { IfErr result (IfRefused (λ refusal. with_command (value self.old).theories theory.now at text.now ≡ Err refusal)) }
        ensures kept { OnErr result (value self.new ≡ value self.old) }
        ensures setup { (value self.new).setup ≡ (value self.old).setup }
        ensures cache { (value self.new).cache ≡ (value self.old).cache }
        ensures ran { OnOk result (RunsAt (λ i. InsertsAt i at) theory.now (value self.old) (value self.new) (ran self.old) (ran self.new)) }
        ensures uncounted { IfErr result (IfRefused (λ refusal. ran self.new ≡ ran self.old)) }
        ensures rises { ran self.old ≤ ran self.new };

    /// Puts another text in a command's place, as [`Docs::replace`].
    fn replace(&mut self, theory: &str, at: usize, text: &str) -> Result<(), DocsError>
        ensures ok { OnOk result (with_text (value self.old).theories theory.now at text.now ≡ Ok (value self.new).theories) }
        ensures refused { IfErr result (IfRefused (λ refusal. with_text (value self.old).theories theory.now at text.now ≡ Err refusal)) }
        ensures kept { OnErr result (value self.new ≡ value self.old) }
        ensures setup { (value self.new).setup ≡ (value self.old).setup }
        ensures cache { (value self.new).cache ≡ (value self.old).cache }
        ensures ran { OnOk result (RunsAt (λ i. ReplacesAt i at) theory.now (value self.old) (value self.new) (ran self.old) (ran self.new)) }
        ensures uncounted { IfErr result (IfRefused (λ refusal. ran self.new ≡ ran self.old)) }
        ensures rises { ran self.old ≤ ran self.new };

    /// Takes a command away, as [`Docs::remove`].
    fn remove(&mut self, theory: &str, at: usize) -> Result<(), DocsError>
        ensures ok { OnOk result (without_command (value self.old).theories theory.now at ≡ Ok (value self.new).theories) }
        ensures refused { IfErr result (IfRefused (λ refusal. without_command (value self.old).theories theory.now at ≡ Err refusal)) }
        ensures kept { OnErr result (value self.new ≡ value self.old) }
        ensures setup { (value self.new).setup ≡ (value self.old).setup }
        ensures cache { (value self.new).cache ≡ (value self.old).cache }
        ensures ran { OnOk result (RunsAt (λ i. RemovesAt i at) theory.now (value self.old) (value self.new) (ran self.old) (ran self.new)) }
        ensures uncounted { IfErr result (IfRefused (λ refusal. ran self.new ≡ ran self.old)) }
        ensures rises { ran self.old ≤ ran self.new };

    /// Drops what takes memory and nothing tells, as [`Docs::forget`].
    fn forget(&mut self)
        ensures documents { value self.new ≡ value self.old }
        ensures ran { ran self.new ≡ ran self.old };

    /// How many commands were run, as [`Docs::ran`].
    fn ran(&self) -> u64
        ensures { result ≡ ran self.now };

    /// The report on a command, as [`Docs::report`].
    fn report(&self, theory: &str, at: usize) -> Result<Report, DocsError>
        ensures ok { IfOk result (λ report. Reported (value self.now) theory.now at (Ok (report_value report))) }
        ensures proved { IfOk result (λ report. ShowsProved (value self.now) theory.now at (report_value report)) }
        ensures refused { IfErr result (IfRefused (λ refusal. Reported (value self.now) theory.now at (Err refusal))) };

    /// The theorems at the end of a theory, as [`Docs::theorems`].
    fn theorems(&self, theory: &str) -> Result<Vec<String>, DocsError>
        ensures ok { IfOk result (λ texts. TheoremsOf (value self.now) theory.now (Ok (map string_bytes texts.items))) }
        ensures proved { IfOk result (λ texts. ListsProved (value self.now) theory.now (map string_bytes texts.items)) }
        ensures refused { IfErr result (IfRefused (λ refusal. TheoremsOf (value self.now) theory.now (Err refusal))) };

    /// The items of a theorem's basis, as [`Docs::basis`].
    fn basis(&self, theory: &str, name: &str) -> Result<Option<Vec<String>>, DocsError>
        ensures ok { IfOk result (λ texts. BasisOf (value self.now) theory.now name.now (Ok (option_map (λ ts. map string_bytes ts.items) texts))) }
        ensures proved { IfOk result (λ texts. TellsOfProved (value self.now) theory.now name.now (option_map (λ ts. map string_bytes ts.items) texts)) }
        ensures refused { IfErr result (IfRefused (λ refusal. BasisOf (value self.now) theory.now name.now (Err refusal))) };
}

impl Editable for Docs {
    ghost use Rattle.hol_document.specs.DocsView.{documents, ran_of};

    ghost value = { λ docs. documents docs };

    ghost ran = { λ docs. ran_of docs };

    fn new_theory(&mut self, name: &str, at: usize) -> Result<(), DocsError> {
        Docs::new_theory(self, name, at)
    }

    fn drop_theory(&mut self, name: &str) -> Result<(), DocsError> {
        Docs::drop_theory(self, name)
    }

    fn insert(&mut self, theory: &str, at: usize, text: &str) -> Result<(), DocsError> {
        Docs::insert(self, theory, at, text)
    }

    fn replace(&mut self, theory: &str, at: usize, text: &str) -> Result<(), DocsError> {
        Docs::replace(self, theory, at, text)
    }

    fn remove(&mut self, theory: &str, at: usize) -> Result<(), DocsError> {
        Docs::remove(self, theory, at)
    }

    fn forget(&mut self) {
        Docs::forget(self)
    }

    fn ran(&self) -> u64 {
        Docs::ran(self)
    }

    fn report(&self, theory: &str, at: usize) -> Result<Report, DocsError> {
        Docs::report(self, theory, at)
    }

    fn theorems(&self, theory: &str) -> Result<Vec<String>, DocsError> {
        Docs::theorems(self, theory)
    }

    fn basis(&self, theory: &str, name: &str) -> Result<Option<Vec<String>>, DocsError> {
        Docs::basis(self, theory, name)
    }
}
