//! The documents.
ghost use Rattle.std.specs.Prelude.{◌≡◌};
ghost use Rattle.std.specs.Coded.{Coded-set};
ghost use Rattle.hol_document.specs.RunnerView.{setup_of};
ghost use Rattle.hol_exec.specs.SetupCode.{coded_setup};

use crate::asked;
use crate::error::{DocsError, Refusal};
use crate::line::Line;
use crate::redo::Edit;
use crate::runner::Runner;
use crate::theories::Theories;
use hol_exec::{Meter, Report, Setup};
use hol_notation_tokens::is_identifier;
use std::alloc::{AllocError, Global};
use std::rc::Rc;

/// The most theories that may stand.
pub const THEORY_LIMIT: usize = 64;

/// The most commands that may stand in a theory.
pub const COMMAND_LIMIT: usize = 1000;

// The most bytes of a theory's name.
const NAME_LIMIT: usize = 64;

/// Documents under edit: theories in order, each a name and the texts of its commands, and what they are run by.
///
/// What is asked of them is what running them afresh says. An edit runs the commands that it affects, and a refused call changes nothing.
#[derive(Drop)]
pub struct Docs {
    alloc: Global,
    runner: Runner,
    theories: Theories,
    ghost same: { theories.setup ≡ setup_of runner } by { Coded-set coded_setup theories.setup (setup_of runner) },
}

impl Docs {
    ghost use Rattle.std.specs.Prelude.{◌≡◌, ◌≤◌, ◌<◌, Ok, Err, Some, IfOk, IfErr, OnOk, OnErr, [], ℕ, List, length, string_bytes, map};
    ghost use Rattle.std.specs.List.{insert, remove};
    ghost use Rattle.std.specs.Option.{option_map};
    ghost use Rattle.hol_exec.specs.ReportView.{report_value};
    ghost use Rattle.hol_exec.specs.SetupView.{setup_value};
    ghost use Rattle.hol_document.specs.Affected.{AddsTheory, DropsTheory, InsertsAt, ReplacesAt, RemovesAt, RunsAffected, RunsAt};
    ghost use Rattle.hol_document.specs.Asked.{IfRefused, Reported, BasisOf, TheoremsOf, commands_at};
    ghost use Rattle.hol_document.specs.DocsView.{documents, ran_of};
    ghost use Rattle.hol_document.specs.Documents.{find_theory, with_theory, without_theory, with_command, with_text, without_command, command_limit};
    ghost use Rattle.hol_document.specs.Shown.{ShowsProved, TellsOfProved, ListsProved};

    /// Documents without theories, run by this set-up. `cache` is the number of outcomes that are kept after they have left the documents, from 1 to 4,096.
    pub fn new(alloc: Global, setup: Setup, cache: u32) -> Result<Docs, AllocError>
        requires some { 1 ≤ cache }
        requires fits { cache ≤ 4096 }
        ensures documents { IfOk result (λ docs. documents docs ≡ record { theories = []; setup = setup_value setup; cache = cache }) }
        ensures ran { IfOk result (λ docs. ran_of docs ≡ 0) }
    {
        let meter = Meter::new(setup);
        let table = Rc::new(alloc, meter.table(alloc)?)?;
        let runner = Runner::new(alloc, meter, table.clone()?, cache)?;
        Ok(Docs {
            alloc,
            runner,
            theories: Theories::new(alloc, table, cache),
        })
    }

    /// How many commands were run, or 2^64 - 1 for more.
    pub fn ran(&self) -> u64
        ensures { result ≡ ran_of self.now }
    {
        self.runner.ran()
    }

    /// Makes a theory without commands at a place of the list of theories. What reads something else than before is run.
    ///
    /// Refused where the name is taken, is bad, the place is above the number of theories, or 64 theories stand: in this order.
    pub fn new_theory(&mut self, name: &str, at: usize) -> Result<(), DocsError>
        ensures ok { OnOk result (with_theory (documents self.old).theories name.now at ≡ Ok (documents self.new).theories) }
        ensures refused { IfErr result (IfRefused (λ refusal. with_theory (documents self.old).theories name.now at ≡ Err refusal)) }
        ensures kept { OnErr result (documents self.new ≡ documents self.old) }
        ensures setup { (documents self.new).setup ≡ (documents self.old).setup }
        ensures cache { (documents self.new).cache ≡ (documents self.old).cache }
        ensures ran { OnOk result (RunsAffected (documents self.old) (documents self.new) (AddsTheory at) (ran_of self.old) (ran_of self.new)) }
        ensures uncounted { IfErr result (IfRefused (λ refusal. ran_of self.new ≡ ran_of self.old)) }
        ensures rises { ran_of self.old ≤ ran_of self.new }
    {
        self.check_theory(name, at)?;
        let theories = self
            .theories
            .with_theory(self.alloc, &mut self.runner, name, at)?;
        self.theories = theories;
        Ok(())
    }

    /// Drops a theory with its commands. What reads something else than before is run.
    ///
    /// Refused where the theory is unknown.
    pub fn drop_theory(&mut self, name: &str) -> Result<(), DocsError>
        ensures ok { OnOk result (without_theory (documents self.old).theories name.now ≡ Ok (documents self.new).theories) }
        ensures refused { IfErr result (IfRefused (λ refusal. without_theory (documents self.old).theories name.now ≡ Err refusal)) }
        ensures kept { OnErr result (documents self.new ≡ documents self.old) }
        ensures setup { (documents self.new).setup ≡ (documents self.old).setup }
        ensures cache { (documents self.new).cache ≡ (documents self.old).cache }
        ensures ran { OnOk result (RunsAt DropsTheory name.now (documents self.old) (documents self.new) (ran_of self.old) (ran_of self.new)) }
        ensures uncounted { IfErr result (IfRefused (λ refusal. ran_of self.new ≡ ran_of self.old)) }
        ensures rises { ran_of self.old ≤ ran_of self.new }
    {
        let i = self.place_of(name)?;
        let theories = self
            .theories
            .without_theory(self.alloc, &mut self.runner, i)?;
        self.theories = theories;
        Ok(())
    }

    /// Puts a command's text at a place of a theory. It is run, as is what reads something else than before.
    ///
    /// Refused where the theory is unknown, the place is above the number of its commands, or 1,000 commands stand: in this order.
    pub fn insert(&mut self, theory: &str, at: usize, text: &str) -> Result<(), DocsError>
        ensures ok { OnOk result (with_command (documents self.old).theories theory.now at text.now ≡ Ok (documents self.new).theories) }
        ensures refused { IfErr result (IfRefused (λ refusal. with_command (documents self.old).theories theory.now at text.now ≡ Err refusal)) }
        ensures kept { OnErr result (documents self.new ≡ documents self.old) }
        ensures setup { (documents self.new).setup ≡ (documents self.old).setup }
        ensures cache { (documents self.new).cache ≡ (documents self.old).cache }
        ensures ran { OnOk result (RunsAt (λ i. InsertsAt i at) theory.now (documents self.old) (documents self.new) (ran_of self.old) (ran_of self.new)) }
        ensures uncounted { IfErr result (IfRefused (λ refusal. ran_of self.new ≡ ran_of self.old)) }
        ensures rises { ran_of self.old ≤ ran_of self.new }
    {
        let i = self.place_to_insert(theory, at)?;
        let line = Rc::new(self.alloc, Line::new(self.alloc, text)?)?;
        let edit = Edit::Insert(line);
        let theories = self
            .theories
            .with_edit(self.alloc, &mut self.runner, i, at, &edit)?;
        self.theories = theories;
        Ok(())
    }

    /// Puts a text in the place of that of a command of a theory. It is run, as is what reads something else than before.
    ///
    /// Refused where the theory is unknown or no command stands at the place: in this order.
    pub fn replace(&mut self, theory: &str, at: usize, text: &str) -> Result<(), DocsError>
        ensures ok { OnOk result (with_text (documents self.old).theories theory.now at text.now ≡ Ok (documents self.new).theories) }
        ensures refused { IfErr result (IfRefused (λ refusal. with_text (documents self.old).theories theory.now at text.now ≡ Err refusal)) }
        ensures kept { OnErr result (documents self.new ≡ documents self.old) }
        ensures setup { (documents self.new).setup ≡ (documents self.old).setup }
        ensures cache { (documents self.new).cache ≡ (documents self.old).cache }
        ensures ran { OnOk result (RunsAt (λ i. ReplacesAt i at) theory.now (documents self.old) (documents self.new) (ran_of self.old) (ran_of self.new)) }
        ensures uncounted { IfErr result (IfRefused (λ refusal. ran_of self.new ≡ ran_of self.old)) }
        ensures rises { ran_of self.old ≤ ran_of self.new }
    {
        let i = self.place_of_command(theory, at)?;
        let line = Rc::new(self.alloc, Line::new(self.alloc, text)?)?;
        let edit = Edit::Replace(line);
        let theories = self
            .theories
            .with_edit(self.alloc, &mut self.runner, i, at, &edit)?;
        self.theories = theories;
        Ok(())
    }

    /// Takes a command of a theory away. What reads something else than before is run.
    ///
    /// Refused where the theory is unknown or no command stands at the place: in this order.
    pub fn remove(&mut self, theory: &str, at: usize) -> Result<(), DocsError>
        ensures ok { OnOk result (without_command (documents self.old).theories theory.now at ≡ Ok (documents self.new).theories) }
        ensures refused { IfErr result (IfRefused (λ refusal. without_command (documents self.old).theories theory.now at ≡ Err refusal)) }
        ensures kept { OnErr result (documents self.new ≡ documents self.old) }
        ensures setup { (documents self.new).setup ≡ (documents self.old).setup }
        ensures cache { (documents self.new).cache ≡ (documents self.old).cache }
        ensures ran { OnOk result (RunsAt (λ i. RemovesAt i at) theory.now (documents self.old) (documents self.new) (ran_of self.old) (ran_of self.new)) }
        ensures uncounted { IfErr result (IfRefused (λ refusal. ran_of self.new ≡ ran_of self.old)) }
        ensures rises { ran_of self.old ≤ ran_of self.new }
    {
        let i = self.place_of_command(theory, at)?;
        let left = self
            .theories
            .with_edit(self.alloc, &mut self.runner, i, at, &Edit::Remove)?;
        self.theories = left;
        Ok(())
    }

    /// Drops the outcomes that have left the documents. Nothing but memory, and the time of edits, tells whether they are there.
    pub fn forget(&mut self)
        ensures documents { documents self.new ≡ documents self.old }
        ensures ran { ran_of self.new ≡ ran_of self.old }
    {
        self.runner.forget();
    }

    /// The report on the command at a place of a theory: what running the documents afresh says. The theorems that it shows are those of
    /// `Thm`s, so each has a derivation.
    ///
    /// Refused where the theory is unknown or no command stands at the place: in this order.
    pub fn report(&self, theory: &str, at: usize) -> Result<Report, DocsError>
        ensures ok { IfOk result (λ report. Reported (documents self.now) theory.now at (Ok (report_value report))) }
        ensures proved { IfOk result (λ report. ShowsProved (documents self.now) theory.now at (report_value report)) }
        ensures refused { IfErr result (IfRefused (λ refusal. Reported (documents self.now) theory.now at (Err refusal))) }
    {
        let i = self.place_of_command(theory, at)?;
        Ok(asked::report(self.alloc, &self.theories, i, at)?)
    }

    /// The theorems that stand at the end of a theory, imported ones too, in standing order: what running the documents afresh says. They are
    /// those of `Thm`s, so each has a derivation.
    ///
    /// Refused where the theory is unknown.
    pub fn theorems(&self, theory: &str) -> Result<Vec<String>, DocsError>
        ensures ok { IfOk result (λ texts. TheoremsOf (documents self.now) theory.now (Ok (map string_bytes texts.items))) }
        ensures proved { IfOk result (λ texts. ListsProved (documents self.now) theory.now (map string_bytes texts.items)) }
        ensures refused { IfErr result (IfRefused (λ refusal. TheoremsOf (documents self.now) theory.now (Err refusal))) }
    {
        let i = self.place_of(theory)?;
        Ok(asked::theorems(self.alloc, &self.theories, i)?)
    }

    /// The items of the basis of a theorem that stands at the end of a theory, as texts in the order of their bytes; nothing
    /// where no theorem of that name stands there.
    ///
    /// Refused where the theory is unknown.
    pub fn basis(&self, theory: &str, name: &str) -> Result<Option<Vec<String>>, DocsError>
        ensures ok { IfOk result (λ texts. BasisOf (documents self.now) theory.now name.now (Ok (option_map (λ ts. map string_bytes ts.items) texts))) }
        ensures proved { IfOk result (λ texts. TellsOfProved (documents self.now) theory.now name.now (option_map (λ ts. map string_bytes ts.items) texts)) }
        ensures refused { IfErr result (IfRefused (λ refusal. BasisOf (documents self.now) theory.now name.now (Err refusal))) }
    {
        let i = self.place_of(theory)?;
        Ok(asked::basis(self.alloc, &self.theories, i, name)?)
    }

    // Whether a theory of the name may stand at the place. It takes no memory.
    fn check_theory(&self, name: &str, at: usize) -> Result<(), Refusal>
        ensures ok { OnOk result (with_theory (documents self.now).theories name.now at
            ≡ Ok (insert (documents self.now).theories at (record { name = name.now; commands = [] }))) }
        ensures place { OnOk result (at ≤ length (documents self.now).theories) }
        ensures refused { IfErr result (λ refusal. with_theory (documents self.now).theories name.now at ≡ Err refusal) }
    {
        if self.find(name).is_some() {
            return Err(Refusal::TheoryNameTaken);
        }
        if !(is_identifier(name) && name.len() <= NAME_LIMIT) {
            return Err(Refusal::BadTheoryName);
        }
        if at > self.theories.len() {
            return Err(Refusal::PositionOutOfRange);
        }
        if self.theories.len() >= THEORY_LIMIT {
            return Err(Refusal::TooMany);
        }
        Ok(())
    }

    // The place of a theory where a command may stand at the place. It takes no memory.
    fn place_to_insert(&self, theory: &str, at: usize) -> Result<usize, Refusal>
        ensures found { IfOk result (λ i. find_theory theory.now (documents self.now).theories ≡ Some i) }
        ensures within { IfOk result (λ i. i < length (documents self.now).theories) }
        ensures place { IfOk result (λ i. at ≤ length (commands_at (documents self.now) i)) }
        ensures room { IfOk result (λ i. length (commands_at (documents self.now) i) < command_limit) }
        ensures refused { IfErr result (λ refusal. (text : List ℕ) → with_command (documents self.now).theories theory.now at text ≡ Err refusal) }
    {
        let i = self.place_of(theory)?;
        let count = self.theories.count_at(i);
        if at > count {
            return Err(Refusal::PositionOutOfRange);
        }
        if count >= COMMAND_LIMIT {
            return Err(Refusal::TooMany);
        }
        Ok(i)
    }

    // The place of a theory where a command stands at the place. It takes no memory.
    fn place_of_command(&self, theory: &str, at: usize) -> Result<usize, Refusal>
        ensures found { IfOk result (λ i. find_theory theory.now (documents self.now).theories ≡ Some i) }
        ensures within { IfOk result (λ i. i < length (documents self.now).theories) }
        ensures stands { IfOk result (λ i. at < length (commands_at (documents self.now) i)) }
        ensures reported { IfErr result (λ refusal. Reported (documents self.now) theory.now at (Err refusal)) }
        ensures replaced { IfErr result (λ refusal. (text : List ℕ) → with_text (documents self.now).theories theory.now at text ≡ Err refusal) }
        ensures removed { IfErr result (λ refusal. without_command (documents self.now).theories theory.now at ≡ Err refusal) }
    {
        let i = self.place_of(theory)?;
        if at >= self.theories.count_at(i) {
            return Err(Refusal::PositionOutOfRange);
        }
        Ok(i)
    }

    // The place of the theory of that name. It takes no memory.
    fn place_of(&self, name: &str) -> Result<usize, Refusal>
        ensures found { IfOk result (λ i. find_theory name.now (documents self.now).theories ≡ Some i) }
        ensures within { IfOk result (λ i. i < length (documents self.now).theories) }
        ensures none { OnErr result (find_theory name.now (documents self.now).theories ≡ None) }
        ensures unknown { IfErr result (λ refusal. refusal ≡ Refusal.UnknownTheory) }
    {
        self.find(name).ok_or(Refusal::UnknownTheory)
    }

    // The place of the theory of that name.
    fn find(&self, name: &str) -> Option<usize>
        ensures { result ≡ find_theory name.now (documents self.now).theories }
    {
        self.theories.find(name)
    }
}
