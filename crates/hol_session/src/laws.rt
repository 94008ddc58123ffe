//! Laws of what replies show.
ghost use Rattle.std.specs.Prelude.{◌≡◌, ℕ, List, [], ◌∷◌, ◌++◌, codes, Some, None};
ghost use Rattle.std.specs.List.{All};
ghost use Rattle.hol_terms.specs.Nameless.{Nameless};
ghost use Rattle.hol_kernel.specs.Item.{declared_axiom};
ghost use Rattle.hol_kernel.specs.Items.{Holds};
ghost use Rattle.hol_exec.specs.ReportOf.{theorem_text};
ghost use Rattle.hol_exec.specs.ReportValue.{ReportValue, HasMade};
ghost use Rattle.hol_notation_commands.specs.Text.{Local, Qed};
ghost use Rattle.hol_notation_reader.specs.Reading.{Reads};
ghost use Rattle.hol_wire.specs.Replies.{ReplyValue};
ghost use Rattle.hol_document.specs.Documents.{Documents};
ghost use Rattle.hol_document.specs.Afresh.{TheoryRun, AreRunsOf};
ghost use Rattle.hol_document.specs.Shown.{open_goal, IsProvedReport};
ghost use Rattle.hol_session.specs.Lines.{begun_line, whole_lines, text_of_lines, HasNoNewline};
ghost use Rattle.hol_session.specs.Machine.{Counted, Machine};
ghost use Rattle.hol_session.specs.Origins.{HasOrigin, IsStatedIn, RestsOnStated};
ghost use Rattle.hol_session.specs.Theorems.{TellsOfTheorem, TellsOfTheorems};

/// What a reply tells of theorems is so, whichever the line is.
pub fn replies_tell_of_theorems()
    ensures { (old new : Counted) (line : List ℕ) (reply : ReplyValue) → Machine old line reply new → TellsOfTheorems old.documents reply }
{}

/// The report on a `qed` that made something tells of one theorem: by its name and its statement, it is that of the last `g` that was accepted before it.
pub fn finished_proofs_tell_their_goals()
    ensures { (docs : Documents) (i at : ℕ) (report : ReportValue) (proved : IsProvedReport docs i at report) (texts : List (List ℕ))
        → proved.is.row.value ≡ Reads (Local Qed) → report ≡ HasMade texts
        → (name : List ℕ) × (statement : Nameless) × (open_goal None proved.is.rows ≡ Some (name, statement))
        × (texts ≡ (codes "thm " ++ name ++ codes " " ++ theorem_text statement) ∷ []) }
{}

/// A theorem that a theory has was made there by a `qed`, an axiom, a definition or a type definition, or imported from an earlier theory, of whose theorems the same holds.
pub fn theorems_have_origins()
    ensures { (docs : Documents) (before : List TheoryRun) (run : TheoryRun) (later : List TheoryRun)
        → AreRunsOf docs (before ++ run ∷ later) → All (HasOrigin before run.rows) run.last.entries }
{}

/// Each axiom on which something in a theory rests was stated there by a `new_axiom` of its name, or in an earlier theory from which something was imported.
pub fn axioms_are_stated_by_commands()
    ensures { (docs : Documents) (before : List TheoryRun) (run : TheoryRun) (later : List TheoryRun)
        → AreRunsOf docs (before ++ run ∷ later) → All (RestsOnStated before run.rows) run.last.entries }
{}

/// So is each axiom on which a theorem rests that a reply tells of.
pub fn axioms_of_theorems_are_stated()
    ensures { (docs : Documents) (text : List ℕ) (told : TellsOfTheorem docs text) (name : List ℕ) (p : Nameless)
        → Holds told.th.basis (declared_axiom name p) → IsStatedIn docs name p }
{}

/// A text is its lines with a newline behind each, and what follows the last of them; and no newline is in a line. So the lines are the ones that one means.
pub fn texts_are_their_lines()
    ensures { (text : List ℕ) → (text ≡ text_of_lines (whole_lines text) ++ begun_line [] text) × All HasNoNewline (whole_lines text)
        × HasNoNewline (begun_line [] text) }
{}
