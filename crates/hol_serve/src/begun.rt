//! Sessions over documents that begin without theories.
ghost use Rattle.std.specs.Prelude.{◌≡◌, ◌≢◌, ◌⊎◌, ◌≤◌, true, Err, IfOk, OnOk, map};
ghost use Rattle.hol_goal.specs.TacNames.{tac_name};
ghost use Rattle.hol_exec.specs.SetupView.{setup_value};
ghost use Rattle.hol_registry.specs.RegistryView.{name, row};
ghost use Rattle.hol_serve.specs.Begun.{tacs, begun_by};
ghost use Rattle.hol_serve.specs.BegunView.{row_of, names_differ};
ghost use Rattle.hol_session.specs.Lines.{read_limit};
ghost use Rattle.hol_session.specs.Machine.{Counted, MayAnswer};
ghost use Rattle.hol_session.specs.Session.{CountsUp, Finishes, StopsReading, StopsWriting};

use crate::coded_tac::CodedTac;
use hol_document::Docs;
use hol_exec::Setup;
use hol_goal::{Goal, Names, TacArgs, TacCode};
use hol_prelude::Prelude;
use hol_registry::{Entry, Registry, RegistryError};
use hol_session::{Fault, Sink, Source, run};
use std::alloc::{AllocError, Global};
use std::rc::Rc;

// The functions on goals that the program knows.
const CODES: [TacCode; 33] = [
    TacCode::AllTac,
    TacCode::NoTac,
    TacCode::ReflTac,
    TacCode::AcceptTac,
    TacCode::ConjTac,
    TacCode::Disj1Tac,
    TacCode::Disj2Tac,
    TacCode::EqTac,
    TacCode::DischTac,
    TacCode::GenTac,
    TacCode::XGenTac,
    TacCode::ExistsTac,
    TacCode::SpecTac,
    TacCode::MpTac,
    TacCode::AssumeTac,
    TacCode::ContrTac,
    TacCode::ChooseTac,
    TacCode::XChooseTac,
    TacCode::DisjCasesTac,
    TacCode::Subst1Tac,
    TacCode::ApTermTac,
    TacCode::ApThmTac,
    TacCode::MkCombTac,
    TacCode::UndischTac,
    TacCode::StripTac,
    TacCode::StripAssumeTac,
    TacCode::BetaTac,
    TacCode::MatchMpTac,
    TacCode::RewriteTac,
    TacCode::OnceRewriteTac,
    TacCode::AsmRewriteTac,
    TacCode::OnceAsmRewriteTac,
    TacCode::PureRewriteTac,
];

/// Serves the reader's lines over documents without theories, run by the functions that the program knows, each under the name of its code,
/// and by this number of turns, from 1 to 100,000; `cache` is the number of outcomes that are kept after they have left the documents, from 1 to 4,096.
///
/// # Errors
/// Those of [`run`]; also `Fault::Memory` where there is no memory to begin with.
pub(crate) fn serve_begun<R: Source, W: Sink>(
    alloc: Global,
    turns: u32,
    cache: u32,
    reader: &mut R,
    writer: &mut W,
) -> Result<(), Fault>
    requires some_turns { 1 ≤ turns }
    requires turns_fit { turns ≤ 100000 }
    requires some_cache { 1 ≤ cache }
    requires cache_fits { cache ≤ 4096 }
    ensures ok { OnOk result ((new : Counted) × Finishes MayAnswer (begun_by tacs turns cache) new
        (R.remaining reader.old) (R.remaining reader.new) (W.contents writer.old) (W.contents writer.new)) }
    ensures read_fault { result ≡ Err Fault.Read → ((new : Counted) × StopsReading MayAnswer (begun_by tacs turns cache) new
        (R.remaining reader.old) (R.remaining reader.new) (W.contents writer.old) (W.contents writer.new))
        × (R.has_failed reader.new ⊎ CountsUp read_limit (R.reads reader.old) (R.reads reader.new)) }
    ensures write_fault { result ≡ Err Fault.Write → ((new : Counted) × StopsWriting MayAnswer (begun_by tacs turns cache) new
        (R.remaining reader.old) (R.remaining reader.new) (W.contents writer.old) (W.contents writer.new))
        × W.has_failed writer.new }
    ensures reads { result ≢ Err Fault.Read → R.has_failed reader.new → R.has_failed reader.old }
    ensures writes { result ≢ Err Fault.Write → W.has_failed writer.new → W.has_failed writer.old }
    ensures memory { result ≡ Err Fault.Memory → (reader.new ≡ reader.old) × (writer.new ≡ writer.old) }
{
    serve_with(alloc, &CODES, turns, cache, reader, writer)
}

// The same with the functions of these codes.
#[tactic(auto, using(crate::proofs::Registering::names_plain))]
fn serve_with<R: Source, W: Sink>(
    alloc: Global,
    codes: &[TacCode],
    turns: u32,
    cache: u32,
    reader: &mut R,
    writer: &mut W,
) -> Result<(), Fault>
    requires some_turns { 1 ≤ turns }
    requires turns_fit { turns ≤ 100000 }
    requires some_cache { 1 ≤ cache }
    requires cache_fits { cache ≤ 4096 }
    requires differ { names_differ (map tac_name codes.now) ≡ true }
    ensures ok { OnOk result ((new : Counted) × Finishes MayAnswer (begun_by (map row_of codes.now) turns cache) new
        (R.remaining reader.old) (R.remaining reader.new) (W.contents writer.old) (W.contents writer.new)) }
    ensures read_fault { result ≡ Err Fault.Read → ((new : Counted) × StopsReading MayAnswer (begun_by (map row_of codes.now) turns cache) new
        (R.remaining reader.old) (R.remaining reader.new) (W.contents writer.old) (W.contents writer.new))
        × (R.has_failed reader.new ⊎ CountsUp read_limit (R.reads reader.old) (R.reads reader.new)) }
    ensures write_fault { result ≡ Err Fault.Write → ((new : Counted) × StopsWriting MayAnswer (begun_by (map row_of codes.now) turns cache) new
        (R.remaining reader.old) (R.remaining reader.new) (W.contents writer.old) (W.contents writer.new))
        × W.has_failed writer.new }
    ensures reads { result ≢ Err Fault.Read → R.has_failed reader.new → R.has_failed reader.old }
    ensures writes { result ≢ Err Fault.Write → W.has_failed writer.new → W.has_failed writer.old }
    ensures memory { result ≡ Err Fault.Memory → (reader.new ≡ reader.old) × (writer.new ≡ writer.old) }
{
    let prelude = Rc::new(alloc, Prelude::new(alloc)?)?;
    let mut entries = Vec::new(alloc);
    for code in codes {
        let coded = CodedTac::new(*code, &prelude)?;
        let tac = Box::new(
            alloc,
            move |args: &TacArgs, goal: &Goal, names: &Names, turns: u32|
                requires { turns ≤ 100000 }
            { coded.answer(alloc, args, goal, names, turns) },
        )?;
        let name = String::from_str(alloc, code.name())?;
        entries.push(Entry::new(name, *code, tac))?;
    }
    let setup = setup_of(alloc, entries, prelude, turns)?;
    let mut docs = Docs::new(alloc, setup, cache)?;
    run(alloc, reader, writer, &mut docs)
}

// The set-up of these functions, whose names differ, of the prelude, and of this number of turns.
#[tactic(auto, using(crate::proofs::Registering::twice_not))]
fn setup_of(
    alloc: Global,
    entries: Vec<Entry>,
    prelude: Rc<Prelude>,
    turns: u32,
) -> Result<Setup, AllocError>
    requires some { 1 ≤ turns }
    requires fits { turns ≤ 100000 }
    requires differ { names_differ (map name entries.items) ≡ true }
    ensures { IfOk result (λ setup. setup_value setup ≡ record { table = map row entries.items; turns = turns }) }
{
    let registry = match Registry::new(entries) {
        Ok(registry) => registry,
        Err(RegistryError::Twice(_)) => unreachable!(),
    };
    Setup::new(alloc, registry, prelude, turns)
}
