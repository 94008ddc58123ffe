//! What is fixed for a run.
ghost use Rattle.std.specs.Prelude.{◌≡◌, ◌≤◌};
ghost use Rattle.std.specs.Coded.{Coded-set, coded×, coded_list, coded_ℕ};
ghost use Rattle.hol_types.specs.Code.{coded_name, coded_type};
ghost use Rattle.hol_formulas.specs.Constants.{prelude_types, prelude_constants};

use crate::running::registered::RegisteredTac;
use crate::running::setup_table::SetupTable;
use hol_kernel::{Thm, prelude_constants, prelude_types};
use hol_prelude::Prelude;
use hol_registry::Registry;
use hol_resolve::Signature;
use std::alloc::{AllocError, Global};
use std::rc::Rc;

/// What is fixed for a run: the registered functions on goals, what the prelude has, and the number of turns that a command has.
#[derive(Drop)]
pub struct Setup {
    registry: Registry,
    prelude: Rc<Prelude>,
    signature: Signature,
    turns: u32,
    ghost turns_fit: { turns ≤ 100000 },
    ghost constants: { signature.constants.items ≡ prelude_constants } by { Coded-set (coded_list (coded× coded_name coded_type)) signature.constants.items prelude_constants },
    ghost types: { signature.types.items ≡ prelude_types } by { Coded-set (coded_list (coded× coded_name coded_ℕ)) signature.types.items prelude_types },
}

impl Setup {
    ghost use Rattle.std.specs.Prelude.{◌≡◌, IfOk, MatchOption, Some, None};
    ghost use Rattle.std.specs.Option.{option_map};
    ghost use Rattle.hol_prelude.specs.Statements.{prelude_theorem};
    ghost use Rattle.hol_registry.specs.RegistryView.{table};
    ghost use Rattle.hol_resolve.specs.SignatureView.{signature_value};
    ghost use Rattle.hol_exec.specs.SetupView.{setup_value};
    ghost use Rattle.hol_exec.specs.Callee.{registered};
    ghost use Rattle.hol_exec.specs.CalleeView.{callee_option};
    ghost use Rattle.hol_exec.specs.declared.resolving.callee.Callee.TheVariants as Callee;

    /// The set-up of these functions, of the prelude, and of this number of turns, from 1 to 100,000.
    pub fn new(
        alloc: Global,
        registry: Registry,
        prelude: Rc<Prelude>,
        turns: u32,
    ) -> Result<Setup, AllocError>
        requires some { 1 ≤ turns }
        requires fits { turns ≤ 100000 }
        ensures { IfOk result (λ setup. setup_value setup ≡ record { table = table registry; turns = turns }) }
    {
        Ok(Setup {
            registry,
            prelude,
            signature: Signature {
                constants: prelude_constants(alloc)?,
                types: prelude_types(alloc)?,
            },
            turns,
        })
    }

    /// The number of turns that a command has.
    pub(crate) fn turns(&self) -> u32
        ensures value { result ≡ (setup_value self.now).turns }
        ensures fits { result ≤ 100000 }
    {
        self.turns
    }

    /// The prelude's theorem of the name.
    pub(crate) fn prelude_theorem(&self, name: &str) -> Option<&Thm>
        ensures { MatchOption result (prelude_theorem name.now ≡ None) (λ th. prelude_theorem name.now ≡ Some th.now) }
    {
        self.prelude.get(name)
    }

    /// What the prelude has for readings.
    pub(crate) fn signature(&self) -> &Signature
        ensures { signature_value result.now ≡ record { constants = prelude_constants; types = prelude_types } }
    {
        &self.signature
    }

    /// The function that is registered under the name.
    #[tactic(auto, using(crate::proofs::Rows::row_found, crate::proofs::Rows::none_found))]
    pub(crate) fn find(&self, name: &str) -> Option<RegisteredTac>
        ensures { callee_option (option_map Callee.Registered result) ≡ registered name.now (setup_value self.now).table }
    {
        let index = self.registry.find(name)?;
        let code = self.registry.code(index);
        Some(RegisteredTac { index, code })
    }

    /// The same as plain data.
    pub(crate) fn table(&self, alloc: Global) -> Result<SetupTable, AllocError>
        ensures { IfOk result (λ table. table ≡ setup_value self.now) }
    {
        Ok(SetupTable::new(self.registry.rows(alloc)?, self.turns))
    }

    /// The registered functions.
    pub(crate) fn registry(&self) -> &Registry
        ensures { table result.now ≡ (setup_value self.now).table }
    {
        &self.registry
    }
}
