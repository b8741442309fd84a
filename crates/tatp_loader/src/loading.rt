//! Modules from bytes.
ghost use Rattle.std.specs.Prelude.{◌≡◌, Ok, Err, true, All, IfOk};
ghost use Rattle.tatp_encoding.specs.Modules.{ModuleState, is_module};
ghost use Rattle.tatp_loader.specs.Lawful.{IsLawful};
ghost use Rattle.tatp_loader.specs.ModuleBytes.{IsModuleOf, HasInstrs};
ghost use Rattle.tatp_loader.specs.Reading.{Gives, count_at, lawful_module_at};

use crate::fault::{LoadError, LoadFault};
use crate::loaded::Loaded;
use crate::parsing::module_at;
use crate::rules::first_fault;
use std::alloc::Global;
use tatp_encoding::Module;

/// The module that the bytes spell, where it keeps the rules.
#[tactic(auto, unfolding(crate::specs::Reading::lawful_module_at))]
fn lawful_module(alloc: Global, bytes: &[u8]) -> Result<Loaded, LoadError>
    ensures found { IfOk result (λ loaded. IsModuleOf bytes.now loaded × IsLawful loaded) }
    ensures exact { Gives (λ loaded. loaded) result (lawful_module_at bytes.now) }
    ensures early { (fault : LoadFault) → count_at bytes.now ≡ Err fault
        → result ≡ Err (LoadError.Fault fault) }
{
    let (version, procs) = module_at(alloc, bytes)?;
    match first_fault(version, &procs) {
        Some(fault) => Err(LoadError::Fault(fault)),
        None => Ok(Loaded::new(Module::new(version, procs))),
    }
}

/// The module that the bytes spell, where it keeps the rules. Otherwise the first fault from front
/// to back, and after those of the bytes the first rule that the module breaks.
pub fn load(alloc: Global, bytes: &[u8]) -> Result<Loaded, LoadError>
    // What is loaded is spelled so and keeps the rules, and what is spelled so and keeps them is
    // loaded, unless memory runs out.
    ensures found { IfOk result (λ loaded. IsModuleOf bytes.now loaded × IsLawful loaded) }
    ensures only { (m : ModuleState) → is_module m ≡ true → All HasInstrs m.procedures
        → IsLawful m → IsModuleOf bytes.now m → Gives (λ loaded. loaded) result (Ok m) }

    // Which fault it is. One of the magic or of the count comes before any memory is asked for.
    ensures exact { Gives (λ loaded. loaded) result (lawful_module_at bytes.now) }
    ensures early { (fault : LoadFault) → count_at bytes.now ≡ Err fault
        → result ≡ Err (LoadError.Fault fault) }
{
    lawful_module(alloc, bytes)
}
