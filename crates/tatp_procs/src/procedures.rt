//! The standard module: the seven transactions as procedures, in version 2 of the table.
ghost use Rattle.std.specs.Prelude.{◌≡◌, ◌↔◌, ◌≤◌, true, IsTrue, IfOk, Ok};
ghost use Rattle.tatp_tables.specs.Database.{Database};
ghost use Rattle.tatp_encoding.specs.Modules.{is_procedure};
ghost use Rattle.tatp_calls.specs.declared.call.Call.{Call};
ghost use Rattle.tatp_calls.specs.Arguments.{arguments_accepted};
ghost use Rattle.tatp_procs.specs.Standard.{standard_module};
ghost use Rattle.tatp_procs.specs.Consistent.{IsConsistent};
ghost use Rattle.tatp_procs.specs.Performs.{Performs};

mod reads;
mod registers;
mod text;
mod writes;

use reads::{get_access_data, get_new_destination, get_subscriber_data};
use std::alloc::{AllocError, Global};
use tatp_calls::{
    DELETE_CALL_FORWARDING, GET_ACCESS_DATA, GET_NEW_DESTINATION, GET_SUBSCRIBER_DATA,
    INSERT_CALL_FORWARDING, Transaction, UPDATE_LOCATION, UPDATE_SUBSCRIBER_DATA,
};
use tatp_encoding::{Module, Proc, encode};
use tatp_instr::{Instr, Version};
use tatp_limits::MAX_ARGUMENTS;
use tatp_loader::{Loaded, check};
pub use text::STANDARD;
use writes::{
    delete_call_forwarding, insert_call_forwarding, update_location, update_subscriber_data,
};

/// The standard module. Run alone on a consistent database, each of its procedures is its
/// transaction, for all arguments in their domains.
pub fn standard(alloc: Global) -> Result<Loaded, AllocError>
    ensures value { IfOk result (λ loaded. loaded ≡ standard_module) }
    ensures transactions { IfOk result (λ loaded. (call : Call) (u : Database)
        → IsConsistent u
        → arguments_accepted call ≡ Ok tt
        → Performs loaded call u) }
{
    let procs = procedures(alloc)?;
    Ok(check(Module::new(Version::Two, procs)).unwrap())
}

/// Whether this is the standard module.
pub fn is_standard(loaded: &Loaded) -> bool
    ensures { IsTrue result ↔ (loaded.now ≡ standard_module) }
{
    let module = loaded.module();
    if module.version() != Version::Two {
        return false;
    }
    let [a, b, c, d, e, f, g] = module.procs() else {
        return false;
    };
    if !consists_of(a, &GET_SUBSCRIBER_DATA, &get_subscriber_data()) {
        return false;
    }
    if !consists_of(b, &GET_NEW_DESTINATION, &get_new_destination()) {
        return false;
    }
    if !consists_of(c, &GET_ACCESS_DATA, &get_access_data()) {
        return false;
    }
    if !consists_of(d, &UPDATE_SUBSCRIBER_DATA, &update_subscriber_data()) {
        return false;
    }
    if !consists_of(e, &UPDATE_LOCATION, &update_location()) {
        return false;
    }
    if !consists_of(f, &INSERT_CALL_FORWARDING, &insert_call_forwarding()) {
        return false;
    }
    consists_of(g, &DELETE_CALL_FORWARDING, &delete_call_forwarding())
}

fn procedures(alloc: Global) -> Result<Vec<Proc>, AllocError>
    ensures { IfOk result (λ procs. procs.items ≡ standard_module.procedures) }
{
    Ok(vec![in alloc;
        procedure(alloc, &GET_SUBSCRIBER_DATA, &get_subscriber_data())?,
        procedure(alloc, &GET_NEW_DESTINATION, &get_new_destination())?,
        procedure(alloc, &GET_ACCESS_DATA, &get_access_data())?,
        procedure(alloc, &UPDATE_SUBSCRIBER_DATA, &update_subscriber_data())?,
        procedure(alloc, &UPDATE_LOCATION, &update_location())?,
        procedure(alloc, &INSERT_CALL_FORWARDING, &insert_call_forwarding())?,
        procedure(alloc, &DELETE_CALL_FORWARDING, &delete_call_forwarding())?,
    ]?)
}

fn procedure<const COUNT: usize>(
    alloc: Global,
    transaction: &Transaction<COUNT>,
    code: &[Instr],
) -> Result<Proc, AllocError>
    requires few { COUNT ≤ MAX_ARGUMENTS }
    requires procedure { is_procedure
        (record { name = transaction.now.name.now; arity = COUNT; code = code.now }) ≡ true }
    ensures { IfOk result (λ p.
        p ≡ record { name = transaction.now.name.now; arity = COUNT; code = code.now }) }
{
    let mut kept = Vec::new(alloc);
    kept.extend_from_slice(code)?;
    Ok(Proc::new(transaction.name, COUNT as u8, kept))
}

fn consists_of<const COUNT: usize>(
    procedure: &Proc,
    transaction: &Transaction<COUNT>,
    code: &[Instr],
) -> bool
    ensures { IsTrue result ↔ (procedure.now
        ≡ record { name = transaction.now.name.now; arity = COUNT; code = code.now }) }
{
    procedure.name() == transaction.name
        && usize::from(procedure.arity()) == COUNT
        && is_code(procedure.code(), code)
}

fn is_code(code: &[Instr], other: &[Instr]) -> bool
    ensures { IsTrue result ↔ (code.now ≡ other.now) }
{
    if code.len() != other.len() {
        return false;
    }
    for i in 0..code.len() {
        if !is_instr(&code[i], &other[i]) {
            return false;
        }
    }
    true
}

// By their bytes, which no two instructions share.
fn is_instr(instr: &Instr, other: &Instr) -> bool
    ensures { IsTrue result ↔ (instr.now ≡ other.now) }
{
    encode(instr) == encode(other)
}
