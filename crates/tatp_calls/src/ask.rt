//! What a client asks: which procedure, of which subscriber, and whether a module takes it.
ghost use Rattle.std.specs.Prelude.{◌≡◌, ◌↔◌, IsTrue, length};
ghost use Rattle.tatp_calls.specs.Asked.{is_transaction, procedure_asked, arguments_asked, key_asked};
ghost use Rattle.tatp_calls.specs.Asked.{AreInDomains, Fits, arities_of, has_procedure, bad_argument};

use crate::{BadArgument, Call, Raw, args_ok};
use tatp_encoding::Module;
use tatp_numbers::Key;

/// What a client asks.
#[derive(Clone, Copy, Debug, PartialEq, Eq)]
pub enum Ask {
    /// A call of a transaction.
    Txn(Call),
    /// A call of any procedure.
    Raw(Raw),
}

impl Ask {
    /// Whether it is a transaction.
    pub fn is_transaction(&self) -> bool
        ensures { result ≡ is_transaction self.now }
    {
        match self {
            Ask::Txn(_) => true,
            Ask::Raw(_) => false,
        }
    }

    /// The number of the procedure.
    pub fn procedure(&self) -> u64
        ensures { result ≡ procedure_asked self.now }
    {
        match self {
            Ask::Txn(call) => call.procedure() as u64,
            Ask::Raw(raw) => raw.procedure(),
        }
    }

    /// The key of the subscriber.
    pub fn key(&self) -> Key
        ensures { result ≡ key_asked self.now }
    {
        match self {
            Ask::Txn(call) => call.key(),
            Ask::Raw(raw) => raw.key(),
        }
    }

    /// Whether a module has the procedure, with as many arguments.
    pub fn has_procedure(&self, in_module: &Module) -> bool
        ensures { result ≡ has_procedure in_module.now self.now }
    {
        let procs = in_module.procs();
        let procedure = self.procedure();
        procedure < procs.len() as u64
            && procs[procedure as usize].arity() as usize == self.argument_count()
    }

    /// A transaction's first argument outside its domain. Those of any other call may be any
    /// numbers.
    pub fn bad_argument(&self) -> Option<BadArgument>
        ensures { result ≡ bad_argument self.now }
    {
        match self {
            Ask::Txn(call) => args_ok(call).err(),
            Ask::Raw(_) => None,
        }
    }

    /// Whether among procedures of these arities is the one that is asked, with that number of
    /// arguments, in their domains where it is a transaction.
    pub fn fits(&self, arities: &[u8]) -> bool
        ensures { IsTrue result ↔ Fits arities.now self.now }
    {
        let procedure = self.procedure();
        procedure < arities.len() as u64 && self.is_taken(arities[procedure as usize])
    }

    /// Whether a module has the procedure, with as many arguments, which are in their domains where
    /// it is a transaction.
    pub fn fits_module(&self, in_module: &Module) -> bool
        ensures { IsTrue result ↔ Fits (arities_of in_module.now) self.now }
    {
        let procs = in_module.procs();
        let procedure = self.procedure();
        procedure < procs.len() as u64 && self.is_taken(procs[procedure as usize].arity())
    }

    /// How many arguments there are.
    fn argument_count(&self) -> usize
        ensures { result ≡ length (arguments_asked self.now) }
    {
        match self {
            Ask::Txn(call) => call.arg_count(),
            Ask::Raw(raw) => raw.args().len(),
        }
    }

    /// Whether a procedure of this arity takes what is asked.
    fn is_taken(&self, arity: u8) -> bool
        ensures { IsTrue result
            ↔ ((arity ≡ length (arguments_asked self.now)) × AreInDomains self.now) }
    {
        match self {
            Ask::Txn(call) => arity as usize == call.arg_count() && args_ok(call).is_ok(),
            Ask::Raw(raw) => arity as usize == raw.args().len(),
        }
    }
}
