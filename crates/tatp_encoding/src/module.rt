//! Procedures, and modules of them.
ghost use Rattle.std.specs.Prelude.{◌≡◌, ◌≤◌, true, length};
ghost use Rattle.tatp_encoding.specs.Modules.{is_name, is_procedure, is_module};

use arrayvec::ArrayString;
use std::marker::Model;
use tatp_instr::{Instr, Version};
use tatp_limits::{MAX_ARGUMENTS, MAX_INSTRUCTIONS, MAX_NAME_BYTES};

/// A procedure: a name of some of the letters A..Z and underscore, perhaps arguments, and some
/// instructions, no more of each than the limits.
#[derive(Debug, Drop)]
pub struct Proc {
    name: ArrayString<MAX_NAME_BYTES>,
    arity: u8,
    code: Vec<Instr>,
}

impl Model for Proc {
    ghost use Rattle.std.specs.Prelude.{◌≡◌, true};
    ghost use Rattle.tatp_encoding.specs.Modules.{Procedure, is_procedure};

    ghost Value = { Procedure };

    ghost view = { λ p. record {
      name = p.name.bytes;
      arity = p.arity;
      code = p.code.items;
    } };

    ghost invariant = { λ p. is_procedure (record {
      name = p.name.bytes;
      arity = p.arity;
      code = p.code.items;
    }) ≡ true };
}

impl Proc {
    /// A procedure of these parts.
    pub fn new(name: &str, arity: u8, code: Vec<Instr>) -> Proc
        requires { is_procedure (record {
          name = name.now;
          arity = arity;
          code = code.items;
        }) ≡ true }
        ensures { result ≡ record { name = name.now; arity = arity; code = code.items } }
    {
        let mut kept = ArrayString::new();
        kept.push_str(name);
        Proc {
            name: kept,
            arity,
            code,
        }
    }

    /// The name.
    pub fn name(&self) -> &str
        ensures value { result.now ≡ self.now.name }
        ensures name { is_name self.now.name ≡ true }
    {
        self.name.as_str()
    }

    /// How many arguments it takes.
    pub fn arity(&self) -> u8
        ensures value { result ≡ self.now.arity }
        ensures most { self.now.arity ≤ MAX_ARGUMENTS }
    {
        self.arity
    }

    /// The instructions.
    pub fn code(&self) -> &[Instr]
        ensures value { result.now ≡ self.now.code }
        ensures least { 1 ≤ length self.now.code }
        ensures most { length self.now.code ≤ MAX_INSTRUCTIONS }
    {
        self.code.as_slice()
    }
}

/// A module: a version of the instruction table, and procedures of its instructions, at least
/// one, whose jumps lead to a place in their code or to its end. Names may repeat.
#[derive(Debug, Drop)]
pub struct Module {
    version: Version,
    procs: Vec<Proc>,
}

impl Model for Module {
    ghost use Rattle.std.specs.Prelude.{◌≡◌, true};
    ghost use Rattle.tatp_encoding.specs.Modules.{ModuleState, is_module};

    ghost Value = { ModuleState };

    ghost view = { λ m. record { version = m.version; procedures = m.procs.items } };

    ghost invariant = { λ m. is_module (record {
      version = m.version;
      procedures = m.procs.items;
    }) ≡ true };
}

impl Module {
    /// A module of this version and these procedures.
    pub fn new(version: Version, procs: Vec<Proc>) -> Module
        requires { is_module (record {
          version = version;
          procedures = procs.items;
        }) ≡ true }
        ensures { result ≡ record { version = version; procedures = procs.items } }
    {
        Module { version, procs }
    }

    /// The version of the instruction table.
    pub fn version(&self) -> Version
        ensures { result ≡ self.now.version }
    {
        self.version
    }

    /// The procedures.
    pub fn procs(&self) -> &[Proc]
        ensures value { result.now ≡ self.now.procedures }
        ensures module { is_module self.now ≡ true }
    {
        self.procs.as_slice()
    }
}
