//! A machine that is kept from call to call.
ghost use Rattle.std.specs.Prelude.{◌≡◌, length, IsSomeAnd, slice_get};
ghost use Rattle.tatp_encoding.specs.Modules.{Procedure};
ghost use Rattle.tatp_machine.specs.Machines.{machine_at_entry};

use super::{Machine, kept};
use crate::current::Current;
use tatp_limits::REGISTERS;
use tatp_loader::Loaded;

impl<'m> Machine<'m> {
    /// Another call at its entry, on this machine: nothing is left of the call before. What a call
    /// writes only as it runs is not written here.
    pub fn enter_next(
        &mut self,
        loaded: &'m Loaded,
        procedure: usize,
        arguments: &[u64],
        home: Option<u64>,
    )
        requires { IsSomeAnd (slice_get loaded.now.procedures procedure)
            (λ (p : Procedure). p.arity ≡ length arguments.now) }
        ensures { self.new ≡ machine_at_entry loaded.now procedure arguments.now home }
    {
        let module = loaded.module();
        let proc = &module.procs()[procedure];
        self.code = proc.code();
        self.pc = 0;
        self.steps = 0;
        self.ended = false;
        self.version = module.version();
        self.procedure = procedure;
        self.home = home;
        self.registers = [0; REGISTERS];
        self.current = Current::none();
        self.argument_count = proc.arity() as usize;
        self.arguments = kept(arguments);
        self.output_count = 0;
        self.writes = 0;
        self.change_count = 0;
    }
}
