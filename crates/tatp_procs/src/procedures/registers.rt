//! The registers that the standard procedures use.
ghost use Rattle.std.specs.Prelude.{◌≡◌, ◌+◌, ◌≤◌, [], ◌∷◌};

use tatp_instr::{Register, Registers};
use tatp_limits::REGISTERS;

/// COUNT registers, from this one on.
pub(super) fn registers_from<const COUNT: u8>(number: u8) -> Registers<COUNT>
    requires { number + COUNT ≤ REGISTERS }
    ensures { result ≡ number }
{
    Registers::new(number).unwrap()
}

/// The registers 0 to 10.
pub(super) fn registers() -> [Register; 11]
    ensures { result ≡ 0 ∷ 1 ∷ 2 ∷ 3 ∷ 4 ∷ 5 ∷ 6 ∷ 7 ∷ 8 ∷ 9 ∷ 10 ∷ [] }
{
    [
        registers_from(0),
        registers_from(1),
        registers_from(2),
        registers_from(3),
        registers_from(4),
        registers_from(5),
        registers_from(6),
        registers_from(7),
        registers_from(8),
        registers_from(9),
        registers_from(10),
    ]
}
