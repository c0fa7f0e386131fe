// What is asked of kinds and roles.
ghost use Rattle.std.specs.Prelude.{◌≡◌};
ghost use Rattle.cif_defs.specs.Cells.{reset_operand as reset_operand_of};
ghost use Rattle.cif_defs.specs.Kinds.{is_register as is_register_role, is_memory as is_memory_role};
ghost use Rattle.cif_defs.specs.Loop.{is_passing as is_passing_role};

use crate::kinds::{Kind, Role};

impl Role {
    /// Whether it is that of a register, with asynchronous reset or without.
    pub fn is_register(self) -> bool
        ensures { result ≡ is_register_role self }
    {
        match self {
            Role::PlainRegister | Role::ResetRegister => true,
            Role::MemoryBlock | Role::Combinational | Role::CarriedOver => false,
        }
    }

    /// Whether it is that of a memory.
    pub fn is_memory(self) -> bool
        ensures { result ≡ is_memory_role self }
    {
        match self {
            Role::MemoryBlock => true,
            Role::PlainRegister | Role::ResetRegister | Role::Combinational | Role::CarriedOver =>
                false,
        }
    }

    /// Whether outputs of its cells depend on operands in the same cycle.
    pub fn is_passing(self) -> bool
        ensures { result ≡ is_passing_role self }
    {
        match self {
            Role::Combinational | Role::ResetRegister | Role::MemoryBlock => true,
            Role::PlainRegister | Role::CarriedOver => false,
        }
    }
}

impl Kind {
    /// The number of the operand that resets a register with asynchronous reset.
    pub fn reset_operand(self) -> u32
        ensures { result ≡ reset_operand_of self }
    {
        match self {
            Kind::Adffe => 2,
            _ => 1,
        }
    }
}
