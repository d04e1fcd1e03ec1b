//! What a session changes of a board.
ghost use Rattle.std.specs.Prelude.{◌≡◌};
ghost use Rattle.board_plain.specs.Changes.{says_where, with_register};

use board_types::regs::Regs;
use execute_machine::flags::popped_flags;

/// A register, as reports name it.
#[derive(Clone, Copy, Debug, PartialEq, Eq)]
pub enum Register {
    Ax,
    Bx,
    Cx,
    Dx,
    Sp,
    Bp,
    Si,
    Di,
    Cs,
    Ds,
    Es,
    Ss,
    Ip,
    Fl,
}

/// What a session changes of a board as it stands.
#[derive(Clone, Copy, Debug, PartialEq, Eq)]
pub enum Change {
    /// This register has this word.
    Register(Register, u16),
    /// The cell of this physical address, below 100000h, has this byte.
    Byte(u32, u8),
}

/// Returns the registers with another word in one of them. Of a flags word only the nine flags are taken, as POPF does.
pub fn with_register(regs: Regs, register: Register, word: u16) -> Regs
    ensures { result ≡ with_register regs register word }
{
    match register {
        Register::Ax => Regs { ax: word, ..regs },
        Register::Bx => Regs { bx: word, ..regs },
        Register::Cx => Regs { cx: word, ..regs },
        Register::Dx => Regs { dx: word, ..regs },
        Register::Sp => Regs { sp: word, ..regs },
        Register::Bp => Regs { bp: word, ..regs },
        Register::Si => Regs { si: word, ..regs },
        Register::Di => Regs { di: word, ..regs },
        Register::Cs => Regs { cs: word, ..regs },
        Register::Ds => Regs { ds: word, ..regs },
        Register::Es => Regs { es: word, ..regs },
        Register::Ss => Regs { ss: word, ..regs },
        Register::Ip => Regs { ip: word, ..regs },
        Register::Fl => Regs {
            flags: popped_flags(word),
            ..regs
        },
    }
}

/// Whether a register says where the processor runs on.
pub fn says_where(register: Register) -> bool
    ensures { result ≡ says_where register }
{
    matches!(register, Register::Cs | Register::Ip)
}
