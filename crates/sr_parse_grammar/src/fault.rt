use sr_lex::LexFault;
use std::alloc::{AllocError, AllocFailed};

/// Why a text is no script.
#[derive(Drop)]
pub enum ParseFault {
    /// No script goes on with the token at this byte, or it may not end at the text's length. A fault of the tokens comes first.
    Refused { at: usize },
    /// There is no memory for the statements.
    Memory,
}

/// A fault of the tokens is one of the script, at the same byte.
impl From<LexFault> for ParseFault {
    ghost use Rattle.std.specs.Prelude.{◌≡◌};
    ghost use Rattle.sr_parse_grammar.specs.Inner.Faults.{fault_of};

    ghost from_gives = { λ fault e. e ≡ fault_of fault };

    fn from(fault: LexFault) -> ParseFault {
        match fault {
            LexFault::NoToken { at } => ParseFault::Refused { at },
            LexFault::Memory => ParseFault::Memory,
        }
    }
}

impl From<AllocError> for ParseFault {
    ghost use Rattle.std.specs.Prelude.{◌≡◌};
    ghost use Rattle.sr_parse_grammar.specs.declared.fault.ParseFault.TheVariants.{Memory};

    ghost from_gives = { λ _ e. e ≡ Memory };

    fn from(_refused: AllocError) -> ParseFault {
        ParseFault::Memory
    }
}

impl<T: Drop> From<AllocFailed<T>> for ParseFault {
    ghost use Rattle.std.specs.Prelude.{◌≡◌};
    ghost use Rattle.sr_parse_grammar.specs.declared.fault.ParseFault.TheVariants.{Memory};

    ghost from_gives = { λ _ e. e ≡ Memory };

    fn from(_refused: AllocFailed<T>) -> ParseFault {
        ParseFault::Memory
    }
}
