//! Numbers as fields, all big-endian.

ghost use Rattle.std.specs.Prelude.{ℕ, ◌^◌, ◌<◌, [], ◌∷◌, ⊤, FitsSigned};
ghost use Rattle.std.specs.Int.{w32, w64, to_be_bytes};
ghost use Rattle.sr_base.specs.Fields.{byte_at, signed_spelling};
ghost use Rattle.sr_base.specs.Reading.{number_at, signed_at};
ghost use Rattle.sr_base.specs.Inner.NumberLaws.{byte_format, format32, format64, signed_format32, signed_format64};

use crate::broken::Broken;
use crate::copied::NoMemory;
use crate::field::Field;
use std::alloc::Global;

impl Field for u8 {
    ghost can_write = { λ _. ⊤ };

    ghost fits = { λ n. n < 2 ^ 8 };

    ghost spelling = { λ n. n ∷ [] };

    ghost reading = { byte_at };

    ghost format = { byte_format };

    fn read(_alloc: Global, bytes: &[u8]) -> Result<(u8, &[u8]), Broken> {
        match bytes {
            [] => Err(Broken::Left(0)),
            [byte, rest @ ..] => Ok((*byte, rest)),
        }
    }

    fn write(&self, out: &mut Vec<u8>) -> Result<(), NoMemory> {
        out.push(*self)?;
        Ok(())
    }
}

impl Field for u32 {
    ghost can_write = { λ _. ⊤ };

    ghost fits = { λ n. n < 2 ^ 32 };

    ghost spelling = { to_be_bytes w32 };

    ghost reading = { number_at w32 };

    ghost format = { format32 };

    fn read(_alloc: Global, bytes: &[u8]) -> Result<(u32, &[u8]), Broken> {
        if bytes.len() < 4 {
            return Err(Broken::Left(bytes.len()));
        }
        let (prefix, rest) = bytes.split_at(4);
        let number = u32::from_be_bytes([prefix[0], prefix[1], prefix[2], prefix[3]]);
        Ok((number, rest))
    }

    fn write(&self, out: &mut Vec<u8>) -> Result<(), NoMemory> {
        out.extend_from_slice(&self.to_be_bytes())
    }
}

impl Field for u64 {
    ghost can_write = { λ _. ⊤ };

    ghost fits = { λ n. n < 2 ^ 64 };

    ghost spelling = { to_be_bytes w64 };

    ghost reading = { number_at w64 };

    ghost format = { format64 };

    fn read(_alloc: Global, bytes: &[u8]) -> Result<(u64, &[u8]), Broken> {
        if bytes.len() < 8 {
            return Err(Broken::Left(bytes.len()));
        }
        let (prefix, rest) = bytes.split_at(8);
        let number = u64::from_be_bytes([
            prefix[0], prefix[1], prefix[2], prefix[3], prefix[4], prefix[5], prefix[6], prefix[7],
        ]);
        Ok((number, rest))
    }

    fn write(&self, out: &mut Vec<u8>) -> Result<(), NoMemory> {
        out.extend_from_slice(&self.to_be_bytes())
    }
}

impl Field for i32 {
    ghost can_write = { λ _. ⊤ };

    ghost fits = { FitsSigned w32 };

    ghost spelling = { signed_spelling w32 };

    ghost reading = { signed_at w32 };

    ghost format = { signed_format32 };

    #[tactic(auto, unfolding(crate::specs::Reading::signed_at))]
    fn read(alloc: Global, bytes: &[u8]) -> Result<(i32, &[u8]), Broken> {
        let (number, rest) = u32::read(alloc, bytes)?;
        Ok((number.cast_signed(), rest))
    }

    fn write(&self, out: &mut Vec<u8>) -> Result<(), NoMemory> {
        self.cast_unsigned().write(out)
    }
}

impl Field for i64 {
    ghost can_write = { λ _. ⊤ };

    ghost fits = { FitsSigned w64 };

    ghost spelling = { signed_spelling w64 };

    ghost reading = { signed_at w64 };

    ghost format = { signed_format64 };

    #[tactic(auto, unfolding(crate::specs::Reading::signed_at))]
    fn read(alloc: Global, bytes: &[u8]) -> Result<(i64, &[u8]), Broken> {
        let (number, rest) = u64::read(alloc, bytes)?;
        Ok((number.cast_signed(), rest))
    }

    fn write(&self, out: &mut Vec<u8>) -> Result<(), NoMemory> {
        self.cast_unsigned().write(out)
    }
}
