//! Texts and names as fields.

ghost use Rattle.std.specs.Prelude.{◌<◌, ◌^◌, ⊤, length};
ghost use Rattle.sr_base.specs.Fields.{bytes_spelling, IsText, name_spelling, name_at, IsName};
ghost use Rattle.sr_base.specs.Reading.{text_at};
ghost use Rattle.sr_base.specs.Inner.TextLaws.{text_format, name_format};

use crate::broken::Broken;
use crate::copied::NoMemory;
use crate::field::Field;
use crate::field_parts::write_pair;
use crate::name::Name;
use crate::name_bytes::{is_lower_name, is_name_size};
use crate::text::Text;
use std::alloc::Global;

impl Field for Text {
    ghost can_write = { λ text. length text < 2 ^ 32 };

    ghost fits = { IsText };

    ghost spelling = { bytes_spelling };

    ghost reading = { text_at };

    ghost format = { text_format };

    #[tactic(auto, using(crate::proofs::Utf8::utf8_tests), unfolding(crate::specs::Reading::text_at))]
    fn read(alloc: Global, bytes: &[u8]) -> Result<(Text, &[u8]), Broken> {
        let (size, behind) = u32::read(alloc, bytes)?;
        let size = size as usize;
        if behind.len() < size {
            return Err(Broken::Left(bytes.len()));
        }
        let (prefix, rest) = behind.split_at(size);
        match str::from_utf8(prefix) {
            Ok(text) => Ok((Text::from_str(alloc, text)?, rest)),
            Err(_) => Err(Broken::Left(behind.len())),
        }
    }

    fn write(&self, out: &mut Vec<u8>) -> Result<(), NoMemory> {
        let bytes = self.bytes();
        let before = out.len();
        (bytes.len() as u32).write(out)?;
        if let Err(refused) = out.extend_from_slice(bytes) {
            out.truncate(before);
            return Err(refused);
        }
        Ok(())
    }
}

impl Field for Name {
    ghost can_write = { λ _. ⊤ };

    ghost fits = { IsName };

    ghost spelling = { name_spelling };

    ghost reading = { name_at };

    ghost format = { name_format };

    #[tactic(auto, unfolding(crate::specs::Fields::name_at))]
    fn read(alloc: Global, bytes: &[u8]) -> Result<(Name, &[u8]), Broken> {
        let (size, behind) = u8::read(alloc, bytes)?;
        let size = size as usize;
        if !is_name_size(size, behind.len()) {
            return Err(Broken::Left(bytes.len()));
        }
        let (prefix, rest) = behind.split_at(size);
        if !is_lower_name(prefix) {
            return Err(Broken::Left(behind.len()));
        }
        Ok((Name::from_lower(alloc, prefix)?, rest))
    }

    fn write(&self, out: &mut Vec<u8>) -> Result<(), NoMemory> {
        let bytes = self.bytes();
        let before = out.len();
        (bytes.len() as u8).write(out)?;
        if let Err(refused) = out.extend_from_slice(bytes) {
            out.truncate(before);
            return Err(refused);
        }
        Ok(())
    }
}
