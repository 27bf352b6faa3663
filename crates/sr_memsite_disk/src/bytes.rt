ghost use Rattle.std.specs.Prelude.{◌≡◌, ◌≤◌, length, drop, OnOk, OnErr, vec_len};
ghost use Rattle.sr_site.specs.Files.{overwritten};

use sr_base::NoMemory;

/// Puts `bytes` at the place `at` of a file, over what is there and past its end.
pub fn overwrite(file: &mut Vec<u8>, at: usize, bytes: &[u8]) -> Result<(), NoMemory>
    requires { at ≤ vec_len file.old }
    ensures ok { OnOk result (file.new.items ≡ overwritten file.old.items at bytes.now) }
    ensures err { OnErr result (file.new.items ≡ file.old.items) }
{
    let rest = file.len() - at;
    if bytes.len() <= rest {
        replace(file.as_mut_slice(), at, bytes);
        return Ok(());
    }
    let (over, past) = bytes.split_at(rest);
    file.extend_from_slice(past)?;
    replace(file.as_mut_slice(), at, over);
    Ok(())
}

/// Puts `bytes` over those at the place `at`.
pub fn replace(file: &mut [u8], at: usize, bytes: &[u8])
    requires at { at ≤ length file.old }
    requires room { length bytes.now ≤ length (drop at file.old) }
    ensures replaced { file.new ≡ overwritten file.old at bytes.now }
{
    let (_, tail) = file.split_at_mut(at);
    let (over, _) = tail.split_at_mut(bytes.len());
    over.copy_from_slice(bytes);
}
