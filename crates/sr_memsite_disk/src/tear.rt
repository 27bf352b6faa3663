ghost use Rattle.std.specs.Prelude.{◌≡◌, IfOk, replicate};
ghost use Rattle.sr_memsite_disk.specs.Picks.{tear_of, next_pick, turned, part};

use sr_base::NoMemory;
use std::alloc::Global;

/// What a crash makes of a change: it is lost or whole, its first half is there alone, its second half behind zeros, or other bytes as many.
#[derive(Clone, Copy)]
pub enum Tear {
    Lost,
    Whole,
    Prefix,
    Back,
    Filled(u8),
}

/// What a pick makes of the next change: at 1 it is whole, else it goes by the last digit of the pick, less 2, in base eight.
pub fn tear_of(pick: u64) -> Tear
    ensures { result ≡ tear_of pick }
{
    if pick == 1 {
        return Tear::Whole;
    }
    let tears = [
        Tear::Lost,
        Tear::Whole,
        Tear::Prefix,
        Tear::Back,
        Tear::Filled(0),
        Tear::Filled(1),
        Tear::Filled(85),
        Tear::Filled(255),
    ];
    tears[(pick.saturating_sub(2) % 8) as usize]
}

/// The pick for the changes behind it.
pub fn next_pick(pick: u64) -> u64
    ensures { result ≡ next_pick pick }
{
    if pick == 1 {
        return 1;
    }
    2 + pick.saturating_sub(2) / 8
}

/// Of a cut, all bytes are there where it is lost, and none where it is whole.
pub fn turned(tear: Tear) -> Tear
    ensures { result ≡ turned tear }
{
    match tear {
        Tear::Lost => Tear::Whole,
        Tear::Whole => Tear::Lost,
        Tear::Prefix => Tear::Prefix,
        Tear::Back => Tear::Back,
        Tear::Filled(byte) => Tear::Filled(byte),
    }
}

/// What is there of bytes.
pub fn part(alloc: Global, tear: Tear, bytes: &[u8]) -> Result<Vec<u8>, NoMemory>
    ensures { IfOk result (λ there. there.items ≡ part tear bytes.now) }
{
    match tear {
        Tear::Lost => Ok(Vec::new(alloc)),
        Tear::Whole => Vec::from_slice(alloc, bytes),
        Tear::Prefix => prefix(alloc, bytes),
        Tear::Back => back(alloc, bytes),
        Tear::Filled(byte) => filled(alloc, byte, bytes.len()),
    }
}

/// The first half.
fn prefix(alloc: Global, bytes: &[u8]) -> Result<Vec<u8>, NoMemory>
    ensures { IfOk result (λ there. there.items ≡ part (Tear.Prefix) bytes.now) }
{
    let (prefix, _) = bytes.split_at(bytes.len() / 2);
    Vec::from_slice(alloc, prefix)
}

/// The second half behind zeros.
fn back(alloc: Global, bytes: &[u8]) -> Result<Vec<u8>, NoMemory>
    ensures { IfOk result (λ there. there.items ≡ part (Tear.Back) bytes.now) }
{
    let half = bytes.len() / 2;
    let (_, back) = bytes.split_at(half);
    let mut there = filled(alloc, 0, half)?;
    there.extend_from_slice(back)?;
    Ok(there)
}

/// So many bytes alike.
fn filled(alloc: Global, byte: u8, count: usize) -> Result<Vec<u8>, NoMemory>
    ensures { IfOk result (λ there. there.items ≡ replicate count byte) }
{
    let mut there = Vec::new(alloc);
    there.resize(count, byte)?;
    Ok(there)
}
