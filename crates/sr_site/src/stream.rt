ghost use Rattle.std.specs.Prelude.{◌≡◌, ◌++◌, ◌<◌, ◌≤◌, [], length, take, IsTrue, IfOk, OnOk, OnErr};
ghost use Rattle.sr_site.specs.Causes.{Rose};
ghost use Rattle.sr_site.specs.Streams.{Input, Output, InputStays, OutputStays};

use crate::held::Failed;

/// What a script comes from, read once from front to back.
pub trait Source {
    /// Whether it tells its bytes, those that it has left, and the count of its faults.
    ghost seen: { Self → Input };

    /// Fills the front of `buffer`, and answers how many bytes it gave. Nothing for a buffer that is not empty is the end.
    /// `Failed` comes only where its count rose, and leaves what was left; a call that succeeds leaves the count.
    fn read(&mut self, buffer: &mut [u8]) -> Result<usize, Failed>
        ensures within { IfOk result (λ n. n ≤ length buffer.old) }
        ensures given { IsTrue (Self.seen self.old).observable → IfOk result (λ n. (Self.seen self.old).left ≡ take n buffer.new ++ (Self.seen self.new).left) }
        ensures end { IsTrue (Self.seen self.old).observable → IfOk result (λ n. 0 < length buffer.old → n ≡ 0 → (Self.seen self.new).left ≡ []) }
        ensures err { IsTrue (Self.seen self.old).observable → OnErr result ((Self.seen self.new).left ≡ (Self.seen self.old).left) }
        ensures stays { InputStays (Self.seen self.old) (Self.seen self.new) }
        ensures steady { OnOk result ((Self.seen self.new).faults ≡ (Self.seen self.old).faults) }
        ensures cause { OnErr result (Rose (Self.seen self.old).faults (Self.seen self.new).faults) };
}

/// What the printed lines go to.
pub trait Sink {
    /// Whether it tells its bytes, those that it took, and the count of its faults.
    ghost seen: { Self → Output };

    /// Takes bytes from the front of `bytes`, and answers how many: at least one of a piece that is not empty.
    /// `Failed` comes only where its count rose, and takes nothing; a call that succeeds leaves the count.
    fn write(&mut self, bytes: &[u8]) -> Result<usize, Failed>
        ensures within { IfOk result (λ n. n ≤ length bytes.now) }
        ensures some { 0 < length bytes.now → IfOk result (λ n. 0 < n) }
        ensures taken { IsTrue (Self.seen self.old).observable → IfOk result (λ n. (Self.seen self.new).taken ≡ (Self.seen self.old).taken ++ take n bytes.now) }
        ensures err { IsTrue (Self.seen self.old).observable → OnErr result ((Self.seen self.new).taken ≡ (Self.seen self.old).taken) }
        ensures stays { OutputStays (Self.seen self.old) (Self.seen self.new) }
        ensures steady { OnOk result ((Self.seen self.new).faults ≡ (Self.seen self.old).faults) }
        ensures cause { OnErr result (Rose (Self.seen self.old).faults (Self.seen self.new).faults) };
}
