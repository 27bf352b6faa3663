ghost use Rattle.std.specs.Prelude.{IsTrue};
ghost use Rattle.sr_site.specs.Images.{IsImage};
ghost use Rattle.sr_site.specs.Seen.{Seen};

/// A call of a device did not do what it was asked for. The device's count of faults rose in it.
#[derive(Clone, Copy)]
pub struct Failed;

/// What a site means to contracts: it has no calls.
///
/// `seen` is data alone: whether the site tells what it holds, the bytes of its files now and at the beginning, what happened since then on
/// both devices, and the two counts of faults. The counts are always right; all else is claimed only where `told` is true. What a read gives of
/// the files is then always one of the things that a crash may leave at that moment: `read_is_image`.
pub trait Held {
    ghost seen: { Self → Seen };

    ghost read_is_image: { (site : Self) → IsTrue (seen site).observable → IsImage (seen site) (seen site).files };
}
