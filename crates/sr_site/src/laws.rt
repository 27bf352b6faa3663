ghost use Rattle.std.specs.Prelude.{◌≡◌, ◌≤◌, [], ◌∷◌, ◌++◌, Bool, List, ℕ, length, take, true, IsTrue};
ghost use Rattle.std.specs.List.{AllByRecursion};
ghost use Rattle.sr_site.specs.Inner.Calls.{Call, IsCallOn};
ghost use Rattle.sr_site.specs.Files.{Files, bytes_of, with_bytes, overwritten, IsTorn, IsCutInPart, OthersStay};
ghost use Rattle.sr_site.specs.Happenings.{Happening, Grows, wrote, cut_to, synced};
ghost use Rattle.sr_site.specs.Inner.Happenings.{Made};
ghost use Rattle.sr_site.specs.Images.{MayLeave, IsImage, KeepsOthers, RestsThroughout};
ghost use Rattle.sr_site.specs.Seen.{Seen};
ghost use Rattle.sr_site.specs.declared.file.File.{File as file};

use crate::held::Held;

/// What a site that tells its files gives of them to a read is an image: one of the things that a crash may leave at this moment.
pub fn a_site_reads_an_image<S: Held>(_site: &S)
    ensures image { IsTrue (S.seen _site.now).observable → IsImage (S.seen _site.now) (S.seen _site.now).files }
{}

/// What a read gives is an image, and stays one: after a write, a cut and a sync, whether they succeed or fail.
pub fn what_is_read_is_an_image()
    ensures beginning { (first : Files) → MayLeave first [] first }
    ensures written { (place : ℕ) (old bytes : List ℕ) → place ≤ length old → IsTorn place (length bytes) old (overwritten old place bytes) }
    ensures cut { (to : ℕ) (old : List ℕ) → to ≤ length old → IsCutInPart to old (take to old) }
    ensures after_write { (first old new : Files) (before : List Happening) (f : file) (place : ℕ) (bytes after : List ℕ) (done : Bool) → MayLeave first before old → OthersStay f old new → IsTorn place (length bytes) (bytes_of old f) (bytes_of new f) → MayLeave first (wrote f place bytes done after ∷ before) new }
    ensures after_cut { (first old new : Files) (before : List Happening) (f : file) (to : ℕ) (after : List ℕ) (done : Bool) → MayLeave first before old → OthersStay f old new → IsCutInPart to (bytes_of old f) (bytes_of new f) → MayLeave first (cut_to f to done after ∷ before) new }
    ensures after_sync { (first files : Files) (before : List Happening) (f : file) (done : Bool) → MayLeave first before files → MayLeave first (synced f done (bytes_of files f) ∷ before) files }
{}

/// After a sync that succeeds, a crash leaves that file as a read gave it then. A sync adds no image of any other file.
pub fn a_sync_settles()
    ensures settled { (first image : Files) (before : List Happening) (f : file) (after : List ℕ) → MayLeave first (synced f true after ∷ before) image → bytes_of image f ≡ after }
    ensures others { (first image : Files) (before : List Happening) (f : file) (after : List ℕ) → MayLeave first (synced f true after ∷ before) image → (old : Files) × MayLeave first before old × OthersStay f old image }
{}

/// What happened at an earlier moment is the end of what happened by now.
pub fn what_happened_grows()
    ensures { (before now : List Happening) → Grows before now → (more : List Happening) × (now ≡ more ++ before) }
{}

/// Calls on one file leave the other files in every image as an image before had them, at each moment, also where a call fails.
pub fn calls_on_one_file_leave_the_others()
    ensures { (f : file) (calls : List Call) (before now : Seen) (done : Bool) → AllByRecursion (IsCallOn f) calls → Made calls before.happened now.happened done → RestsThroughout (KeepsOthers f before) before now }
{}
