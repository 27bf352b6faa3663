//! Two databases and what befalls them.

ghost use Rattle.std.specs.Prelude.{◌≡◌, ◌++◌, ◌∷◌, [], IfOk};
ghost use Rattle.test_lives.specs.Inner.Lives.{HasCrashedTo, HaveOneWorld, offices_of};

use crate::office::{Broken, Office, Ran, Task, go_on, make};
use crate::place::Place;
use sr_base::{Name, NoMemory, Seq, Text};
use sr_memsite::{MemorySink, SharedMail};
use std::alloc::Global;
use std::marker::Model;
use world_lives_kept::KeptMail;

/// Two databases over devices in memory, the folder between them, and what was done with them.
///
/// However they came to stand so, the runs so far are lives as the law on them asks.
#[derive(Drop)]
pub struct Lives {
    above: Office,
    below: Office,
    mail: SharedMail,
    put: Seq<Seq<u8>>,
    places: Seq<Place>,
}

impl Model for Lives {
    ghost use Rattle.test_lives.specs.Inner.Lives.{IsLife, LivesSoFar};

    ghost Value = { LivesSoFar };

    ghost view = { λ l. record { above = l.above; below = l.below; mail = l.mail; put = l.put; places = l.places } };

    ghost invariant = { λ l. IsLife l.above l.below l.put l.places };
}

/// What a run answered.
#[derive(Drop)]
pub struct Answer {
    pub status: u8,
    pub lines: MemorySink,
}

impl Lives {
    /// Makes both databases.
    #[tactic(auto, using(crate::proofs::Living::begun_lives))]
    pub fn begin(alloc: Global, now: i64) -> Result<Lives, Broken>
        ensures none { IfOk result (λ lives. lives.places ≡ []) }
        ensures nothing { IfOk result (λ lives. lives.put ≡ []) }
    {
        let above = make(alloc, Place::Above, now)?;
        let below = make(alloc, Place::Below, now)?;
        Ok(Lives {
            above,
            below,
            mail: SharedMail::new(alloc),
            put: Seq::empty(alloc),
            places: Seq::empty(alloc),
        })
    }

    /// Runs the program on one of them.
    #[tactic(auto, using(crate::proofs::Living::one_more_above, crate::proofs::Living::one_more_below))]
    pub fn go(
        self,
        alloc: Global,
        place: Place,
        task: Task,
        now: i64,
    ) -> Result<(Lives, Answer), Broken>
        ensures places { IfOk result (λ gone. gone.0.places ≡ self.places ++ place ∷ []) }
    {
        let Lives {
            above,
            below,
            mail,
            mut put,
            mut places,
        } = self;
        if places.push(place).is_err() {
            return Err(Broken::Memory);
        }
        match place {
            Place::Above => {
                let Ran {
                    office,
                    mail,
                    status,
                    lines,
                } = go_on(alloc, above, mail, &mut put, task, now)?;
                let lives = Lives {
                    above: office,
                    below,
                    mail,
                    put,
                    places,
                };
                Ok((lives, Answer { status, lines }))
            }
            Place::Below => {
                let Ran {
                    office,
                    mail,
                    status,
                    lines,
                } = go_on(alloc, below, mail, &mut put, task, now)?;
                let lives = Lives {
                    above,
                    below: office,
                    mail,
                    put,
                    places,
                };
                Ok((lives, Answer { status, lines }))
            }
        }
    }

    /// The machine of one of them stops, whatever it was at, and begins anew with what `pick` chooses of all that a crash may leave of its files.
    #[tactic(auto, using(crate::proofs::Living::crashed_above, crate::proofs::Living::crashed_below))]
    pub fn crash(self, alloc: Global, place: Place, pick: u64) -> Result<Lives, Broken>
        ensures places { IfOk result (λ lives. lives.places ≡ self.places) }
        ensures put { IfOk result (λ lives. lives.put ≡ self.put) }
    {
        let Lives {
            above,
            below,
            mail,
            put,
            places,
        } = self;
        match place {
            Place::Above => {
                let above = crashed(alloc, above, pick)?;
                Ok(Lives {
                    above,
                    below,
                    mail,
                    put,
                    places,
                })
            }
            Place::Below => {
                let below = crashed(alloc, below, pick)?;
                Ok(Lives {
                    above,
                    below,
                    mail,
                    put,
                    places,
                })
            }
        }
    }

    /// Loses a file on its way. `false` says that there is no such file.
    pub fn lose(&mut self, address: &Name, name: &Text) -> bool
        ensures places { self.new.places ≡ self.old.places }
        ensures put { self.new.put ≡ self.old.put }
        ensures offices { offices_of self.new ≡ offices_of self.old }
    {
        self.mail.lose(address, name)
    }

    /// Lays a copy of a file into its folder under another name. `false` says that there is no such file.
    pub fn repeat(
        &mut self,
        alloc: Global,
        address: &Name,
        name: &Text,
        as_name: &Text,
    ) -> Result<bool, NoMemory>
        ensures places { self.new.places ≡ self.old.places }
        ensures put { self.new.put ≡ self.old.put }
        ensures offices { offices_of self.new ≡ offices_of self.old }
    {
        self.mail.repeat(alloc, address, name, as_name)
    }

    /// Holds a file back. `false` says that there is no such file.
    pub fn hold(&mut self, address: &Name, name: &Text) -> bool
        ensures places { self.new.places ≡ self.old.places }
        ensures put { self.new.put ≡ self.old.put }
        ensures offices { offices_of self.new ≡ offices_of self.old }
    {
        self.mail.hold(address, name)
    }

    /// Holds no file back any more.
    pub fn release(&mut self)
        ensures places { self.new.places ≡ self.old.places }
        ensures put { self.new.put ≡ self.old.put }
        ensures offices { offices_of self.new ≡ offices_of self.old }
    {
        self.mail.release();
    }

    /// The address and the name of every file that was put, the oldest first.
    pub fn puts(&self) -> &[(Name, Text)] {
        self.mail.puts()
    }

    /// Whatever was done, the runs are lives as the law on them asks, and so they are runs of one good world.
    #[tactic(auto, using(crate::proofs::Living::one_world))]
    pub fn have_lived(&self)
        ensures world { HaveOneWorld (offices_of self.now) self.now.put self.now.places }
    {
        let _ = &self.put;
    }
}

/// What `pick` chooses of all that a crash may leave of the files of a database.
#[tactic(auto, using(crate::proofs::Living::crashed_whole))]
fn crashed(alloc: Global, office: Office, pick: u64) -> Result<Office, Broken>
    ensures crashed { IfOk result (HasCrashedTo pick office) }
{
    let Office { mut disk, kept } = office;
    drop(kept);
    disk.crash(alloc, pick)?;
    Ok(Office {
        disk,
        kept: KeptMail::new(alloc),
    })
}
