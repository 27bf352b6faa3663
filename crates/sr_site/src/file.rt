/// One of the five files of a database. The root's first byte names the generation, whose log and snapshot are in force.
#[derive(Clone, Copy, Debug, PartialEq, Eq)]
pub enum File {
    Root,
    Log0,
    Log1,
    Snap0,
    Snap1,
}
