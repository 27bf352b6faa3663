/// What a run of the agent does. It makes one of the two passes at least.
#[derive(Clone, Copy, Debug, PartialEq, Eq)]
pub struct Options {
    /// Mail is taken.
    pub receive: bool,
    /// What is due is sent.
    pub send: bool,
    /// Message files that are done with are removed.
    pub purge: bool,
    /// The log is begun anew first, where the least need of all partners lies.
    pub restart: bool,
    /// How many bytes a message file may have: 10,000 to 1,048,576.
    pub length: u32,
}
