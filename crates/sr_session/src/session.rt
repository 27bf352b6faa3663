use sr_ast::Passthrough;

/// What a script under way has beside its database: the passthrough region, and the lines that are not written yet.
#[derive(Drop)]
pub(crate) struct Session {
    pub region: Option<Passthrough>,
    pub lines: Vec<u8>,
}
