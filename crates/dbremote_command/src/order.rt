use sr_agent::Options;
use sr_base::{Name, Text};

/// What the words of a run ask for. `name` is the database's files, without their endings.
#[derive(Drop)]
pub enum Order {
    /// Makes a fresh database whose publisher is `user`.
    Init {
        name: Text,
        user: Name,
    },
    /// Runs the script on the source.
    Sql {
        name: Text,
    },
    /// Runs the agent once, with the mail in the folder `mail`.
    Agent {
        name: Text,
        mail: Text,
        options: Options,
    },
    /// Prints its offsets and books.
    Show {
        name: Text,
    },
}
