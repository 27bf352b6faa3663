use dbremote_command::Order;

/// What the words of a run ask for.
#[derive(Drop)]
pub enum Asked {
    /// An order on a database.
    Order(Order),
    /// The demonstration, from a seed and with so many statements: 0 to 100,000.
    Demo { seed: u64, count: u32 },
}
