//! Where connections are served.

/// Where connections are served, and where their calls are written.
#[derive(Drop)]
pub struct ServedPort<'a> {
    /// The port.
    pub port: u16,
    /// How many connections are accepted at most.
    pub accept: u32,
    /// The name of the journal's file.
    pub journal: &'a str,
}
