use calendar::FlightTexts;

/// What a block says that is understood.
#[derive(Clone, Copy)]
pub enum Block<'a> {
    /// A list: the whole body, its first line included.
    Issue(&'a [u8]),
    Switch(bool),
    Purge,
    Depart(FlightTexts<'a>),
}
