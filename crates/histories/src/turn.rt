use calendar::FlightTexts;

/// A call of a history, with all that it takes but the buffer.
#[derive(Drop)]
pub enum Call<'a, S: Drop> {
    Issue(&'a [u8]),
    Switch(bool),
    Depart(FlightTexts<'a>),
    Purge,
    Packet(S, &'a [u8]),
    Report(S, &'a [u8]),
}

/// A turn of a history: its call, the buffer for a reply, and the place for its pair.
#[derive(Drop)]
pub struct Turn<'a, S: Drop> {
    pub call: Call<'a, S>,
    pub buffer: Vec<u8>,
    pub pair: (u32, usize),
}
