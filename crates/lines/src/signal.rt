// What a line does at a port: a character arrives with a parity mark and a break mark, the transmitter's buffer runs empty, the Device Status line takes a level.
#[derive(Clone, Copy)]
pub enum Signal {
    Arrival { c: u8, parity: bool, brk: bool },
    TransmitterEmpty,
    DeviceStatus { level: bool },
}
