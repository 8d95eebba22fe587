// What a port's service may change beside the memory: the byte handed to the transmitter if any, whether an interrupt is raised, the control bits and the Device Control level after it.
#[derive(Clone, Copy)]
pub struct Effect {
    pub sent: Option<u8>,
    pub raised: bool,
    pub control: u8,
    pub devcontrol: bool,
}
