// What the mode of an output service asks for, before a change of the line is looked at: a byte handed over if any, done or not, the control bits and the Device Control level after it.
#[derive(Clone, Copy, PartialEq, Eq, Debug)]
pub struct Plan {
    pub sent: Option<u8>,
    pub done: bool,
    pub control: u8,
    pub devcontrol: bool,
}
