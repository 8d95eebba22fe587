// What an input service is to do, decided before its first store: the byte that is stored, with the pointer stepped, or none; whether ICW is written, and as what; an echo or not, an interrupt or not.
// ICW's word stands beside whether it is written, and is no Option: the contract of `input_plan`, which docs/CLAIMS.md names, says the word of a character that is stored and not done too.
// The echo is a yes or no: which byte is echoed, ICW and the character say where the plan is carried out.
#[derive(Clone, Copy, Default, PartialEq, Eq, Debug)]
pub struct Plan {
    pub stored: Option<u8>,
    pub write: bool,
    pub icw: u16,
    pub echo: bool,
    pub raised: bool,
}
