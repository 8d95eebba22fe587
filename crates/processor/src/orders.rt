// What the processor orders: IORST or CLEAR, the instructions, and the tick of the 10 ms clock (001, 5).
#[derive(Clone, Copy)]
pub enum Order {
    Reset,
    Iopls,
    Start,
    Doc,
    Dob,
    Dia,
    Dias,
    Tick,
}
