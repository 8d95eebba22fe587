// The bit codes of the control words, the control bits and the status word, with the names of specs/Codes.antt, which draws each word.
use crate::field::Field;

// The words of a block (document 01, the unit and the host's memory).
pub const ICW: usize = 0;

pub const OCW: usize = 1;

pub const IBP: usize = 4;

pub const OBP: usize = 5;

pub const LIB: usize = 6;

pub const LOB: usize = 7;

// ICW, word 0 of a block (001, section 4.1).
pub const INDONE: Field = Field {
    unit: 32768,
    span: 2,
};

pub const INMO: Field = Field {
    unit: 8192,
    span: 4,
};

pub const IN_SINGLE: u16 = 0;

pub const IN_NONE: u16 = 1;

pub const IN_ECHO: u16 = 3;

pub const ASCII: Field = Field {
    unit: 4096,
    span: 2,
};

pub const FLAGS: Field = Field {
    unit: 1024,
    span: 4,
};

pub const FLAG_NONE: u16 = 0;

pub const FLAG_PARITY: u16 = 1;

pub const FLAG_OVERLOAD: u16 = 2;

pub const FLAG_BREAK: u16 = 3;

pub const NOT_ECHOED: Field = Field { unit: 512, span: 2 };

pub const NOT_ECHOED_BY_ERROR: bool = false;

pub const NOT_ECHOED_BY_SPECIAL: bool = false;

pub const SERVICE_OVERLOAD: Field = Field { unit: 256, span: 2 };

pub const CHARACTER: Field = Field { unit: 1, span: 256 };

// OCW, word 1 of a block (001, section 4.2).
pub const OUTDONE: Field = Field {
    unit: 32768,
    span: 2,
};

pub const OUTMO: Field = Field {
    unit: 8192,
    span: 4,
};

pub const OUT_NONE: u16 = 0;

pub const OUT_AUTO: u16 = 1;

pub const OUT_CONTROL: u16 = 2;

pub const SPECIAL_REQUEST: Field = Field {
    unit: 4096,
    span: 2,
};

pub const DEVICE_CONTROL: Field = Field {
    unit: 4096,
    span: 2,
};

pub const DEVICE_STATUS: Field = Field {
    unit: 2048,
    span: 2,
};

pub const PREVIOUS_STATUS: Field = Field {
    unit: 1024,
    span: 2,
};

pub const UNUSED: Field = Field { unit: 512, span: 2 };

pub const STATUS_CHANGED: Field = Field { unit: 256, span: 2 };

// The eight control bits of a port, bits 8 to 15 of a port control OCW (001, section 4.2).
pub const PARITY_INHIBIT: Field = Field { unit: 128, span: 2 };

pub const STOP_BAUDS: Field = Field { unit: 64, span: 2 };

pub const LENGTH: Field = Field { unit: 16, span: 4 };

pub const EVEN_PARITY: Field = Field { unit: 8, span: 2 };

pub const SPEED: Field = Field { unit: 1, span: 8 };

// The status word (001, section 4.7), and a Mighty Mux's, whose stack has an entry for each interrupt (000, section 2.4.7, Table 2-3).
pub const REAL_TIME: Field = Field {
    unit: 32768,
    span: 2,
};

pub const MORE_THAN_ONE: Field = Field {
    unit: 16384,
    span: 2,
};

// The same bit of a Mighty Mux (000, section 2.4.7, Table 2-3).
pub const STACK_OVERFLOW: Field = Field {
    unit: 16384,
    span: 2,
};

pub const INPUT_DONE: Field = Field {
    unit: 8192,
    span: 2,
};

pub const OUTPUT_DONE: Field = Field {
    unit: 4096,
    span: 2,
};

pub const PORT_ADDRESS: Field = Field {
    unit: 32,
    span: 128,
};

pub const STATUS_UNUSED: Field = Field { unit: 1, span: 32 };

// The halves of a word (document 01, Input 6).
pub const LEFT: Field = Field {
    unit: 256,
    span: 256,
};

pub const RIGHT: Field = Field { unit: 1, span: 256 };
