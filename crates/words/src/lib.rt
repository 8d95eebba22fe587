// Words and pointers: the leaves that input and output share. Each file is one idea of document 01.
#![tactic(auto)]

pub mod ascii;
pub mod byte;
pub mod codes;
pub mod field;
pub mod length;
pub mod modes;
pub mod pointer;
pub mod special;
pub mod speed;
