// The text of a listing: a line, fed byte by byte, to a call or bad, and the five words of an answer to a line.
#![tactic(auto)]

mod answer;
mod command;
mod line;
mod short;

pub use answer::{put_answer, put_bad};
pub use command::Command;
pub use line::{Fed, Line};
pub use short::{Blank, Short};

const SPACE: u8 = b' ';

const NEWLINE: u8 = b'\n';
