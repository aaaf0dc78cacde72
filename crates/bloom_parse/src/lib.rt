//! Module text: its tokens, its grammar, the reader and the printer.
#![tactic(auto)]

mod laws;
mod lexing;
mod parser;
mod printer;
mod reading;
mod refusal;

pub use laws::{
    bounds_law, literal_law, one_module_law, plain_end_law, print_law, reading_law, token_law,
};
pub use lexing::lexer::tokens;
pub use lexing::terminal::{Mark, Terminal, Word};
pub use lexing::token::{Class, Token};
pub use parser::parse;
pub use printer::print;
pub use refusal::{ParseFault, TextFault};
