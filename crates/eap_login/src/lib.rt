//! All that the program does but for its standard input and output, and the objects of methods that it makes: by its
//! words one of the commands answers, in the one call [`eap_login`]; [`run`] reads the arguments that the program was
//! started with, answers over the objects handed in, and gives the exit status.
#![tactic(auto)]

mod exit;
mod login;
mod methods;
mod program;
mod words;

pub use command_driver::Status;
pub use exit::{exit_number, failure_number};
pub use login::eap_login;
pub use methods::methods_of;
pub use program::run;
pub use words::words_after_name;
