//! The words of a command line: which command they are, and what it is asked for.
#![tactic(auto)]

mod command;
mod help;
mod source_options;
mod trial_options;
mod words;
mod words_end;

pub use command::Command;
pub use help::help_text;
pub use source_options::SourceOptions;
pub use trial_options::TrialOptions;
pub use words::parse;
pub use words_end::WordsEnd;
