// From a field of the manifest that a text gives back to the token of the text that brought it.
#![tactic(auto)]

mod log; // log.rt: which bytes each token inserted
pub mod places; // places.rt: the reading of a text with the log
