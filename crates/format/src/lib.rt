// Document 01's list of fields as code, in numbers: for each tag what it is, what its body begins with and which fields follow, and what may come next.
#![tactic(auto)]

pub mod kinds; // kinds.rt: the kinds of fields
pub mod lines; // lines.rt: what a field is and what its body begins with, by tag
pub mod parts; // parts.rt: the fields that follow, by tag
pub mod order; // order.rt: which fields may come next
