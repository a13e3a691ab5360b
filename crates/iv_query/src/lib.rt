//! Reads the texts of views and policies: from bytes to tokens, and from tokens to trees.
#![tactic(auto)]

mod fault;
mod laws;
mod lexer;
mod limits;
mod list;
mod parts;
mod predicate;
mod query;
mod reader;
mod token;
mod tree;

pub use fault::{QueryFault, Why};
pub use laws::{each_policy_text_has_one_outcome, each_query_text_has_one_outcome, texts_are_read};
pub use reader::{read_pred, read_query};
pub use tree::{
    Column, Columns, Item, Join, Name, Op, Operand, Pair, Pred, PredText, Query, Select, SetOp,
    Source,
};
