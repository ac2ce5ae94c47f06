//! Tests of tokens, of the reader of queries and of the static checks, over what their crates make public.
#![tactic(auto)]

#[cfg(test)]
mod forms;
#[cfg(test)]
mod nesting;
#[cfg(test)]
mod texts;
#[cfg(test)]
mod tokens;
