//! The grammar of expressions: what is read and what is refused, by productions, and that what `expr_lang` reads and prints follows it.
//! It has definitions and proofs and no function; those that are called are in `expr_text`.
#![tactic(auto)]
