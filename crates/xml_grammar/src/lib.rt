//! Rules of grammars: which texts a rule spells, as which values; and the cursor that reads a text.
//! A text may break off in a rule; the cursor says what comes next, and what is left after it.
//! Promises one theorem upward: a reading function composed as its rule is composed returns
//! exactly what `IsParseResult` says of the rule: the value, the end of the longest beginning, or
//! the first fault. What the cursor returns of a text is exact.
//! For the texts of RFC 4825 and RFC 4826: XML 1.0 (fifth edition), node selectors and queries.
//! A fault is a mark at a place of a beginning; where two kinds of fault are said of one place, a
//! rank that the grammar gives each kind decides.
#![tactic(auto)]

mod cursor;
mod lookahead;

pub use cursor::{
    count, count_before, empty_str, is_at_end, skip_chars, split_first, starts_with_char,
    text_before,
};
pub use lookahead::{are_both_next, is_either_next, is_lowercase_next, is_next, strip_char};
