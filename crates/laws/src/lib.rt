//! The laws of the definitions in `semantics`, each on the contract of a function, so that the check asks for its proof.

#![tactic(auto)]

mod answers;
mod compatible;
mod indistinguishable;
mod kinds;
mod orderly;
mod readback;
mod repeats;
mod replies;
mod runs;
mod sample;
mod small;
mod valuations;
mod wider;

pub use answers::{
    answers_bound_the_unmasked, faithful_changes_sharpen,
    indistinguishable_books_give_same_answers, low_rows_are_high_rows, values_give_one_answer,
    wider_policies_sharpen,
};
pub use compatible::{compatible_examples, compatible_in_every_book, compatible_means_joinable};
pub use indistinguishable::indistinguishable_books_have_equal_views;
pub use kinds::views_keep_kinds;
pub use orderly::calls_keep_books_orderly;
pub use readback::replies_are_read_back;
pub use repeats::answers_have_no_repeats;
pub use replies::reply_examples;
pub use runs::{
    certain_rows_stand, every_policy_keeps_the_laws, nothing_leaks, wider_policies_sharpen_runs,
};
pub use sample::{sample_answers, sample_comparisons, sample_replies};
pub use small::calls_keep_books_small;
pub use valuations::{lawful_valuations_are_faithful, own_values_are_a_lawful_valuation};
pub use wider::translation_gives_the_wider_view;
