//! The buckets of a column: some bounds divide its values, and each bucket has a test.
#![tactic(auto)]

mod buckets;

pub use buckets::bucket_tests;
