//! Tests calls on a tree that no script makes in this form, against results that are known independently.
//! (What scripts can show of the tree is tested by tests/scripts/tree.txt and tests/program/sizes.py.)
//! Most tests are lists of steps, so the calls of a step are proved once, however many steps there are.

mod compaction_tests;
mod hiding_tests;
mod path_tests;
mod planting;
mod steps;
