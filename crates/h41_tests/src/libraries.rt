//! Tests with known values of the calculator's label cache, to check definitions with values that no deck prints.

mod calculator_labels;
mod kept_labels;
