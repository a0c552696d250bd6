//! How the texts of tests are put together.

use std::alloc::{AllocError, Global};

/// A module: items, and a `main` of these lines behind them.
pub fn with_main(alloc: Global, items: &str, lines: &str) -> Result<String, AllocError> {
    format!(in alloc; "{items}define i32 @main() {{\n{lines}\n}}\n")
}
