//! Tests of `rt_file_hints`.

#[cfg(test)]
mod tests;
