// Prints texts and entries of tables. What cannot be written is left out.

// Prints some text as it stands.
pub fn text(rt: &impl Print, words: &[u8]) {
    let _ = rt.write_all(words);
}

// Prints entries of a table, with a space before each.
pub fn entries(rt: &impl Print, table: &[u16]) {
    for entry in table {
        let _ = print!(rt; " {entry}");
    }
}
